// The type of an expression.
ghost use Rattle.std.specs.Prelude.{◌≡◌};
ghost use Rattle.faults.specs.Causes.{by_number};
ghost use Rattle.syntax.specs.Trees.{exp};
ghost use Rattle.typing.specs.Typing.{fitted, operand, shape};

use crate::rules::{binary_type, choice_type, place, settled, unary_type};
use crate::scope::Scope;
use faults::cause::Cause;
use syntax::tree::Expr;
use values::types::Type;

// The type that fits, or that the operator at a place takes none of its operands' types.
fn fitted(at: u16, ty: Option<Type>) -> Result<Type, Cause>
    ensures { by_number result ≡ fitted at ty }
{
    ty.ok_or(Cause::Mistyped(usize::from(at)))
}

impl Scope {
    // The type of an operand, at most `depth` deep, once its own divisor is looked at.
    #[cycle(shape)]
    fn operand(&self, e: &Expr, depth: u8) -> Result<Type, Cause>
        ensures { let cs = self.now.channels.items in
            let ss = self.now.streams.items in
            by_number result ≡ operand (shape cs ss depth) (exp e.now) }
    {
        settled(e, self.shape(e, depth)?)
    }

    // The type of an expression, at most `depth` deep, before its own divisor is looked at.
    #[cycle(shape)]
    #[tactic(auto, using(crate::proofs::Shapes::shaped), unfolding(crate::specs::Typing::shape))]
    pub(crate) fn shape(&self, e: &Expr, depth: u8) -> Result<Type, Cause>
        ensures { let cs = self.now.channels.items in
            let ss = self.now.streams.items in
            by_number result ≡ shape cs ss depth (exp e.now) }
    {
        if depth == 0 {
            return Err(Cause::Limit(place(e)));
        }
        match e {
            Expr::Constant { value, .. } => Ok(value.ty()),
            Expr::Channel { number, .. } => Ok(self.channel(*number)),
            Expr::Stream { number, .. } => Ok(self.stream(*number)),
            Expr::Unary { place, op, operand } => {
                let a = self.operand(operand, depth - 1)?;
                fitted(*place, unary_type(*op, a))
            }
            Expr::Cast { place, to, operand } => {
                let a = self.operand(operand, depth - 1)?;
                fitted(*place, a.casts_to(*to).then_some(*to))
            }
            Expr::Binary {
                place,
                op,
                operands,
            } => {
                let (left, right) = &**operands;
                let a = self.operand(left, depth - 1)?;
                let b = self.operand(right, depth - 1)?;
                fitted(*place, binary_type(*op, a, b))
            }
            Expr::Choose { place, operands } => {
                let (test, yes, no) = &**operands;
                let t = self.operand(test, depth - 1)?;
                let a = self.operand(yes, depth - 1)?;
                let b = self.operand(no, depth - 1)?;
                fitted(*place, choice_type(t, a, b))
            }
        }
    }
}
