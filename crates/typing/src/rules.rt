// Which types an operator takes, and which divisors.
ghost use Rattle.std.specs.Prelude.{◌≡◌, ◌&&◌};
ghost use Rattle.faults.specs.Causes.{by_number};
ghost use Rattle.values.specs.declared.types.«Type».TheVariants as type;
ghost use Rattle.syntax.specs.Trees.{exp};
ghost use Rattle.typing.specs.Rules.{same, where_fit, integer, unary_type, binary_type, divides, divisor, divided, place, settled};

use faults::cause::Cause;
use operators::operator::{Binary, Unary};
use syntax::tree::Expr;
use values::types::Type;

// Whether a type's values are integers.
fn integer(ty: Type) -> bool
    ensures { result ≡ integer ty }
{
    ty != Type::Bool
}

// The type of an operator with one operand, if that has a type it takes.
pub(crate) fn unary_type(op: Unary, operand: Type) -> Option<Type>
    ensures { result ≡ unary_type op operand }
{
    match op {
        Unary::Not => (operand == Type::Bool).then_some(operand),
        Unary::Negate => integer(operand).then_some(operand),
    }
}

// The type of an operator with two operands, if they have types that it takes.
pub(crate) fn binary_type(op: Binary, left: Type, right: Type) -> Option<Type>
    ensures { result ≡ binary_type op left right }
{
    if left != right {
        return None;
    }
    match op {
        Binary::Equal => Some(Type::Bool),
        Binary::And | Binary::Or => (!integer(left)).then_some(Type::Bool),
        Binary::Less | Binary::AtMost => integer(left).then_some(Type::Bool),
        _ => integer(left).then_some(left),
    }
}

// The type of a choice, if its test is a Bool and its two values have one type.
pub(crate) fn choice_type(test: Type, yes: Type, no: Type) -> Option<Type>
    ensures { result ≡ where_fit (same test type.Bool && same yes no) yes }
{
    (test == Type::Bool && yes == no).then_some(yes)
}

// The place of an expression's first byte.
pub(crate) fn place(e: &Expr) -> usize
    ensures { result ≡ place (exp e.now) }
{
    let (Expr::Constant { place, .. }
    | Expr::Channel { place, .. }
    | Expr::Stream { place, .. }
    | Expr::Unary { place, .. }
    | Expr::Cast { place, .. }
    | Expr::Binary { place, .. }
    | Expr::Choose { place, .. }) = e;
    usize::from(*place)
}

// Whether an operator divides.
fn divides(op: Binary) -> bool
    ensures { result ≡ divides op }
{
    matches!(op, Binary::Quotient | Binary::Remainder)
}

// Whether an expression is a constant other than zero.
fn divisor(e: &Expr) -> bool
    ensures { result ≡ divisor (exp e.now) }
{
    matches!(e, Expr::Constant { value, .. } if value.number() != 0)
}

// Whether an expression that divides does so by a constant other than zero.
fn divided(e: &Expr) -> bool
    ensures { result ≡ divided (exp e.now) }
{
    match e {
        Expr::Binary { op, operands, .. } => !divides(*op) || divisor(&operands.1),
        _ => true,
    }
}

// An expression's type, once its own divisor is looked at.
pub(crate) fn settled(e: &Expr, ty: Type) -> Result<Type, Cause>
    ensures { by_number result ≡ settled (exp e.now) ty }
{
    if divided(e) {
        Ok(ty)
    } else {
        Err(Cause::Divisor(place(e)))
    }
}
