// The value of an expression.
ghost use Rattle.std.specs.Prelude.{◌≡◌, ◌≤◌};
ghost use Rattle.syntax.specs.Trees.{exp};
ghost use Rattle.evaluation.specs.Meaning.{meaning, value_within, levels, DependsOnNames};
ghost use Rattle.evaluation.specs.Kept.{HasMeaning};

use crate::source::Source;
use operators::operator::is_true;
use syntax::tree::{DEPTH, Expr};
use values::value::Value;

// The value of an expression down to the depth left, which bounds the recursion; evaluating cannot
// fail, so what is deeper reads as false.
#[tactic(auto, using(crate::proofs::Levels::last_level, crate::proofs::Levels::one_level_down))]
fn eval<S: Source>(e: &Expr, source: &S, depth: u8) -> Value
    ensures { result ≡ value_within depth (S.Source.samples source.now) (S.Source.values source.now)
        (S.Source.place source.now) (exp e.now) }
{
    if depth == 0 {
        return Value::Bool(false);
    }
    match e {
        Expr::Constant { value, .. } => *value,
        Expr::Channel { number, .. } => source.channel(*number),
        Expr::Stream { number, drop, .. } => source.stream(*number, *drop),
        Expr::Unary { op, operand, .. } => op.apply(eval(operand, source, depth - 1)),
        Expr::Cast { to, operand, .. } => eval(operand, source, depth - 1).cast(*to),
        Expr::Binary { op, operands, .. } => {
            let (left, right) = &**operands;
            let left = eval(left, source, depth - 1);
            let right = eval(right, source, depth - 1);
            op.apply(left, right)
        }
        Expr::Choose { operands, .. } => {
            let (test, yes, no) = &**operands;
            if is_true(eval(test, source, depth - 1)) {
                eval(yes, source, depth - 1)
            } else {
                eval(no, source, depth - 1)
            }
        }
    }
}

/// The value of an expression at the source's place. It has the expression's type, and depends on
/// nothing but what the expression names.
pub fn evaluate<S: Source>(e: &Expr, source: &S) -> Value
    ensures value { result ≡ value_within 12 (S.Source.samples source.now) (S.Source.values source.now)
        (S.Source.place source.now) (exp e.now) }
    ensures whole { levels (exp e.now) ≤ 12 →
        result ≡ meaning (S.Source.samples source.now) (S.Source.values source.now)
        (S.Source.place source.now) (exp e.now) }
    ensures typed { HasMeaning (S.Source.samples source.now) (S.Source.values source.now)
        (S.Source.place source.now) (exp e.now) result }
    ensures names { DependsOnNames (exp e.now) }
{
    eval(e, source, DEPTH)
}
