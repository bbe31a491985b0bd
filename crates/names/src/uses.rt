// What expressions name, in reading order.
ghost use Rattle.std.specs.Prelude.{List, [], ◌∷◌, ◌++◌, Result, Ok, Err};
ghost use Rattle.syntax.specs.Entries.{entry_of};
ghost use Rattle.syntax.specs.Trees.{exp};
ghost use Rattle.names.specs.Uses.{Use, uses, uses_of};

use syntax::record::Record;
use syntax::tree::Expr;

// What an expression can name.
#[derive(Clone, Copy, Debug, PartialEq, Eq)]
pub enum Name {
    Channel(u8),
    // A stream, and how many indexes ahead.
    Stream(u8, u8),
}

// What is done with each name, until one is refused.
pub trait Visitor {
    type Error;

    // what visiting these names in order may come to, from one state to the next
    ghost visits: { Self → List Use → Result (Unit {0}) Self.Error → Self → Type 0 };

    // a name, and the place of its number's byte
    fn visit(&mut self, place: usize, name: Name) -> Result<(), Self::Error>
        ensures { visits self.old (record { place = place; name = name } ∷ []) result self.new };

    // laws: no names, names after others that went well, and names after a refusal
    ghost none: { (s : Self) → visits s [] (Ok tt) s };

    ghost more: { (s m t : Self) (us vs : List Use) (r : Result (Unit {0}) Self.Error) → visits s us (Ok tt) m → visits m vs r t → visits s (us ++ vs) r t };

    ghost stops: { (s t : Self) (us vs : List Use) (e : Self.Error) → visits s us (Err e) t → visits s (us ++ vs) (Err e) t };
}

// Visits what an expression names, in reading order; a branch that is never chosen counts too.
fn visit_expression<V: Visitor>(e: &Expr, visitor: &mut V) -> Result<(), V::Error>
    ensures { V.visits visitor.old (uses (exp e.now)) result visitor.new }
{
    match e {
        Expr::Constant { .. } => Ok(()),
        Expr::Channel { place, number } => {
            visitor.visit(usize::from(*place) + 1, Name::Channel(*number))
        }
        Expr::Stream {
            place,
            number,
            drop,
        } => visitor.visit(usize::from(*place) + 1, Name::Stream(*number, *drop)),
        Expr::Unary { operand, .. } | Expr::Cast { operand, .. } => {
            visit_expression(operand, visitor)
        }
        Expr::Binary { operands, .. } => {
            let (left, right) = &**operands;
            visit_expression(left, visitor)?;
            visit_expression(right, visitor)
        }
        Expr::Choose { operands, .. } => {
            let (test, yes, no) = &**operands;
            visit_expression(test, visitor)?;
            visit_expression(yes, visitor)?;
            visit_expression(no, visitor)
        }
    }
}

// The same of a record: a stream's body, a rule's guard and then its arguments.
pub fn visit_record<V: Visitor>(r: &Record, visitor: &mut V) -> Result<(), V::Error>
    ensures { V.visits visitor.old (uses_of (entry_of r.now)) result visitor.new }
{
    match r {
        Record::Channel(_) => Ok(()),
        Record::Stream(stream) => visit_expression(&stream.body, visitor),
        Record::Rule(rule) => {
            visit_expression(&rule.guard, visitor)?;
            // A `for`: after `try_for_each` a proof does not know what its closure did to the visitor.
            for e in &rule.arguments {
                visit_expression(e, visitor)?;
            }
            Ok(())
        }
    }
}
