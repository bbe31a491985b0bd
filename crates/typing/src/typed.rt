// Whether a table's bodies, guards and arguments have the types that they should.
ghost use Rattle.std.specs.Prelude.{◌≡◌, Ok, map};
ghost use Rattle.faults.specs.Causes.{by_number};
ghost use Rattle.syntax.specs.Entries.{entry_of};
ghost use Rattle.syntax.specs.Trees.{exp};
ghost use Rattle.typing.specs.Judging.{fits, judged, entry_judged, types_in, Typed};
ghost use Rattle.typing.specs.WellTyped.{AllTyped, AllDivideByConstants};

use crate::rules::{place, settled};
use crate::scope::Scope;
use faults::cause::Cause;
use faults::stop::Stop;
use std::alloc::Global;
use syntax::record::Record;
use syntax::tree::{DEPTH, Expr};
use values::types::Type;

// Whether a type is the one that is wanted, if any is.
fn fits(want: Option<Type>, ty: Type) -> bool
    ensures { result ≡ fits want ty }
{
    want.is_none_or(|wanted| wanted == ty)
}

impl Scope {
    // Judges a whole expression: what is in it, the type that is wanted, and then its own divisor.
    fn judge(&self, e: &Expr, want: Option<Type>) -> Result<(), Cause>
        ensures { let cs = self.now.channels.items in
            let ss = self.now.streams.items in
            by_number result ≡ judged cs ss want (exp e.now) }
    {
        let ty = self.shape(e, DEPTH)?;
        if !fits(want, ty) {
            return Err(Cause::Mistyped(place(e)));
        }
        settled(e, ty)?;
        Ok(())
    }

    // Judges a record: a body has its stream's type, a guard is a Bool, and arguments may have any type.
    fn judge_record(&self, r: &Record) -> Result<(), Cause>
        ensures { let cs = self.now.channels.items in
            let ss = self.now.streams.items in
            by_number result ≡ entry_judged cs ss (entry_of r.now) }
    {
        match r {
            Record::Channel(_) => Ok(()),
            Record::Stream(stream) => self.judge(&stream.body, Some(stream.ty)),
            Record::Rule(rule) => {
                self.judge(&rule.guard, Some(Type::Bool))?;
                rule.arguments.iter().try_for_each(|e| self.judge(e, None))
            }
        }
    }
}

/// Checks the types and the divisors of a table's expressions, record by record.
///
/// # Errors
///
/// The first type or divisor that does not fit, with the byte where it starts; or want of memory,
/// which comes only where there is a channel or a stream.
pub fn check_types(alloc: Global, records: &[Record]) -> Result<(), Stop>
    ensures answer { Typed result (map entry_of records.now) }
    ensures typed { let rs = map entry_of records.now in
        types_in rs ≡ Ok tt → AllTyped rs }
    ensures divisors { let rs = map entry_of records.now in
        types_in rs ≡ Ok tt → AllDivideByConstants rs }
{
    let scope = Scope::new(alloc, records)?;
    records.iter().try_for_each(|r| scope.judge_record(r))?;
    Ok(())
}
