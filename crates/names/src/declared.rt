// Whether each channel and stream that a table names is declared.
ghost use Rattle.std.specs.Prelude.{◌≡◌, map};
ghost use Rattle.faults.specs.Causes.{by_number};
ghost use Rattle.syntax.specs.Entries.{entry_of};
ghost use Rattle.names.specs.Declaring.{undeclared, undeclared_in};

use crate::uses::{Name, Visitor, visit_record};
use faults::cause::Cause;
use syntax::record::{Counts, Record};

// Refuses a name that is not declared.
#[derive(Drop)]
struct Check {
    declared: Counts,
}

impl Visitor for Check {
    ghost use Rattle.std.proofs.Common.{rules};
    ghost use Rattle.syntax.proofs.Passing.{every_append};

    type Error = Cause;

    // the first that is not declared is refused
    ghost visits = { λ s us r t.
        (s ≡ t) × (by_number r ≡ undeclared s.declared.channels s.declared.streams us) };

    ghost none = { Prim.search rules };

    ghost more = { Prim.search (rules, every_append) };

    ghost stops = { Prim.search (rules, every_append) };

    fn visit(&mut self, place: usize, name: Name) -> Result<(), Cause> {
        match name {
            Name::Channel(number) if usize::from(number) < self.declared.channels => Ok(()),
            Name::Stream(number, _) if usize::from(number) < self.declared.streams => Ok(()),
            _ => Err(Cause::Undeclared(place)),
        }
    }
}

/// Checks that every channel and stream that a table names is declared in it.
///
/// # Errors
///
/// The first name, in reading order, that is not declared, with the byte of its number.
pub fn check_names(records: &[Record]) -> Result<(), Cause>
    ensures { by_number result ≡ undeclared_in (map entry_of records.now) }
{
    let declared = Counts::of(records);
    records
        .iter()
        .try_for_each(|r| visit_record(r, &mut Check { declared }))
}
