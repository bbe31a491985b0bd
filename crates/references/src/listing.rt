// The references of a table, in reading order.
ghost use Rattle.std.specs.Prelude.{◌≡◌, ◌<◌, [], ◌++◌, map, length, MatchResult};
ghost use Rattle.syntax.specs.Entries.{entry_of};
ghost use Rattle.references.specs.References.{refer, references};

use crate::reference::{Id, Reference};
use names::uses::{Name, Visitor, visit_record};
use std::alloc::{AllocError, Global};
use syntax::record::{Kind, Record, count};

// Adds a reference for each name, with the record that reads it.
#[derive(Drop)]
struct Listing<'a> {
    found: &'a mut Vec<Reference>,
    reader: Id,
}

impl<'a> Visitor for Listing<'a> {
    ghost use Rattle.std.proofs.Common.{rules};
    ghost use Rattle.std.proofs.lemmas.Grind.{common_steps};

    type Error = AllocError;

    // a reference more for each name, in the same list; memory fails only where there is a name
    ghost visits = { λ s us r t. MatchResult r
        (λ _. (t.reader ≡ s.reader) × (t.found.ghost_name ≡ s.found.ghost_name)
        × (t.found.now.items ≡ s.found.now.items ++ map (refer s.reader) us))
        (λ _. 0 < length us) };

    ghost none = { Prim.search rules };

    ghost more = { Prim.search (rules, common_steps) };

    ghost stops = { Prim.search (rules, common_steps) };

    fn visit(&mut self, _place: usize, name: Name) -> Result<(), AllocError> {
        let (kind, number, drop) = match name {
            Name::Channel(number) => (Kind::Channel, number, 0),
            Name::Stream(number, drop) => (Kind::Stream, number, drop),
        };
        let number = usize::from(number);
        self.found.push(Reference {
            reader: self.reader,
            read: Id { kind, number },
            drop,
        })?;
        Ok(())
    }
}

/// Every channel and stream that is named in a body, guard or argument, with the record that names
/// it, in reading order.
///
/// # Errors
///
/// Want of memory, which comes only where something is named.
pub fn list_references(alloc: Global, records: &[Record]) -> Result<Vec<Reference>, AllocError>
    ensures { let all = references [] (map entry_of records.now) in
        MatchResult result (λ v. v.items ≡ all) (λ _. 0 < length all) }
{
    let mut found = Vec::new(alloc);
    // With its place, since a record's number is the count of its kind before it.
    for (i, r) in records.iter().enumerate() {
        let kind = r.kind();
        let number = count(&records[..i], kind);
        let mut listing = Listing {
            found: &mut found,
            reader: Id { kind, number },
        };
        visit_record(r, &mut listing)?;
    }
    Ok(found)
}
