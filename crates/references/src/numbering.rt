// The number of a record among all records.
ghost use Rattle.std.specs.Prelude.{◌≡◌, map};
ghost use Rattle.syntax.specs.Entries.{entry_of};
ghost use Rattle.references.specs.References.{position, TellsPlace};

use crate::reference::Id;
use syntax::record::Record;

// The number among all records of the record with an id, where there is one.
pub fn record_number(records: &[Record], id: Id) -> Option<usize>
    ensures value { result ≡ position id.kind id.number (map entry_of records.now) }
    ensures law { TellsPlace (map entry_of records.now) id result }
{
    records
        .iter()
        .enumerate()
        .filter(|(_, r)| r.is(id.kind))
        .nth(id.number)
        .map(|(i, _)| i)
}
