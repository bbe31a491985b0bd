// Records that are in order.
ghost use Rattle.std.specs.Prelude.{map};
ghost use Rattle.syntax.specs.Entries.{entry_of};
ghost use Rattle.schedule.specs.Edges.{Orderly, Orderly-prop};

use syntax::record::Record;

// The records of a table, of which no kind has too many and each reference stands between two.
// No model of it: contracts speak of `map entry_of records.now` of plain slices of records too, and a model would make two phrases of one.
#[derive(Clone, Copy)]
pub struct OrderedRecords<'a> {
    pub records: &'a [Record],
    pub ghost orderly: { Orderly (map entry_of records.now) } by { Orderly-prop (map entry_of records.now) },
}
