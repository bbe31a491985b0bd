// What edges tell of the nodes of a table.
ghost use Rattle.std.specs.Prelude.{◌≡◌, map, Some};
ghost use Rattle.syntax.specs.Entries.{entry_of};
ghost use Rattle.schedule.specs.Graphs.{opening_count};
ghost use Rattle.syntax.specs.Counting.{counts_of};
ghost use Rattle.schedule.specs.Edges.{described, id_at, Describes};

use crate::numbering::Numbering;
use crate::ordered::OrderedRecords;
use references::numbering::record_number;
use references::reference::Id;
use std::array;
use syntax::record::Record;
use walks::graph::NODES;

// What an edge tells of a record at either end.
#[derive(Clone, Copy, Default)]
pub(crate) struct Node {
    // Its number among all records, of which there are at most 64.
    pub(crate) number: u8,
    // How many opening values it has.
    pub(crate) opening: u8,
}

// The nodes of a table: how they are numbered, and what an edge tells of each, looked up once.
// An array by node: every node has its place from the start, and none is added.
#[derive(Clone, Copy)]
pub(crate) struct Nodes {
    pub(crate) numbering: Numbering,
    pub(crate) told: [Node; NODES],
}

// How many opening values a record has.
fn openings_of(r: &Record) -> usize
    ensures { result ≡ opening_count (Some (entry_of r.now)) }
{
    match r {
        Record::Stream(stream) => stream.opening.len(),
        Record::Channel(_) | Record::Rule(_) => 0,
    }
}

// What an edge tells of the record with an id.
fn describe(ordered: &OrderedRecords<'_>, id: Id) -> Node
    ensures { result ≡ described (map entry_of ordered.now.records.now) id }
{
    match record_number(ordered.records, id) {
        Some(number) => Node {
            number: number as u8,
            opening: openings_of(&ordered.records[number]) as u8,
        },
        // The definition gives 0 of both to what names no record.
        None => Node::default(),
    }
}

// What an edge tells of the record of a node, where there is one.
fn describe_node(ordered: &OrderedRecords<'_>, numbering: &Numbering, node: usize) -> Node
    // A numbering doesn't hold the records that it was made of, so its type can't say so.
    requires { numbering.now.counts ≡ counts_of (map entry_of ordered.now.records.now) }
    ensures { result
        ≡ described (map entry_of ordered.now.records.now)
        (id_at (map entry_of ordered.now.records.now) node) }
{
    // The nodes from here on have no record: most of them, in a small table, so none is looked for.
    if node < ordered.records.len() {
        describe(ordered, numbering.id(node))
    } else {
        Node::default()
    }
}

impl Nodes {
    // The nodes of a table.
    pub(crate) fn new(ordered: &OrderedRecords<'_>) -> Nodes
        ensures { Describes (map entry_of ordered.now.records.now) result }
    {
        let numbering = Numbering::of(ordered);
        Nodes {
            numbering,
            told: array::from_fn(|node| describe_node(ordered, &numbering, node)),
        }
    }
}
