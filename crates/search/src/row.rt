// Rows: for each node the greatest lifted weight of a walk of so many edges that ends there.
ghost use Rattle.std.specs.Prelude.{◌≡◌, ◌<◌, ◌≤◌};
ghost use Rattle.std.specs.List.{AllByRecursion};
ghost use Rattle.walks.specs.Edges.{Bounded};
ghost use Rattle.walks.specs.declared.graph.TheConstants.{MOST_EDGES};
ghost use Rattle.search.specs.declared.row.TheConstants.{MOST_WEIGHT};
ghost use Rattle.search.specs.Rows.{lift, Low, Starts-prop, extended, stepped, alone, everywhere};

use walks::edge::Edge;
use walks::graph::{Graph, NODES};

// What stands in a row at most before a step.
const MOST_WEIGHT: u32 = 8192;

// By node; None where no walk ends. An array, since a search must not fail for want of memory.
// Its numbers carry no bound in their type, since a step raises the bound of a row:
// what so many edges weigh, 127 each at most once lifted, stays below the most.
pub(crate) type Row = [Option<u32>; NODES];

// What an edge weighs, and 64, so that it is never less than 0.
pub(crate) fn lift(edge: &Edge) -> u32
    // No plainer in a type: that would be a second record of edges, beside the one that definitions make of any reference.
    requires { Bounded edge.now }
    ensures { result ≡ lift edge.now }
{
    64 + u32::from(edge.entry.drop) - u32::from(edge.opening)
}

// One edge's part in a step; most often the place is no lower already, and nothing is written.
fn extend(from: &Row, to: &mut Row, edge: &Edge)
    // No plainer in a type: that would be a second record of edges, beside the one that definitions make of any reference.
    // The type of rows can't carry theirs either, since a step raises it.
    requires bounded { Bounded edge.now }
    requires low { AllByRecursion (Low MOST_WEIGHT) from.now }
    ensures { to.new ≡ extended from.now to.old edge.now }
{
    if let Some(weight) = from[edge.reader] {
        let reached = weight + lift(edge);
        if let Some(there) = to[edge.read] {
            if there >= reached {
                return;
            }
        }
        to[edge.read] = Some(reached);
    }
}

// The row of the walks that have one edge more.
pub(crate) fn step(graph: &Graph, from: &Row) -> Row
    // A step raises the bound, so its result would not have it.
    requires { AllByRecursion (Low MOST_WEIGHT) from.now }
    ensures { result ≡ stepped graph.now.edges.now from.now }
{
    let mut to = [None; NODES];
    for edge in graph.edges {
        extend(from, &mut to, edge);
    }
    to
}

// The row of walks with no edge: 0 at each node where a search begins.
#[derive(Clone, Copy)]
pub(crate) struct Start {
    pub(crate) row: Row,
    pub(crate) ghost low: { AllByRecursion (Low 0) row } by { Starts-prop row },
}

impl Start {
    // A search that begins at every node.
    pub(crate) fn everywhere() -> Start
        ensures { result.row ≡ everywhere }
    {
        Start {
            row: [Some(0); NODES],
        }
    }

    // A search that begins at one node.
    pub(crate) fn at(node: usize) -> Start
        requires { node < 64 }
        ensures { result.row ≡ alone node }
    {
        let mut row = [None; NODES];
        row[node] = Some(0);
        Start { row }
    }
}

// Where a walk of so many edges ends: a node that stands in the row of its length.
#[derive(Clone, Copy)]
pub(crate) struct Arrival {
    pub(crate) node: usize,
    pub(crate) length: usize,
    pub(crate) ghost within: { node < 64 },
    pub(crate) ghost short: { length ≤ MOST_EDGES },
}
