// A walk read off the rows from its end, and listed in the sheet.
ghost use Rattle.std.specs.Prelude.{◌≡◌, ◌<◌, ◌≤◌, true, length, None, find, slice_index_or};
ghost use Rattle.std.specs.List.{AllByRecursion};
ghost use Rattle.std.specs.Option.{option_copied};
ghost use Rattle.walks.specs.Edges.{Bounded};
ghost use Rattle.search.specs.declared.row.TheConstants.{MOST_WEIGHT};
ghost use Rattle.search.specs.Rows.{Low, layer, into, reaches};
ghost use Rattle.search.specs.Listings.{Layers, Listed};

use crate::row::{Arrival, Row, Start, lift, step};
use walks::edge::{Edge, SheetEntry};
use walks::graph::{Graph, MOST_EDGES};

// How many rows there are at most: of walks of 0 edges, and of each length up to the most.
const ROWS: usize = MOST_EDGES + 1;

// The rows of walks of 0 edges to as many as the arrival's.
fn layers(graph: &Graph, start: Start, arrival: Arrival) -> [Row; ROWS]
    ensures { Layers graph.now.edges.now start.row arrival.length result }
{
    let mut row = start.row;
    let mut rows = [row; ROWS];
    for next in &mut rows[1..=arrival.length] {
        row = step(graph, &row);
        *next = row;
    }
    rows
}

// Whether an edge leads from the row to the weight `left` at `node`.
fn leads_into(from: &Row, edge: &Edge, node: usize, left: u32) -> bool
    // No plainer in a type: that would be a second record of edges, beside the one that definitions make of any reference.
    // The type of rows can't carry theirs either, since a step raises it.
    requires bounded { Bounded edge.now }
    requires low { AllByRecursion (Low MOST_WEIGHT) from.now }
    ensures { result ≡ into from.now node left edge.now }
{
    edge.read == node && from[edge.reader].is_some_and(|weight| weight + lift(edge) == left)
}

// The first edge that leads from the row to the weight `left` at `node`.
fn find_into<'a>(graph: &'a Graph, from: &Row, node: usize, left: u32) -> Option<&'a Edge>
    // A step raises the bound, so its result would not have it.
    requires { AllByRecursion (Low MOST_WEIGHT) from.now }
    ensures { option_copied result ≡ find (into from.now node left) graph.now.edges.now }
{
    graph
        .edges
        .iter()
        .find(|edge| leads_into(from, edge, node, left))
}

// Lists a heaviest walk of the arrival's length to its node.
pub(crate) fn list_walk(graph: &Graph, start: Start, arrival: Arrival, sheet: &mut [SheetEntry])
    requires space { arrival.length ≤ length sheet.old }
    requires reached { reaches (slice_index_or (layer graph.now.edges.now start.row arrival.length) arrival.node None) 0 ≡ true }
    ensures { Listed graph.now.edges.now start.row arrival sheet.old sheet.new }
{
    let rows = layers(graph, start, arrival);
    let mut node = arrival.node;
    let mut left = rows[arrival.length][node].unwrap();
    // By number, since `iter_mut` under `rev` or `zip` leaves a proof the sheet's length alone, and only plain or under `enumerate` its entries.
    for k in (0..arrival.length).rev() {
        let edge = find_into(graph, &rows[k], node, left).unwrap();
        sheet[k] = edge.entry;
        node = edge.reader;
        left -= lift(edge);
    }
}
