// Heights: for each node the greatest steep weight of any walk that ends there, where there is one.
ghost use Rattle.std.specs.Prelude.{◌≡◌, ℕ, ◌≤◌, List, [], slice_index_or};
ghost use Rattle.std.specs.List.{AllByRecursion};
ghost use Rattle.walks.specs.declared.edge.Edge.{Edge};
ghost use Rattle.walks.specs.Edges.{Bounded};
ghost use Rattle.layout.specs.Climbs.{Low, height_over, topped, climbed, heights, Rests, slopes, Raised};

use walks::edge::Edge;
use walks::graph::{Graph, NODES};

// A walk that comes nowhere twice has at most 33 edges, so one climb more tells.
const MOST_CLIMBS: u32 = 34;

// From so many edges on the rows cost less than the climbs that they stand for.
const MANY_EDGES: usize = 512;

// No height is above it, and no edge falls from it to 0, so 0 can stand for no edge.
const BASE: u32 = 900_000;

// One edge's part in a climb: what it reads lies at least its steep weight above its reader.
fn raise(from: &[u32; NODES], to: &mut [u32; NODES], edge: &Edge)
    // No plainer in a type: that would be a second record of edges, beside the one that definitions make of any reference.
    // The type of heights can't carry their bound either, since a climb raises it.
    requires bounded { Bounded edge.now }
    requires low { (Low 1000000 from.now) × (Low 1000000 to.old) }
    ensures { to.new ≡ topped (height_over from.now) to.old edge.now }
{
    let ahead = from[edge.reader] + (64 * u32::from(edge.entry.drop) + 1);
    let back = 64 * u32::from(edge.opening);
    // Most edges raise nothing: a test is cheaper than a greatest value.
    if to[edge.read] + back < ahead {
        to[edge.read] = ahead - back;
    }
}

// The heights after one more climb along every edge.
#[tactic(auto, using(std::proofs::lemmas::List::take_all), unfolding(crate::specs::Climbs::climbed))]
fn climb(graph: &Graph, from: &[u32; NODES]) -> [u32; NODES]
    // A climb raises the bound, so its result would not have it.
    requires { Low 900000 from.now }
    ensures { result ≡ climbed graph.now.edges.now from.now }
{
    let mut to = *from;
    for edge in graph.edges {
        raise(from, &mut to, edge);
    }
    to
}

// For each two nodes how high the edges of the first to the second reach from BASE; 0 where there are none.
#[tactic(auto, using(std::proofs::lemmas::List::take_all), unfolding(crate::specs::Climbs::slopes))]
fn slopes(graph: &Graph) -> [[u32; NODES]; NODES]
    ensures { result ≡ slopes graph.now.edges.now }
{
    let base = [BASE; NODES];
    let mut rows = [[0; NODES]; NODES];
    for edge in graph.edges {
        raise(&base, &mut rows[edge.reader], edge);
    }
    rows
}

// The part in a climb of all edges of one node, by its row and its height.
fn raise_all(to: &mut [u32; NODES], row: &[u32; NODES], height: u32)
    // Rows are made once and passed on, so a type for their bound would be no plainer; a height's bound is as in `climb`.
    requires low { (height ≤ 900000) × (Low 1000000 row.now) }
    ensures { Raised height row.now to.old to.new }
{
    // With its place, since `iter_mut` under `zip` leaves a proof no entry.
    for (read, reach) in row.iter().enumerate() {
        to[read] = to[read].max((height + reach).saturating_sub(BASE));
    }
}

// The heights after one more climb, by the rows. An edge raises nothing where the climb before left its reader as it was.
#[tactic(auto, using(crate::proofs::Slopes::climbing_all))]
fn climb_on(
    rows: &[[u32; NODES]; NODES],
    before: &[u32; NODES],
    from: &[u32; NODES],
) -> [u32; NODES]
    // As in `climb` and `raise_all`.
    requires low { (Low 900000 from.now) × ((r : ℕ) → Low 1000000 (slice_index_or rows.now r [])) }
    ensures { (es : List Edge) → AllByRecursion Bounded es → rows.now ≡ slopes es → from.now ≡ climbed es before.now → result ≡ climbed es from.now }
{
    let mut to = *from;
    // By number: a zip of the rows and both heights would be no plainer.
    for (reader, row) in rows.iter().enumerate() {
        if from[reader] != before[reader] {
            raise_all(&mut to, row, from[reader]);
        }
    }
    to
}

// Heights that a climb leaves as they are, each climb along every edge; none where even the last changes them.
#[tactic(auto, unfolding(crate::specs::Climbs::heights))]
fn rest_by_edges(graph: &Graph) -> Option<[u32; NODES]>
    ensures { Rests graph.now.edges.now result }
{
    let mut row = [0; NODES];
    for _ in 0..MOST_CLIMBS {
        let next = climb(graph, &row);
        if next == row {
            return Some(row);
        }
        row = next;
    }
    None
}

// The same by rows, from the third climb on: they cost as much as a climb, and most graphs are at rest before.
#[tactic(auto, unfolding(crate::specs::Climbs::heights))]
fn rest_by_rows(graph: &Graph) -> Option<[u32; NODES]>
    ensures { Rests graph.now.edges.now result }
{
    let zeros = [0; NODES];
    let mut before = climb(graph, &zeros);
    if before == zeros {
        return Some(before);
    }
    let mut row = climb(graph, &before);
    if row == before {
        return Some(row);
    }
    let rows = slopes(graph);
    for _ in 2..MOST_CLIMBS {
        let next = climb_on(&rows, &before, &row);
        if next == row {
            return Some(row);
        }
        before = row;
        row = next;
    }
    None
}

// Heights that a climb leaves as they are; none where even the last climb changes them.
pub(crate) fn resting_heights(graph: &Graph) -> Option<[u32; NODES]>
    ensures { Rests graph.now.edges.now result }
{
    if graph.edges.len() < MANY_EDGES {
        rest_by_edges(graph)
    } else {
        rest_by_rows(graph)
    }
}
