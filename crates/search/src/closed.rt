// A closed walk that weighs 0 or more.
ghost use Rattle.std.specs.Prelude.{◌≡◌, MatchOption};
ghost use Rattle.walks.specs.Walks.{Falling, TellsClosed};
ghost use Rattle.walks.specs.Edges.{graph as graph_of, told};
ghost use Rattle.search.specs.Arrivals.{Unclosed, Fewest};

use crate::arrival::first_arrival;
use crate::listing::list_walk;
use crate::row::{Arrival, Start};
use crate::target::Target;
use walks::graph::Graph;
use walks::sheet::Sheet;

// The arrival of a closed walk of the fewest edges that weighs 0 or more, from any stream.
fn least_closed(graph: &Graph) -> Option<Arrival>
    ensures { MatchOption result (Unclosed graph.now.edges.now graph.now.channels graph.now.streams graph.now.streams) (Fewest graph.now.edges.now graph.now.channels graph.now.streams) }
{
    let mut best = None;
    let mut limit = graph.streams;
    let end = graph.channels + graph.streams;
    // By number, since a search begins at a node and not at what stands there.
    for node in graph.channels..end {
        // What passes through an earlier stream was met there, so only those left count.
        let most = limit.min(end - node);
        if let Some(arrival) = first_arrival(graph, Start::at(node), Target::node(node), most) {
            best = Some(arrival);
            limit = arrival.length - 1;
        }
    }
    best
}

// Some exactly where a closed walk weighs 0 or more: then such a walk of so many references, which comes to no node twice, stands in the sheet's first entries.
pub fn find_closed_walk(graph: &Graph, sheet: &mut Sheet<'_>) -> Option<usize>
    ensures found { MatchOption result (Falling (graph_of graph.now.edges.now) × (sheet.new.entries.now ≡ sheet.old.entries.now)) (λ k. TellsClosed (graph_of graph.now.edges.now) told sheet.old.entries.now sheet.new.entries.now k) }
    ensures same { sheet.new.entries.ghost_name ≡ sheet.old.entries.ghost_name }
{
    let found = least_closed(graph)?;
    list_walk(graph, Start::at(found.node), found, sheet.entries);
    Some(found.length)
}
