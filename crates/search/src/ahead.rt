// A walk to a channel that weighs more than 0.
ghost use Rattle.std.specs.Prelude.{◌≡◌, MatchOption};
ghost use Rattle.walks.specs.Walks.{Falling, Settled, TellsAhead};
ghost use Rattle.walks.specs.Edges.{graph as graph_of, told, Channel};

use crate::arrival::first_arrival;
use crate::listing::list_walk;
use crate::row::Start;
use crate::target::Target;
use walks::graph::Graph;
use walks::sheet::Sheet;

// Some exactly where a walk to a channel weighs more than 0: then such a walk of so many references, which comes to no node twice, stands in the sheet's first entries.
pub fn find_channel_walk(graph: &Graph, sheet: &mut Sheet<'_>) -> Option<usize>
    requires falls { Falling (graph_of graph.now.edges.now) }
    ensures found { MatchOption result (Settled (graph_of graph.now.edges.now) (Channel graph.now.channels) × (sheet.new.entries.now ≡ sheet.old.entries.now)) (λ k. TellsAhead (graph_of graph.now.edges.now) (Channel graph.now.channels) told sheet.old.entries.now sheet.new.entries.now k) }
    ensures same { sheet.new.entries.ghost_name ≡ sheet.old.entries.ghost_name }
{
    let start = Start::everywhere();
    let target = Target::channels(graph);
    let found = first_arrival(graph, start, target, graph.streams + 1)?;
    list_walk(graph, start, found, sheet.entries);
    Some(found.length)
}
