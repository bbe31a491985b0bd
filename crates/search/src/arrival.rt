// The walk of the fewest edges that arrives at a target, by the rows.
ghost use Rattle.std.specs.Prelude.{◌≡◌, ◌+◌, ◌≤◌, MatchOption};
ghost use Rattle.search.specs.Rows.{reaches};
ghost use Rattle.walks.specs.declared.graph.TheConstants.{MOST_EDGES};
ghost use Rattle.search.specs.Arrivals.{aim, Unreached, Reached, Missed, First};

use crate::row::{Arrival, Row, Start, step};
use crate::target::Target;
use walks::graph::Graph;

// Whether a weight comes up to `least`.
fn reaches(weight: Option<u32>, least: usize) -> bool
    ensures { result ≡ reaches weight least }
{
    weight.is_some_and(|weight| least <= weight as usize)
}

// The first node of the target's whose place in the row comes up to `least`.
fn find_node(row: &Row, target: &Target, least: usize) -> Option<usize>
    ensures { MatchOption result (Unreached row.now target.now.first target.now.end least) (Reached row.now target.now.first target.now.end least) }
{
    (target.first..target.end).find(|node| reaches(row[*node], least))
}

// The first arrival at the target by a walk of 1 to `limit` edges that begins as `start` says.
pub(crate) fn first_arrival(
    graph: &Graph,
    start: Start,
    target: Target,
    limit: usize,
) -> Option<Arrival>
    requires { limit ≤ MOST_EDGES }
    ensures { MatchOption result (Missed graph.now.edges.now start.row (aim target) limit) (First graph.now.edges.now start.row (aim target) limit) }
{
    let mut row = start.row;
    // The length is no index: what a walk must weigh depends on it.
    for length in 1..=limit {
        row = step(graph, &row);
        let least = 64 * length + target.over;
        if let Some(node) = find_node(&row, &target, least) {
            return Some(Arrival { node, length });
        }
    }
    None
}
