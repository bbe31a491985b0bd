// Leads, ring lengths and an order of evaluation, where there are any.
ghost use Rattle.std.specs.Option.{MatchOption};
ghost use Rattle.walks.specs.Walks.{Falling};
ghost use Rattle.walks.specs.Edges.{graph as graph_of};
ghost use Rattle.layout.specs.Layouts.{Laid};

use crate::heights::resting_heights;
use crate::order::evaluation_order;
use crate::rings::{leads_of, ring_lengths};
use lists::list::List;
use walks::graph::{Graph, NODES, STREAMS};

// How values are laid out: for each node its lead and its ring's length, and the streams in an order of evaluation.
// Arrays and a list in place, since a layout must not fail for want of memory; two arrays, since all leads are known before any length.
#[derive(Clone, Copy)]
pub struct Layout {
    // For each node the greatest weight of any walk that ends there.
    pub leads: [u32; NODES],
    // For each node the length of its ring.
    pub lengths: [u32; NODES],
    // The streams by number: what is read at its newest index comes before its reader.
    pub order: List<usize, STREAMS>,
}

// The layout of the nodes; none where a closed walk weighs 0 or more.
#[tactic(auto, using(crate::proofs::Resting::leads_low, crate::proofs::Climbs::at_rest))]
pub fn lay_out(graph: &Graph) -> Option<Layout>
    ensures { MatchOption result (Falling (graph_of graph.now.edges.now) → ⊥) (λ l. Laid graph.now.channels graph.now.streams graph.now.edges.now l) }
{
    let heights = resting_heights(graph)?;
    let leads = leads_of(&heights);
    let lengths = ring_lengths(graph, &leads);
    let order = List::from(&evaluation_order(graph, &heights));
    Some(Layout {
        leads,
        lengths,
        order,
    })
}
