// Leads, and the lengths of rings by the leads.
ghost use Rattle.std.specs.Prelude.{◌≡◌};
ghost use Rattle.walks.specs.Edges.{Bounded};
ghost use Rattle.layout.specs.Climbs.{Low, topped};
ghost use Rattle.layout.specs.Sizes.{lead_of_height, leads_of, span, sizes};

use std::array;
use walks::edge::Edge;
use walks::graph::{Graph, NODES};

// The lead in a height.
fn lead_of_height(height: u32) -> u32
    ensures { result ≡ lead_of_height height }
{
    height / 64
}

// The leads of all nodes by their heights.
pub(crate) fn leads_of(heights: &[u32; NODES]) -> [u32; NODES]
    ensures { result ≡ leads_of heights.now }
{
    // Cheaper than `map`, which takes each height out of an iterator that lies in memory.
    array::from_fn(|node| lead_of_height(heights[node]))
}

// One edge's part in the lengths of rings: what it reads is kept until it has been read.
// Not one function with `raise`: the two formulas differ, and what they share is a greatest value.
fn widen(lengths: &mut [u32; NODES], edge: &Edge, leads: &[u32; NODES])
    // No plainer in a type: that would be a second record of edges, beside the one that definitions make of any reference.
    requires bounded { Bounded edge.now }
    requires low { Low 1000000 leads.now }
    ensures { lengths.new ≡ topped (span leads.now) lengths.old edge.now }
{
    let end = leads[edge.read] + (u32::from(edge.opening) + 1);
    let span = end.saturating_sub(leads[edge.reader] + u32::from(edge.entry.drop));
    lengths[edge.read] = lengths[edge.read].max(span);
}

// How many values each node's ring keeps.
#[tactic(auto, using(std::proofs::lemmas::List::take_all), unfolding(crate::specs::Sizes::sizes))]
pub(crate) fn ring_lengths(graph: &Graph, leads: &[u32; NODES]) -> [u32; NODES]
    // One caller makes the leads and passes them on, so a type for their bound would be no plainer.
    requires { Low 1000000 leads.now }
    ensures { result ≡ sizes graph.now.edges.now leads.now }
{
    let mut lengths = [1; NODES];
    for edge in graph.edges {
        widen(&mut lengths, edge, leads);
    }
    lengths
}
