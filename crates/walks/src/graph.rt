// Edges between so many channels and streams.
ghost use Rattle.walks.specs.Edges.{Fits, Fits-prop};

use crate::edge::Edge;

// How many channels, streams and rules the largest graph has. A table's limits (`Kind::limit`) are the same numbers: neither
// this crate nor that of records uses the other, and one would have to for three numbers.
pub const CHANNELS: usize = 16;

pub const STREAMS: usize = 32;

pub const RULES: usize = 16;

// How many rings: one for each channel and each stream.
pub const RINGS: usize = CHANNELS + STREAMS;

// How many edges a walk has at most that comes to no node twice: one from each stream and one from a rule.
pub const MOST_EDGES: usize = STREAMS + 1;

// How many nodes.
pub const NODES: usize = RINGS + RULES;

// The references of a table as the edges of a graph. No channel reads, no rule is read, and there are at most 16 channels and 32 streams.
#[derive(Clone, Copy)]
pub struct Graph<'a> {
    pub channels: usize,
    pub streams: usize,
    pub edges: &'a [Edge],
    pub ghost fits: { Fits channels streams edges.now } by { Fits-prop channels streams edges.now },
}
