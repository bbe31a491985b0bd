// References as the edges of a graph, and the entries by which a walk over them is told.
#![tactic(auto)]

pub mod edge;
pub mod graph;
pub mod sheet;
