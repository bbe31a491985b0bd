// The schedule of a table: its references as edges, and the plan of its values in memory or why there is none.
#![tactic(auto)]

mod edges;
mod nodes;
mod numbering;
pub mod ordered;
pub mod plan;
mod walking;
