// The layout of a table's values: leads, ring lengths and an order of evaluation.
#![tactic(auto)]

mod heights;
pub mod layout;
mod order;
mod rings;
