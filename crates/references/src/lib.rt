// The references of a table, and where a record stands in it.
#![tactic(auto)]

pub mod listing;
pub mod numbering;
pub mod reference;
