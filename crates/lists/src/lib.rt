// Lists of fixed room that can be copied.
#![tactic(auto)]

pub mod list;
mod methods;
