// The types of a table's expressions, and the first that does not fit.
#![tactic(auto)]

mod expression;
mod rules;
mod scope;
pub mod typed;
