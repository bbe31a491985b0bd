// The operators of expressions, on values.
#![tactic(auto)]

mod arithmetic;
pub mod edges;
pub mod operator;
