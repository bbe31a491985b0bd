// A table of streams and rules: its records and expressions, and reading them from bytes.
#![tactic(auto)]

mod body;
mod codes;
mod expression;
mod fields;
mod head;
mod part;
pub mod reader;
pub mod record;
pub mod table;
pub mod tree;
