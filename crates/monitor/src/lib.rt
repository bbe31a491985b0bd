// A monitor of a table: its states, a type each, and the calls of a day.
#![tactic(auto)]

pub mod counts;
pub mod judged;
mod progress;
pub mod ready;
mod row;
pub mod sampled;
pub mod states;
mod steps;
#[cfg(test)]
mod tests;
