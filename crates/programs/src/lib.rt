// What the programs share: how they read their input, tell of it, and end.
#![tactic(auto)]

pub mod exit;
pub mod input;
mod output;
#[cfg(test)]
mod tests;
pub mod vectors;
