// Traces: rows written down before, and a sampler that gives them again.
#![tactic(auto)]

mod opening;
mod reading;
#[cfg(test)]
mod tests;
pub mod trace;
