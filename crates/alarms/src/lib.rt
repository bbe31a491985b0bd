// Alarms, and the sinks that take them: a ledger, a bell, and a quota over any sink.
#![tactic(auto)]

pub mod alarm;
pub mod bell;
pub mod ledger;
pub mod offer;
pub mod quota;
pub mod sink;
pub mod tally;
#[cfg(test)]
mod tests;
