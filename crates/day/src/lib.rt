// A day: the calls of a monitor that a host asks for, over any sampler and any sink.
#![tactic(auto)]

pub mod calls;
pub mod day;
pub mod host;
pub mod states;
#[cfg(test)]
mod tests;
