// Samplers: what a lane's contacts read, a row a latch; a panel that a host sets, and a hold over any sampler.
#![tactic(auto)]

pub mod channel;
pub mod hold;
pub mod panel;
pub mod row;
pub mod sampler;
#[cfg(test)]
mod tests;
pub mod watch;
