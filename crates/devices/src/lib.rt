// Devices written over the interfaces alone: a sampler that counts refused latches, and a sink over two others.
#![tactic(auto)]

pub mod poller;
pub mod relay;
#[cfg(test)]
mod tests;
