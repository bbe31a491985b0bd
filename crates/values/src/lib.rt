// Types and values, their numbers, and values as bytes and as 64-bit words.
#![tactic(auto)]

pub mod bytes;
pub mod types;
pub mod value;
