// The value of an expression, over any source of samples and values.
#![tactic(auto)]

pub mod evaluate;
pub mod source;
#[cfg(test)]
mod tests;
