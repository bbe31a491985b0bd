// The search for a walk to blame: a closed walk that weighs 0 or more, or a walk to a channel that weighs more than 0.
#![tactic(auto)]

pub mod ahead;
mod arrival;
pub mod closed;
mod listing;
mod row;
mod target;
