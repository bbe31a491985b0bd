// Why a call stops, which layer said so, and how many layers handed it on.
#![tactic(auto)]

pub mod cause;
pub mod fault;
pub mod stop;
pub mod upper;
