// What expressions name, and whether it is declared.
#![tactic(auto)]

pub mod declared;
pub mod uses;
