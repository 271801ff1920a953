// What the search and the check return to Rust and C.
#![tactic(auto)]

pub mod checking;
mod refused;
pub mod searching;
