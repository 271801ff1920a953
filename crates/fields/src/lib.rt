// Records as numbers, for Rust and C.
#![tactic(auto)]

pub mod reader;
