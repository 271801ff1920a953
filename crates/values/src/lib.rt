// Answers as numbers, for Rust and C: what an enum or a struct of the operations is in numbers and arrays, and back.
#![tactic(auto)]

pub mod bijections;
pub mod compare;
pub mod symbols;
