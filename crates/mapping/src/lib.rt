// Bijections between symbols.
#![tactic(auto)]

pub mod bijections;
