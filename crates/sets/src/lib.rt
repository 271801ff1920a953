// Of the lower library: sets of symbols.
#![tactic(auto)]

pub mod symbols;
