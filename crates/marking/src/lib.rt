// Of the lower library: the set of the symbols that a pattern has.
#![tactic(auto)]

pub mod marks;
