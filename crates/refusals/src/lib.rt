// Of the lower library: the refusals, their numbers, and the order in which an operation asks.
// What stands above relies on the contracts here and on the laws of specs/, never on how a function does it.
#![tactic(auto)]

pub mod refusals;
