// Of the lower library: the number of different symbols in each window.
// What stands above relies on the contracts here and on the laws of specs/, never on how a function does it.
#![tactic(auto)]

pub mod counts;
