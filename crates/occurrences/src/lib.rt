// Of the lower library: how often each symbol occurs, and how many different ones do.
// What stands above relies on the contracts here and on the laws of specs/, never on how a function does it.
#![tactic(auto)]

pub mod occurrences;
