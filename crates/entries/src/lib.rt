// The search's listing, in specs/; and the records of one window, written at their place in it.
#![tactic(auto)]

pub mod entries;
pub mod offsets;
