// By what the search, Count and List are refused before they begin.
#![tactic(auto)]

pub mod rooms;
