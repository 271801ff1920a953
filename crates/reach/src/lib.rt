// How far one window of a strip agrees with a pattern, row by row.
#![tactic(auto)]

pub mod reach;
