// A part of a row of a window against a pattern, symbol by symbol, with two tables of 256 positions; and what a run
// down a strip knows.
#![tactic(auto)]

pub mod rows;
pub mod run;
