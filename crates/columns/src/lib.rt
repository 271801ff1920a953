// The bijection of a match, as its two columns.
#![tactic(auto)]

pub mod columns;
