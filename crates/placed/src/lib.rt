// A pattern as it lies: as it is, or enlarged. The cells of an enlargement are read off the pattern's own.
#![tactic(auto)]

pub mod block;
pub mod enlarged;
pub mod pattern;
