// What stands between the search's two steps: the pattern's symbols, and the totals of the flags.
#![tactic(auto)]

pub mod marks;
pub mod pattern;
pub mod totals;
