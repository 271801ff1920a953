// Count, the first of the two operations that the search is made of: the flag of every window, and how many there are
// of each.
#![tactic(auto)]

pub mod count;
