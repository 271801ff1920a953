// List, the second of the two operations that the search is made of: the listing from flags, which are judged first.
#![tactic(auto)]

pub mod list;
