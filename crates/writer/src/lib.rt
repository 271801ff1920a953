// The listing from the flags: the records of every window in their order, and the closing. It is a step of the search,
// and no operation of its own.
#![tactic(auto)]

pub mod writing;
