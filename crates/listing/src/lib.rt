// The records of a listing, and their bytes.
#![tactic(auto)]

pub mod bytes;
pub mod records;
pub mod totals;
