// The reader of a listing.
#![tactic(auto)]

pub mod reader;
