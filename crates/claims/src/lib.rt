// What a record of a listing claims of its window, and whether the two cells of a mismatch spoil it. Parts of the
// check, and no operations of their own.
#![tactic(auto)]

pub mod mismatches;
