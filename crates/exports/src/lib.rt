// The operations for Rust and C: numbers and slices alone, nothing asked of the caller. A slice passes as a pointer and
// then its length, an array as a pointer. An outcome is a number: 0 where it is accepted, else the number of the
// refusal in the table of documents 01 and 02. C has neither generics nor structs with lifetimes, so each operation has
// a name and all its parameters: they are alike, and what they share is in returned and values.
#![tactic(auto)]

pub mod bijections;
pub mod checking;
pub mod compare;
pub mod count;
pub mod list;
pub mod reader;
pub mod scaled_search;
pub mod scales_search;
pub mod searching;
pub mod symbols;
pub mod texts;
