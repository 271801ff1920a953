// The pairs of a found window, where nothing is wrong with them. Parts of the check, and no operations of their own.
#![tactic(auto)]

pub mod plain;
pub mod window;
