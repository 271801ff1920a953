// The check of one window's records. Parts of the check, and no operations of their own.
#![tactic(auto)]

pub mod entries;
