// The check of a listing, whoever made it. Its steps are parts of it, and no operations of their own.
#![tactic(auto)]

pub mod check;
mod windows;
