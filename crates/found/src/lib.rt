// The pairs of a window that stands as found. Parts of the check, and no operations of their own.
#![tactic(auto)]

pub mod window;
