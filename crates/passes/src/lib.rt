// The records of all windows in two passes, so that no table of windows is needed.
#![tactic(auto)]

pub mod found;
pub mod strips;
