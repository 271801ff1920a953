// The flags of a strip's windows down to a match below which links serve, or of all of them.
#![tactic(auto)]

pub mod swept;
