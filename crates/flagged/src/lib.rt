// The flag of every window, strip by strip, which the search begins with.
#![tactic(auto)]

pub mod windows;
