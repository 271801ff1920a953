// The sweep: from window to window down a strip, so that all of them take a time linear in the strip; and the same run
// down the pattern itself.
#![tactic(auto)]

pub mod own;
pub mod steps;
pub mod windows;
