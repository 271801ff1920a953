// Whether a window has one symbol for each of the pattern's. A part of the check, and no operation of its own.
#![tactic(auto)]

pub mod carries;
