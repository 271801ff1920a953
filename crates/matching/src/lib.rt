// A window against a pattern: the first position at which they part, and the two cells; window after window.
#![tactic(auto)]

pub mod compare;
pub mod compared;
pub mod windows;
