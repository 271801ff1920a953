// Document 02's R-2, coarse cloth: the search at a scale, and at every scale that fits. The enlarged pattern is stored
// nowhere.
#![tactic(auto)]

pub mod enlarged;
pub mod every;
pub mod single;
