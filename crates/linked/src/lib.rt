// How far each window of a strip agrees with the pattern, by the strip's links, and so its flag.
#![tactic(auto)]

pub mod run;
