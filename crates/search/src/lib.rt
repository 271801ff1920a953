// The search: what Count does, and then what List does with flags that are known to be the truth.
#![tactic(auto)]

pub mod search;
