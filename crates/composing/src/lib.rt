// One bijection after the other.
#![tactic(auto)]

pub mod compose;
