// When a listing keeps the rules, in specs/; and the check of its closing, which is a part of the check.
#![tactic(auto)]

pub mod checked;
pub mod closing;
