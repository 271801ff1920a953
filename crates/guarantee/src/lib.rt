// No code. This crate states and proves, in specs/, what the customer can ask of the crates below it taken together.

#![tactic(auto)]
