// No code. This crate is mathematics alone, in specs/: what the other crates' definitions and proofs are made of.

#![tactic(auto)]
