// No code. This crate is mathematics alone, in specs/: how far a window agrees with a pattern, and what follows for a
// window further down.

#![tactic(auto)]
