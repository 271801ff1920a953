// The flags of one strip, as document 004 finds them: a window's distinct count first, then the links of the strip.
// Ours are that most strips need no links, and what a window inherits from the one compared before it.
#![tactic(auto)]

pub mod strip;
