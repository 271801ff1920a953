// Which scales fit, by what the search at a scale and at every scale is refused before it begins, and the numbers by
// which an enlargement is read off its pattern.
#![tactic(auto)]

pub mod enlarging;
pub mod fit;
pub mod room;
