// The one-window question: refused, or answered by a comparison.
#![tactic(auto)]

pub mod one_window;
