// Pairs of cells that are alike in the pattern: a window that matches is alike there too.
#![tactic(auto)]

pub mod pairs;
