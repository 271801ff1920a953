// Of the lower library: the cells of a window, one by one and row by row.
// What stands above relies on the contracts here and on the laws of specs/, never on how a function does it.
#![tactic(auto)]

pub mod windows;
