// Where the images of a window's symbols stand, and how many of its rows the window inherits from the one above it.
// Parts of the check, and no operations of their own.
#![tactic(auto)]

pub mod images;
pub mod inherit;
pub mod offsets;
pub mod tables;
