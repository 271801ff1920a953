// Of the lower library: sides and cells of a text and a pattern, by what a question is refused, and empty tables.
// What stands above relies on the contracts here and on the laws of specs/, never on how a function does it.
#![tactic(auto)]

pub mod question;
pub mod shapes;
pub mod tables;
