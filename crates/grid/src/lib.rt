// Of the lower library: strips and links.
// What stands above relies on the contracts here and on the laws of specs/, never on how a function does it.
#![tactic(auto)]

pub mod strips;
