// Which windows may match: two cheap tests before a window is compared.
#![tactic(auto)]

pub mod pairs;
pub mod spoilers;
