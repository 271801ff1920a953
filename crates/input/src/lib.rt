// The program's input: by what it is refused before it is searched.
#![tactic(auto)]

pub mod input;
