// The program as one proved function, from the bytes of its input to those of its output.
#![tactic(auto)]

pub mod program;
