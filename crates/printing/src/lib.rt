// Document 01's forms of output: a record a line, and a refusal.
#![tactic(auto)]

mod decimal;
pub mod lines;
