//! The command line of `croncheck`: the words of a call, and why there is no answer.
#![tactic(auto)]

pub mod problem;
pub mod words;
