//! What is found of a line and of a file: each thing with how grave it is, its name, its place and what it says.
#![tactic(auto)]

pub mod findings;
