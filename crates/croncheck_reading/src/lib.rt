//! How files are read, each line in some form, and how far the reading has come.
#![tactic(auto)]

pub mod files;
pub mod form;
pub mod progress;
pub mod same;
pub mod sink;
pub mod tally;
