//! Further forms of what is told: JSON, SARIF, and the lines that editors and GitHub read.
#![tactic(auto)]

pub mod annotator;
pub mod json;
pub mod json_checker;
pub mod json_reporter;
pub mod sarif;
