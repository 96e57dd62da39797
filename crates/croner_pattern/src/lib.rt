//! Patterns of seven fields, and the dates and times that they name.
#![tactic(auto)]

pub mod cursor;
pub mod describe;
pub mod laws;
pub mod pattern;
