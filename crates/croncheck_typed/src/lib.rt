//! What people type in place of a pattern, a line or a command, and what they should write. It reads no file and no clock.
#![tactic(auto)]

pub mod advice;
pub mod command;
pub mod line;
