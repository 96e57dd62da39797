//! What is to be said of a line that isn't refused, by its text and its times alone: no clock is
//! asked.
#![tactic(auto)]

pub mod effect;
pub mod mail;
pub mod presets;
pub mod starred;
pub mod users;
pub mod warnings;
