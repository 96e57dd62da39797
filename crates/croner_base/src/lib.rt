//! The basis of cron patterns: errors, the calendar, clocks, and the marks of one field.
#![tactic(auto)]

pub mod component;
pub mod errors;
pub mod excerpt;
pub mod laws;
pub mod limits;
pub mod time;
pub mod wall;
