//! The files that a call names, where a machine keeps its crontabs, and why cron ignores one by what the file system says of it.
#![tactic(auto)]

pub mod fitness;
pub mod folder;
pub mod names;
pub mod root;
