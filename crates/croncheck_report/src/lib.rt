//! What a line of a crontab is to cron, with its meaning, its runs and its warnings, as one value; and what is seen of a file.
#![tactic(auto)]

pub mod allowed;
pub mod file_seen;
pub mod location;
pub mod report;
pub mod settings;
pub mod shared;
pub mod told;
