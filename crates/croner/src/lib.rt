//! Cron patterns and their runs.
#![tactic(auto)]

mod compact;
pub mod crontable;
mod description;
mod iterator;
mod job;
mod json;
pub mod laws;
mod occurrence;
pub mod parser;
mod recurring;
mod search;

pub use compact::CompactCron;
pub use croner_base::component::CronComponent;
pub use croner_base::time::{
    CivilDate, CivilDateTime, CivilTime, Clocked, CronDateTime, Direction, Resolution,
    TimeComponent, Weekday, YEAR_LOWER_LIMIT, YEAR_UPPER_LIMIT,
};
pub use croner_base::{component, errors, time};
pub use croner_pattern::describe;
pub use croner_pattern::pattern::CronPattern;
pub use croner_words::english_form;
pub use iterator::CronIterator;
pub use job::{Cron, JobType};
pub use recurring::Recurring;
