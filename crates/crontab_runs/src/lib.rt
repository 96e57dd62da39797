//! When Debian's cron starts the jobs of a crontab, also where the clock changes.
//!
//! Cron goes by minutes. A job is starred if the text of its minutes or hours begins with `*`, or it is `@hourly`. Where the clock
//! skips up to 4 minutes, cron at once starts each job for each of them that the job names. Where the clock skips up to 179, cron
//! does so for each job that isn't starred. Where the clock is put back, cron starts a starred job again, and any other job only
//! at a minute that the clock hasn't shown before. All this describes a cron that runs all the time, looks at the clock each
//! second, and whose starts take no time. A real one wakes a second after each minute begins. It also sleeps up to ten seconds
//! after each minute that it made up for and for which it started something: other starts then come later, and a starred job may
//! be started twice.
//!
//! All of this is about calm clocks (`CronDateTime` of `croner` says which these are), from 1970 on.
#![tactic(auto)]

mod due;
mod job;
mod line;
mod listing;
mod made_up;
mod minutes;
mod onward;
mod recurring;
mod search;
mod stretch;
mod stretch_search;
mod zones;

pub use due::due_after;
pub use job::{CrontabJob, Start};
pub use listing::{StartIterator, StartsEnd, last_starts_until, next_starts_until};
pub use zones::starts_of_a_window;
