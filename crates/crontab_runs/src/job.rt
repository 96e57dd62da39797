//! A job of a crontab, and its starts.

use croner::Cron;

/// A job of a crontab, as Debian's cron sees it: the minutes that it names, and whether it is starred.
#[derive(Debug, Drop)]
pub struct CrontabJob {
    /// The pattern of its times. It names the minutes in which a second is scheduled, since cron has no seconds. For a line of a
    /// crontab use the pattern that `job_of` of the crate `crontab` reads: croner's own parser joins the two day fields by another
    /// rule.
    pub cron: Cron,
    /// Whether the text of its minutes or that of its hours begins with a star, as in `*/30 2 * * *`, or it is `@hourly`. What
    /// cron does where the clock changes depends on it.
    pub is_starred: bool,
}

/// The starts of a job at one second.
#[derive(Debug, Clone, Copy, PartialEq, Eq, Hash)]
pub struct Start {
    /// The second, since 1970-01-01T00:00:00 UTC.
    pub second: i64,
    /// How many times the job is started then, from 1 to 180: more than once only where cron makes up for minutes that the clock has
    /// skipped.
    pub count: u32,
}
