//! The job of a line of a crontab.
ghost use Rattle.crontab.specs.Entries.{times_seen};
ghost use Rattle.crontab.specs.Star.{has_clock_star as has_star};
ghost use Rattle.crontab_runs.specs.Lines.{IsJobOfTimes};

use crate::job::CrontabJob;
use croner::errors::CronError;
use crontab::line::{Job, Times};
use crontab::parsed::job_of;
use crontab::star::has_clock_star;
use std::alloc::Global;

impl CrontabJob {
    /// The job of a line of a crontab: its pattern, and whether it is starred. `None` if it runs when the machine starts,
    /// or never.
    ///
    /// The errors are those of `job_of` of the crate `crontab`, for the text of its times.
    pub fn of_line(alloc: Global, line: &Job<'_>) -> Result<Option<CrontabJob>, CronError>
        ensures { IsJobOfTimes (times_seen line.now.times) (has_star line.now.schedule.now) result }
    {
        match &line.times {
            Times::Reboot | Times::Never => Ok(None),
            Times::Named { text, both_days } => match job_of(alloc, text.as_str(), *both_days) {
                Ok(cron) => Ok(Some(CrontabJob {
                    cron,
                    is_starred: has_clock_star(line.schedule),
                })),
                Err(error) => Err(error),
            },
        }
    }
}
