//! The summary of a schedule.

ghost use Rattle.std.specs.Prelude.{◌≡◌, IfOk, IfErr};
ghost use Rattle.croner_pattern.specs.Meaning.{meaning_of};
ghost use Rattle.croner.specs.Views.{job_of};
ghost use Rattle.croner_summary.specs.Lengths.{IsShortlySaid};
ghost use Rattle.croner_summary.specs.Order.{IsWrittenInOrder};
ghost use Rattle.croner_summary.specs.Summaries.{SaysTheSchedule};

use crate::day_phrases::days_of;
use crate::days::Days;
use crate::field::plain_phrase;
use crate::phrase::Phrase;
use croner::Cron;
use croner_base::errors::CronError;
use croner_base::limits::{LAST_HOUR, LAST_MINUTE, LAST_MONTH, LAST_SECOND};
use croner_base::time::{YEAR_LOWER_LIMIT, YEAR_UPPER_LIMIT};
use croner_pattern::pattern::CronPattern;
use std::alloc::Global;

/// A schedule in phrases. It names a date and time if the phrases name its second, minute, hour, month and year, and `days` names
/// its day.
#[derive(Debug)]
pub struct Summary {
    /// Seconds, 0 to 59.
    pub seconds: Phrase,
    /// Minutes, 0 to 59.
    pub minutes: Phrase,
    /// Hours, 0 to 23.
    pub hours: Phrase,
    /// Days.
    pub days: Days,
    /// Months, 1 to 12.
    pub months: Phrase,
    /// Years, 1 to 5000.
    pub years: Phrase,
}

// By hand, so that a function that drops a summary calls this one.
impl Drop for Summary {
    fn drop(self) {
        let Summary {
            seconds: _,
            minutes: _,
            hours: _,
            days: _,
            months: _,
            years: _,
        } = self;
    }
}

impl Summary {
    /// The summary of a job. It names exactly the dates and times that the job's pattern schedules. When the job runs where the
    /// clock changes depends on its [`JobType`](croner::JobType). No phrase has more words than a single piece that names the same
    /// values. The pieces of a phrase lie in its field and rise, with Sunday after Saturday, and name no value twice.
    ///
    /// The only error is `OutOfMemory`.
    ///
    /// ```
    /// let job = Cron::from_str(alloc, "*/5,9 * * * *")?;
    /// let minutes = Summary::of(alloc, &job)?.minutes; // EveryNth(5), One(9)
    /// ```
    pub fn of(alloc: Global, job: &Cron) -> Result<Summary, CronError>
        ensures ok { IfOk result (λ s. SaysTheSchedule s (job_of job.now)) }
        ensures short { IfOk result IsShortlySaid }
        ensures ordered { IfOk result IsWrittenInOrder }
        ensures err { IfErr result (λ e. e ≡ CronError.OutOfMemory) }
    {
        Summary::of_pattern(alloc, &job.pattern)
    }

    /// The summary of a pattern. It names exactly the dates and times that the pattern schedules.
    ///
    /// The only error is `OutOfMemory`.
    pub fn of_pattern(alloc: Global, pattern: &CronPattern) -> Result<Summary, CronError>
        ensures ok { IfOk result (λ s. SaysTheSchedule s (meaning_of pattern.now)) }
        ensures short { IfOk result IsShortlySaid }
        ensures ordered { IfOk result IsWrittenInOrder }
        ensures err { IfErr result (λ e. e ≡ CronError.OutOfMemory) }
    {
        let seconds = plain_phrase(alloc, 0, LAST_SECOND as u16, &pattern.seconds)?;
        let minutes = plain_phrase(alloc, 0, LAST_MINUTE as u16, &pattern.minutes)?;
        let hours = plain_phrase(alloc, 0, LAST_HOUR as u16, &pattern.hours)?;
        let days = days_of(alloc, pattern)?;
        let months = plain_phrase(alloc, 1, LAST_MONTH as u16, &pattern.months)?;
        let years = plain_phrase(
            alloc,
            YEAR_LOWER_LIMIT as u16,
            YEAR_UPPER_LIMIT as u16,
            &pattern.years,
        )?;
        Ok(Summary {
            seconds,
            minutes,
            hours,
            days,
            months,
            years,
        })
    }
}
