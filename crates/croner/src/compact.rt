//! Compact jobs, for those who keep many.

mod made;
mod parts;
mod schedule;
mod words;
mod years;

ghost use Rattle.std.specs.Prelude.{◌≡◌};
ghost use Rattle.croner.specs.compact.WordFields.{is_single_time};

use crate::{Cron, JobType};
use croner_base::errors::CronError;
use made::compact_cron;
use parts::LastDay;
use std::alloc::Global;
use years::Years;

/// A cron job in 64 bytes, without its text: when it runs, and nothing else.
///
/// Made of a [`Cron`](crate::Cron), it runs exactly when that job does. Its memory is those 64 bytes, and a piece on the heap
/// only where the years are neither all years nor one range of consecutive years. Two of these jobs are equal if they name the
/// same values and have the same flags and kind: `*` and `0-59` are equal here. Years that need a piece on the heap are
/// compared as they are written: `2024,2026` and `2024-2026/2` differ.
#[derive(Debug, Drop, PartialEq, Eq, Hash)]
pub struct CompactCron {
    seconds: u64,
    minutes: u64,
    years: Years,
    hours: u32,
    // Bit `day - 1` stands for the day.
    days: u32,
    nearest_days: u32,
    months: u16,
    // A byte for each modifier: plain, the first to the fifth of a month, the last. The lowest bit stands for Sunday.
    weekdays: [u8; 7],
    last_day: LastDay,
    star_day: bool,
    star_weekday: bool,
    day_and_weekday: bool,
    is_fixed_time: bool,
    alloc: Global,
    ghost kind: { is_fixed_time ≡ is_single_time is_fixed_time seconds minutes hours },
}

impl CompactCron {
    ghost use Rattle.std.specs.Prelude.{IfOk, IfErr, OnErr, if◌then◌else◌};
    ghost use Rattle.croner_pattern.specs.Schedule.{is_fixed_time};
    ghost use Rattle.croner.specs.compact.Compact.{compact_meaning, IsAlike};
    ghost use Rattle.croner.specs.compact.YearRuns.{IsOneRun};
    ghost use Rattle.croner.specs.search.PatternJob.{timetable_of};
    ghost use Rattle.croner.specs.Views.{job_of};

    /// The job in its compact form. The only error is `OutOfMemory`, and it comes only where the years are neither all years
    /// nor one range of consecutive years.
    ///
    /// ```
    /// let job = Cron::from_str(alloc, "30 9 * * MON-FRI")?;
    /// let compact = CompactCron::of(alloc, &job)?;
    /// let monday = DateTime::new(2024, 7, 1, 9, 30, 0, 0)?;
    /// let next = compact.find_next_occurrence(&monday, false)?; // 2024-07-02T09:30:00
    /// ```
    pub fn of(alloc: Global, cron: &Cron) -> Result<CompactCron, CronError>
        ensures ok { IfOk result (λ c. IsAlike (timetable_of (job_of cron.now)) (timetable_of (compact_meaning c))) }
        ensures err { IfErr result (λ e. e ≡ CronError.OutOfMemory) }
        ensures lacks { OnErr result (IsOneRun (job_of cron.now).years → ⊥) }
    {
        let years = Years::of(alloc, &cron.pattern.years)?;
        Ok(compact_cron(alloc, cron, years))
    }

    /// Which kind of job it is: that of the job of which it was made.
    ///
    /// ```
    /// let daily = CompactCron::of(alloc, &Cron::from_str(alloc, "30 9 * * *")?)?.determine_job_type(); // JobType::FixedTime
    /// ```
    pub fn determine_job_type(&self) -> JobType
        ensures { result ≡ (if is_fixed_time (compact_meaning self.now) then JobType.FixedTime else JobType.IntervalWildcard) }
    {
        if self.is_fixed_time() {
            JobType::FixedTime
        } else {
            JobType::IntervalWildcard
        }
    }

    // Whether it is a fixed-time job.
    #[inline(always)]
    pub(crate) fn is_fixed_time(&self) -> bool
        ensures { result ≡ is_fixed_time (compact_meaning self.now) }
    {
        self.is_fixed_time
    }
}
