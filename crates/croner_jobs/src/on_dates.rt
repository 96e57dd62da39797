//! A job on some dates only.
ghost use Rattle.std.specs.Prelude.{◌≡◌, ◌↔◌, IsTrue, IfOk, IfErr};
ghost use Rattle.croner.specs.search.Runs.{Precedes};

use crate::clock::NearUtc;
use crate::dates::Dates;
use crate::seek::{Seek, seek_job};
use crate::window::{search_served, start_past};
use croner::errors::CronError;
use croner::{CronDateTime, Direction, Recurring};

/// A job that runs only on some dates: the date is the one that the clock shows at the run.
///
/// A search goes from run to run until it finds one on a date that is kept. After the last date of a `Dates::Only` it goes on to
/// year 4998, which can take minutes for a job that runs often: put the job into a [`Within`](crate::Within) that ends there.
///
/// ```
/// let cron = Cron::from_str(alloc, "0 9 * * MON-FRI")?;
/// let mut holidays = Vec::new(alloc);
/// holidays.push(CivilDate::from_ymd(2024, 4, 1)?)?;
/// let on_workdays = OnDates { job: cron, dates: Dates::AllBut(holidays) };
/// ```
#[derive(Drop)]
pub struct OnDates<J> {
    /// The job.
    pub job: J,
    /// The dates on which it may run.
    pub dates: Dates,
}

impl<J> OnDates<J> {
    ghost use Rattle.croner.specs.Zone.{reading};
    ghost use Rattle.croner_jobs.specs.Dates.{IsKept};
    ghost use Rattle.croner_jobs.specs.Private.Passed.{IsBeyond, IsPassedTo};
    ghost use Rattle.croner_jobs.specs.Private.Sought.{IsUnknown};

    // Whether a time lies on a date that is kept.
    fn is_kept<T: CronDateTime>(&self, time: &T) -> bool
        ensures { IsTrue result ↔ IsKept self.now.dates (reading (T.moment time.now)) }
    {
        self.dates.keeps(time.to_civil().date())
    }

    // The next run of the job beyond a second in a direction; `None` where no kept one is left.
    fn beyond<T: NearUtc>(
        &self,
        direction: Direction,
        start: &T,
        second: i64,
    ) -> Result<Option<T>, CronError>
    where
        J: Recurring<T>,
        ensures found { IfOk result (IsBeyond T.moment direction (J.runs self.now.job) (T.moment start.now).zone second) }
        ensures unknown { IfErr result (IsUnknown T.can_lack_memory (T.moment start.now)) }
    {
        match start_past(direction, second) {
            Some(from) => seek_job(&self.job, direction, start, from),
            None => Ok(None),
        }
    }

    // The nearest run on a kept date, from one on, which counts itself; `None` where none is left.
    fn pass_over<T: NearUtc>(
        &self,
        direction: Direction,
        start: &T,
        first: T,
    ) -> Result<Option<T>, CronError>
    where
        J: Recurring<T>,
        requires whole { (T.moment first).fraction ≡ 0 }
        requires zone { (T.moment first).zone ≡ (T.moment start.now).zone }
        ensures found { IfOk result (IsPassedTo T.moment direction (J.runs self.now.job) self.now.dates (T.moment start.now).zone (T.moment first).instant) }
        ensures unknown { IfErr result (IsUnknown T.can_lack_memory (T.moment start.now)) }
    {
        let mut run = first;
        'passed: while !self.is_kept(&run) {
            let from = run.second();
            match self.beyond(direction, start, from) {
                Ok(found) => match found {
                    Some(next) => {
                        let to = next.second();
                        if is_beyond(direction, from, to) {
                            run = next;
                        } else {
                            return Err(CronError::InvalidTime);
                        }
                    }
                    None => return Ok(None),
                },
                Err(unknown) => return Err(unknown),
            }
        }
        Ok(Some(run))
    }
}

// Whether a second lies beyond another, in a direction.
fn is_beyond(direction: Direction, from: i64, second: i64) -> bool
    ensures { IsTrue result ↔ Precedes direction from second }
{
    match direction {
        Direction::Forward => from < second,
        Direction::Backward => second < from,
    }
}

impl<J: Recurring<T>, T: NearUtc> Seek<T> for OnDates<J> {
    ghost use Rattle.croner_jobs.specs.Runs.{on_dates};

    ghost sought = { λ it. on_dates it.dates (J.runs it.job) };

    fn seek(&self, direction: Direction, start: &T, second: i64) -> Result<Option<T>, CronError> {
        match seek_job(&self.job, direction, start, second) {
            Ok(found) => match found {
                Some(first) => self.pass_over(direction, start, first),
                None => Ok(None),
            },
            Err(unknown) => Err(unknown),
        }
    }
}

impl<J: Recurring<T>, T: NearUtc> Recurring<T> for OnDates<J> {
    ghost use Rattle.croner_jobs.specs.Runs.{kept_runs};

    ghost runs = { λ it. kept_runs it.dates (J.runs it.job) };

    fn next_after(&self, after: &T) -> Result<T, CronError> {
        search_served(self, Direction::Forward, after)
    }

    fn last_until(&self, until: &T) -> Result<T, CronError> {
        search_served(self, Direction::Backward, until)
    }
}
