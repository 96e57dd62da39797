//! A job in a window of seconds.
ghost use Rattle.std.specs.Prelude.{IfOk, IfErr};
ghost use Rattle.croner.specs.Recurring.{IsRunFound, IsRunRefused};

use crate::clock::NearUtc;
use crate::seek::{Seek, seek_job};
use crate::window::{first_in, last_in, search_in};
use croner::errors::CronError;
use croner::{Direction, Recurring};

/// A job that runs only from a second to another, both included, in seconds since 1970-01-01T00:00:00 UTC.
///
/// ```
/// let cron = Cron::from_str(alloc, "0 9 * * *")?;
/// let in_july = Within { job: cron, from: 1_719_792_000, until: 1_722_470_399 };
/// ```
#[derive(Drop)]
pub struct Within<J> {
    /// The job.
    pub job: J,
    /// The first second at which it may run; `i64::MIN`: from the start.
    pub from: i64,
    /// The last second at which it may run; `i64::MAX`: for ever.
    pub until: i64,
}

impl<J: Recurring<T>, T: NearUtc> Seek<T> for Within<J> {
    ghost sought = { λ within. J.runs within.job };

    fn seek(&self, direction: Direction, start: &T, second: i64) -> Result<Option<T>, CronError> {
        seek_job(&self.job, direction, start, second)
    }
}

impl<J> Within<J> {
    ghost use Rattle.croner_jobs.specs.Runs.{window_runs};

    // The nearest run in the window that counts from a time.
    fn search<T: NearUtc>(&self, direction: Direction, start: &T) -> Result<T, CronError>
    where
        J: Recurring<T>,
        ensures found { IfOk result (λ t. IsRunFound direction (window_runs self.now.from self.now.until (J.runs self.now.job)) (T.moment start.now) (T.moment t)) }
        ensures refused { IfErr result (IsRunRefused T.can_lack_memory direction (window_runs self.now.from self.now.until (J.runs self.now.job)) (T.moment start.now)) }
    {
        let first = first_in(self.from);
        let last = last_in(self.until);
        search_in(self, direction, start, first, last)
    }
}

impl<J: Recurring<T>, T: NearUtc> Recurring<T> for Within<J> {
    ghost use Rattle.croner_jobs.specs.Runs.{window_runs};

    ghost runs = { λ within. window_runs within.from within.until (J.runs within.job) };

    fn next_after(&self, after: &T) -> Result<T, CronError> {
        self.search(Direction::Forward, after)
    }

    fn last_until(&self, until: &T) -> Result<T, CronError> {
        self.search(Direction::Backward, until)
    }
}
