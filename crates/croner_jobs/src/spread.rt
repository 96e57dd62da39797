//! A job whose runs come later.
ghost use Rattle.std.specs.Prelude.{◌≡◌, ◌≤◌, ◌<◌, ◌-ℤ◌, pos, IfOk, IfErr};
ghost use Rattle.croner_jobs.specs.Served.{IsIn, first_served, last_served};
ghost use Rattle.croner_jobs.specs.Private.Later.{IsLaterOf, IsUnheldLater};

use crate::clock::NearUtc;
use crate::seek::{Seek, run_later, seek_job};
use crate::window::search_served;
use croner::errors::CronError;
use croner::{Direction, Recurring};

/// The most seconds by which a [`Spread`] moves a job: a day.
pub const MOST_SPREAD_SECONDS: u32 = 86_400;

/// A job each of whose runs comes so many seconds later: so that many machines don't start the same job at once.
///
/// ```
/// let midnight = Cron::from_str(alloc, "0 0 * * *")?;
/// let at_17_past = Spread::new(midnight, 1_020)?; // 00:17:00
/// ```
#[derive(Drop)]
pub struct Spread<J> {
    job: J,
    seconds: u32,
    pub ghost day: { seconds ≤ 86_400 },
}

impl<J> Spread<J> {
    /// Each run of a job so many seconds later. Where these are more than [`MOST_SPREAD_SECONDS`], the job is handed back.
    pub fn new(job: J, seconds: u32) -> Result<Spread<J>, J>
        ensures made { IfOk result (λ it. (seconds ≤ 86_400) × (it.job ≡ job) × (it.seconds ≡ seconds)) }
        ensures refused { IfErr result (λ back. (86_400 < seconds) × (back ≡ job)) }
    {
        if seconds > MOST_SPREAD_SECONDS {
            return Err(job);
        }
        Ok(Spread { job, seconds })
    }
}

impl<J: Recurring<T>, T: NearUtc> Seek<T> for Spread<J> {
    ghost use Rattle.croner_jobs.specs.Private.Later.{later};

    ghost sought = { λ spread. later spread.seconds (J.runs spread.job) };

    fn seek(&self, direction: Direction, start: &T, second: i64) -> Result<Option<T>, CronError> {
        let from = earlier(second, self.seconds);
        match seek_job(&self.job, direction, start, from) {
            Ok(sought) => later_of(start, sought, self.seconds),
            Err(unknown) => Err(unknown),
        }
    }
}

// The second so many seconds before one from which a search starts.
fn earlier(second: i64, seconds: u32) -> i64
    requires start { IsIn (first_served -ℤ pos 1) last_served second }
    requires day { seconds ≤ 86_400 }
    ensures { result ≡ second -ℤ pos seconds }
{
    second - i64::from(seconds)
}

// The time so many seconds after one that was found.
fn later_of<T: NearUtc>(start: &T, sought: Option<T>, seconds: u32) -> Result<Option<T>, CronError>
    ensures found { IfOk result (IsLaterOf T.moment (T.moment start.now).zone seconds sought) }
    ensures unheld { IfErr result (IsUnheldLater T.moment (T.moment start.now).zone seconds sought) }
{
    match sought {
        Some(run) => run_later(start, run.second(), seconds),
        None => Ok(None),
    }
}

impl<J: Recurring<T>, T: NearUtc> Recurring<T> for Spread<J> {
    ghost use Rattle.croner_jobs.specs.Runs.{later_runs};

    ghost runs = { λ spread. later_runs spread.seconds (J.runs spread.job) };

    fn next_after(&self, after: &T) -> Result<T, CronError> {
        search_served(self, Direction::Forward, after)
    }

    fn last_until(&self, until: &T) -> Result<T, CronError> {
        search_served(self, Direction::Backward, until)
    }
}
