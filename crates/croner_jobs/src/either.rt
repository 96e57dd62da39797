//! Two jobs in one.
ghost use Rattle.std.specs.Prelude.{◌↔◌, IsTrue};
ghost use Rattle.croner.specs.search.Runs.{Reaches};
ghost use Rattle.croner_jobs.specs.Private.Sought.{IsNearer, IsOfBoth};

use crate::clock::NearUtc;
use crate::seek::{Seek, seek_job};
use crate::window::search_served;
use croner::errors::CronError;
use croner::{Direction, Recurring};

/// A job that runs when one of two jobs does, and once where both do.
///
/// ```
/// let at_nine = Cron::from_str(alloc, "0 9 * * *")?;
/// let half_past = Cron::from_str(alloc, "30 17 * * FRI")?;
/// let either = Either { first: at_nine, second: half_past };
/// ```
#[derive(Drop)]
pub struct Either<A, B> {
    /// One of the jobs.
    pub first: A,
    /// The other one.
    pub second: B,
}

// What is found of both jobs, by what is found of each.
fn both<T: NearUtc>(
    direction: Direction,
    first: Result<Option<T>, CronError>,
    second: Result<Option<T>, CronError>,
) -> Result<Option<T>, CronError>
    ensures { IsOfBoth T.moment direction first second result }
{
    match first {
        Ok(a) => match second {
            Ok(b) => Ok(nearer(direction, a, b)),
            Err(unknown) => Err(unknown),
        },
        Err(unknown) => Err(unknown),
    }
}

// The nearer of two times, in a direction, or the one that is there.
fn nearer<T: NearUtc>(direction: Direction, first: Option<T>, second: Option<T>) -> Option<T>
    ensures { IsNearer T.moment direction first second result }
{
    match first {
        Some(a) => match second {
            Some(b) => {
                if is_first(direction, &a, &b) {
                    Some(a)
                } else {
                    Some(b)
                }
            }
            None => Some(a),
        },
        None => second,
    }
}

// Whether a time comes no later than another in a direction.
fn is_first<T: NearUtc>(direction: Direction, first: &T, second: &T) -> bool
    ensures { IsTrue result ↔ Reaches direction (T.moment first.now).instant (T.moment second.now).instant }
{
    match direction {
        Direction::Forward => first.second() <= second.second(),
        Direction::Backward => second.second() <= first.second(),
    }
}

impl<A: Recurring<T>, B: Recurring<T>, T: NearUtc> Seek<T> for Either<A, B> {
    ghost use Rattle.croner_jobs.specs.Private.Sought.{in_either};

    ghost sought = { λ either. in_either (A.runs either.first) (B.runs either.second) };

    fn seek(&self, direction: Direction, start: &T, second: i64) -> Result<Option<T>, CronError> {
        let first = seek_job(&self.first, direction, start, second);
        let other = seek_job(&self.second, direction, start, second);
        both(direction, first, other)
    }
}

impl<A: Recurring<T>, B: Recurring<T>, T: NearUtc> Recurring<T> for Either<A, B> {
    ghost use Rattle.croner_jobs.specs.Runs.{either_runs};

    ghost runs = { λ either. either_runs (A.runs either.first) (B.runs either.second) };

    fn next_after(&self, after: &T) -> Result<T, CronError> {
        search_served(self, Direction::Forward, after)
    }

    fn last_until(&self, until: &T) -> Result<T, CronError> {
        search_served(self, Direction::Backward, until)
    }
}
