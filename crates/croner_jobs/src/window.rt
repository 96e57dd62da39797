//! A search in a window of seconds.
ghost use Rattle.std.specs.Prelude.{◌≡◌, ◌⊎◌, ◌↔◌, ◌≤ℤ◌, IsTrue, IfOk, IfErr};
ghost use Rattle.croner.specs.Recurring.{IsRunFound, IsRunRefused};
ghost use Rattle.croner_jobs.specs.Served.{IsIn, IsServed, first_served, last_served};
ghost use Rattle.croner_jobs.specs.Private.Sought.{IsStartOrNone, IsPastOrNone, IsSettled, in_window};

use crate::clock::NearUtc;
use crate::seek::Seek;
use croner::Direction;
use croner::errors::CronError;

/// 0003-01-01T00:00:00 UTC, in seconds since 1970.
pub(crate) const FIRST_SERVED: i64 = -62_072_524_800;

/// 4998-12-31T23:59:59 UTC.
pub(crate) const LAST_SERVED: i64 = 95_586_047_999;

/// Whether a second is served.
pub(crate) fn is_served(second: i64) -> bool
    ensures { IsTrue result ↔ IsServed second }
{
    is_in(FIRST_SERVED, LAST_SERVED, second)
}

// Whether a second lies in a window.
fn is_in(first: i64, last: i64, second: i64) -> bool
    ensures { IsTrue result ↔ IsIn first last second }
{
    first <= second && second <= last
}

// Where a search in a window starts; `None` where no second of it counts.
fn start_in(direction: Direction, first: i64, last: i64, second: i64) -> Option<i64>
    requires { first_served ≤ℤ first }
    ensures { IsStartOrNone direction first last second result }
{
    if last < first {
        return None;
    }
    match direction {
        Direction::Forward => {
            if last <= second {
                return None;
            }
            Some(if second < first { first - 1 } else { second })
        }
        Direction::Backward => {
            if second < first {
                return None;
            }
            Some(if last < second { last } else { second })
        }
    }
}

// Where a search of all served seconds starts.
fn start_in_served(direction: Direction, second: i64) -> Option<i64>
    ensures { IsStartOrNone direction first_served last_served second result }
{
    start_in(direction, FIRST_SERVED, LAST_SERVED, second)
}

/// Where a search of the served seconds beyond another one starts; `None` where none lies there.
#[tactic(auto, using(crate::proofs::Windows::past_starts))]
pub(crate) fn start_past(direction: Direction, second: i64) -> Option<i64>
    ensures { IsPastOrNone direction second result }
{
    match direction {
        Direction::Forward => start_in_served(direction, second),
        Direction::Backward => {
            if second <= FIRST_SERVED {
                return None;
            }
            start_in_served(direction, second - 1)
        }
    }
}

/// Where a window begins, of the seconds that are served.
pub(crate) fn first_in(from: i64) -> i64
    ensures value { (result ≡ from) ⊎ (result ≡ first_served) }
    ensures from { from ≤ℤ result }
    ensures served { first_served ≤ℤ result }
{
    if from < FIRST_SERVED {
        return FIRST_SERVED;
    }
    from
}

/// Where a window ends.
pub(crate) fn last_in(until: i64) -> i64
    ensures value { (result ≡ until) ⊎ (result ≡ last_served) }
    ensures until { result ≤ℤ until }
    ensures served { result ≤ℤ last_served }
{
    if LAST_SERVED < until {
        return LAST_SERVED;
    }
    until
}

/// The nearest run in a window of served seconds that counts from a time.
pub(crate) fn search_in<S: Seek<T>, T: NearUtc>(
    job: &S,
    direction: Direction,
    start: &T,
    first: i64,
    last: i64,
) -> Result<T, CronError>
    requires low { first_served ≤ℤ first }
    requires high { last ≤ℤ last_served }
    ensures found { IfOk result (λ t. IsRunFound direction (in_window first last (S.sought job.now)) (T.moment start.now) (T.moment t)) }
    ensures refused { IfErr result (IsRunRefused T.can_lack_memory direction (in_window first last (S.sought job.now)) (T.moment start.now)) }
{
    match start_in(direction, first, last, start.second()) {
        Some(second) => settle(first, last, job.seek(direction, start, second)),
        None => Err(CronError::TimeSearchLimitExceeded),
    }
}

// The answer of a search in a window, by what was found from its start.
fn settle<T: NearUtc>(
    first: i64,
    last: i64,
    sought: Result<Option<T>, CronError>,
) -> Result<T, CronError>
    ensures { IsSettled T.moment first last sought result }
{
    match sought {
        Ok(Some(run)) => {
            if lies_in(first, last, &run) {
                Ok(run)
            } else {
                Err(CronError::TimeSearchLimitExceeded)
            }
        }
        Ok(None) => Err(CronError::TimeSearchLimitExceeded),
        Err(unknown) => Err(unknown),
    }
}

// Whether a time lies in a window.
fn lies_in<T: NearUtc>(first: i64, last: i64, time: &T) -> bool
    ensures { IsTrue result ↔ IsIn first last (T.moment time.now).instant }
{
    is_in(first, last, time.second())
}

/// The same of all served seconds.
pub(crate) fn search_served<S: Seek<T>, T: NearUtc>(
    job: &S,
    direction: Direction,
    start: &T,
) -> Result<T, CronError>
    ensures found { IfOk result (λ t. IsRunFound direction (in_window first_served last_served (S.sought job.now)) (T.moment start.now) (T.moment t)) }
    ensures refused { IfErr result (IsRunRefused T.can_lack_memory direction (in_window first_served last_served (S.sought job.now)) (T.moment start.now)) }
{
    search_in(job, direction, start, FIRST_SERVED, LAST_SERVED)
}
