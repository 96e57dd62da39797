//! A search for the runs at the seconds that are served.
ghost use Rattle.std.specs.Prelude.{◌≡◌, ◌+ℤ◌, ◌-ℤ◌, pos, IfOk, IfErr, ℤ};
ghost use Rattle.croner.specs.Recurring.{IsRunFound, IsRunRefused};
ghost use Rattle.croner_jobs.specs.Served.{IsIn, IsServed, first_served, last_served};
ghost use Rattle.croner_jobs.specs.Private.Sought.{IsAround, IsSought, IsUnknown, IsThere, IsUnheld, IsFoundOrNone, IsRefusedOtherwise, is_limit_error};

use crate::clock::NearUtc;
use crate::window::{LAST_SERVED, is_served};
use croner::errors::CronError;
use croner::{Direction, Recurring};

/// What a search in a window of seconds asks.
pub(crate) trait Seek<T: NearUtc> {
    ghost use Rattle.croner_base.specs.Zone.{Zone};

    /// The instants of a zone at which it runs, of those that are served.
    ghost sought: { Self → Zone → ℤ → Type 0 };

    /// The nearest run that counts from a second of the zone of a time; `None` where no served second counts.
    fn seek(&self, direction: Direction, start: &T, second: i64) -> Result<Option<T>, CronError>
        requires { IsIn (first_served -ℤ pos 1) last_served second }
        ensures found { IfOk result (IsSought T.moment IsServed direction (sought self.now) (T.moment start.now).zone second) }
        ensures unknown { IfErr result (IsUnknown T.can_lack_memory (T.moment start.now)) };
}

/// The same of any job, from around these seconds.
pub(crate) fn seek_job<J: Recurring<T>, T: NearUtc>(
    job: &J,
    direction: Direction,
    start: &T,
    second: i64,
) -> Result<Option<T>, CronError>
    requires { IsAround second }
    ensures found { IfOk result (IsSought T.moment IsAround direction (J.runs job.now) (T.moment start.now).zone second) }
    ensures unknown { IfErr result (IsUnknown T.can_lack_memory (T.moment start.now)) }
{
    match start.at_second(second) {
        Some(from) => seek_from(job, direction, &from),
        None => Err(CronError::InvalidTime),
    }
}

// The run that a search finds; `None` where it answers the limit.
fn seek_from<J: Recurring<T>, T: NearUtc>(
    job: &J,
    direction: Direction,
    from: &T,
) -> Result<Option<T>, CronError>
    ensures found { IfOk result (IsFoundOrNone T.moment T.can_lack_memory direction (J.runs job.now) (T.moment from.now)) }
    ensures refused { IfErr result (IsRefusedOtherwise T.can_lack_memory direction (J.runs job.now) (T.moment from.now)) }
{
    match search(job, direction, from) {
        Ok(run) => Ok(Some(run)),
        Err(error) => {
            if is_limit(&error) {
                Ok(None)
            } else {
                Err(error)
            }
        }
    }
}

// Whether an error is the limit.
fn is_limit(error: &CronError) -> bool
    ensures { result ≡ is_limit_error error.now }
{
    match error {
        CronError::TimeSearchLimitExceeded => true,
        _ => false,
    }
}

// A search of a job in a direction.
fn search<J: Recurring<T>, T: NearUtc>(
    job: &J,
    direction: Direction,
    from: &T,
) -> Result<T, CronError>
    ensures found { IfOk result (λ t. IsRunFound direction (J.runs job.now) (T.moment from.now) (T.moment t)) }
    ensures refused { IfErr result (IsRunRefused T.can_lack_memory direction (J.runs job.now) (T.moment from.now)) }
{
    match direction {
        Direction::Forward => job.next_after(from),
        Direction::Backward => job.last_until(from),
    }
}

/// The time so many seconds after a second, in the zone of a time; `None` where it isn't served.
pub(crate) fn run_later<T: NearUtc>(
    start: &T,
    second: i64,
    seconds: u32,
) -> Result<Option<T>, CronError>
    ensures there { IfOk result (IsThere T.moment (T.moment start.now).zone (second +ℤ pos seconds)) }
    ensures unheld { IfErr result (IsUnheld (T.moment start.now).zone (second +ℤ pos seconds)) }
{
    if second > LAST_SERVED {
        return Ok(None);
    }
    run_at(start, second + i64::from(seconds))
}

/// The time at a second in the zone of another; `None` where the second isn't served.
pub(crate) fn run_at<T: NearUtc>(start: &T, second: i64) -> Result<Option<T>, CronError>
    ensures there { IfOk result (IsThere T.moment (T.moment start.now).zone second) }
    ensures unheld { IfErr result (IsUnheld (T.moment start.now).zone second) }
{
    if !is_served(second) {
        return Ok(None);
    }
    match start.at_second(second) {
        Some(run) => Ok(Some(run)),
        None => Err(CronError::InvalidTime),
    }
}
