//! Comparing and moving the values of a backend.
ghost use Rattle.std.specs.Prelude.{◌≡◌, ◌↔◌, IsTrue, IfOk, IfErr, false};
ghost use Rattle.croner_base.specs.Zone.{nanos_of};
ghost use Rattle.croner.specs.search.Runs.{Precedes};
ghost use Rattle.croner.specs.Private.search.Halves.{moment_from, offset_from, opposite_way};
ghost use Rattle.croner.specs.Private.search.Held.{IsBackendError};

use croner_base::errors::CronError;
use croner_base::time::{CronDateTime, Direction};
use std::alloc::Global;
use std::cmp::Ordering;

/// Whether one value comes before another in the direction, fractions included.
pub(crate) fn precedes<T: CronDateTime>(one: &T, other: &T, direction: Direction) -> bool
    ensures { IsTrue result
        ↔ Precedes direction (nanos_of (T.moment one.now)) (nanos_of (T.moment other.now)) }
{
    match one.cmp_instant(other) {
        Ordering::Less => direction == Direction::Forward,
        Ordering::Equal => false,
        Ordering::Greater => direction == Direction::Backward,
    }
}

/// The other direction.
pub(crate) fn opposite_way(direction: Direction) -> Direction
    ensures { result ≡ opposite_way direction }
{
    match direction {
        Direction::Forward => Direction::Backward,
        Direction::Backward => Direction::Forward,
    }
}

/// The value so many elapsed seconds on; InvalidTime where the backend does not hold it.
pub(crate) fn instant_on<T: CronDateTime>(
    alloc: Global,
    from: &T,
    seconds: u32,
    direction: Direction,
) -> Result<T, CronError>
    ensures value { IfOk result (λ t. T.moment t ≡ moment_from direction (T.moment from.now) seconds) }
    ensures err { IfErr result (IsBackendError T.can_lack_memory
        ((T.moment from.now).zone.holds (offset_from direction (T.moment from.now).instant seconds) ≡ false)) }
{
    let distance = i64::from(seconds);
    let signed = match direction {
        Direction::Forward => distance,
        Direction::Backward => -distance,
    };
    match from.checked_add_seconds(alloc, signed)? {
        Some(there) => Ok(there),
        None => Err(CronError::InvalidTime),
    }
}
