//! Moves of up to a day on the wall clock.
ghost use Rattle.std.specs.Prelude.{◌≡◌, ◌<◌, ◌≤◌, pos, ◌+ℤ◌, ◌-ℤ◌, MatchOption};
ghost use Rattle.croner_base.specs.Calendar.{day_seconds};
ghost use Rattle.croner_base.specs.Civil.{wall_second, seconds_of_time};
ghost use Rattle.croner.specs.Private.search.Halves.{offset_from};
ghost use Rattle.croner.specs.Private.search.Wall.{IsLastYear};

use croner_base::limits::SECONDS_PER_DAY;
use croner_base::time::{CivilDateTime, CivilTime, Direction};
use croner_base::wall::{day_after, day_before};

// How many seconds have gone by since midnight.
fn seconds_of_day(time: CivilTime) -> u32
    ensures { result ≡ seconds_of_time time }
{
    (time.hour() * 60 + time.minute()) * 60 + time.second()
}

// The time so many seconds after midnight.
fn time_of_day(seconds: u32) -> CivilTime
    requires { seconds < day_seconds }
    ensures { seconds_of_time result ≡ seconds }
{
    let minutes = seconds / 60;
    CivilTime::from_parts_unchecked(minutes / 60, minutes % 60, seconds % 60)
}

fn seconds_later(civil: CivilDateTime, seconds: u32) -> Option<CivilDateTime>
    requires { seconds ≤ day_seconds }
    ensures { MatchOption result (IsLastYear Direction.Forward civil.date.year)
        (λ moved. wall_second moved ≡ wall_second civil +ℤ pos seconds) }
{
    let place = seconds_of_day(civil.time()) + seconds;
    if place < SECONDS_PER_DAY {
        return Some(CivilDateTime::new(civil.date(), time_of_day(place)));
    }
    match day_after(civil.date()) {
        Some(date) => Some(CivilDateTime::new(date, time_of_day(place - SECONDS_PER_DAY))),
        None => None,
    }
}

fn seconds_earlier(civil: CivilDateTime, seconds: u32) -> Option<CivilDateTime>
    requires { seconds ≤ day_seconds }
    ensures { MatchOption result (IsLastYear Direction.Backward civil.date.year)
        (λ moved. wall_second moved ≡ wall_second civil -ℤ pos seconds) }
{
    let place = seconds_of_day(civil.time());
    if seconds <= place {
        return Some(CivilDateTime::new(civil.date(), time_of_day(place - seconds)));
    }
    match day_before(civil.date()) {
        Some(date) => Some(CivilDateTime::new(
            date,
            time_of_day(place + SECONDS_PER_DAY - seconds),
        )),
        None => None,
    }
}

/// The second so many seconds on in the direction, up to a day; `None` where the year would leave `i32`.
pub(crate) fn seconds_on(
    civil: CivilDateTime,
    seconds: u32,
    direction: Direction,
) -> Option<CivilDateTime>
    requires { seconds ≤ day_seconds }
    ensures { MatchOption result (IsLastYear direction civil.date.year)
        (λ moved. wall_second moved ≡ offset_from direction (wall_second civil) seconds) }
{
    match direction {
        Direction::Forward => seconds_later(civil, seconds),
        Direction::Backward => seconds_earlier(civil, seconds),
    }
}
