//! The first and the last second of a date on a zone's clock.
ghost use Rattle.std.specs.Prelude.{◌≡◌, ◌↔◌, ◌≤◌, IsTrue, MatchOption, Some, pos, ◌+ℤ◌, ◌-ℤ◌, ◌<ℤ◌, ◌≤ℤ◌};
ghost use Rattle.std.specs.Bool.{OnTrue, OnFalse};
ghost use Rattle.jiff.specs.ZoneView.{plain_zone};
ghost use Rattle.croncheck_runs.specs.Clock.{IsHeldSecond};
ghost use Rattle.croncheck_moments.specs.Moment.{midnight_of, shown_at, seconds_around, seconds_across, IsWallSecond, IsAround, GoesOver, IsNoBegin, IsBegin, IsFirstOf, IsLastOf, IsLastBeforeNext, IsUnheld, LiesInDay, ShowsDate};

use crate::moment::second_shown;
use croncheck_runs::clock::ahead_at;
use croner_base::limits::SECONDS_PER_DAY;
use jiff::civil::{Date, Time};
use jiff::tz::TimeZone;

/// How many seconds around midnight a date is sought: 26 hours, which is more than any clock is ahead of UTC.
const SECONDS_AROUND: i64 = 93_600;

/// From the first of these seconds to the last.
const SECONDS_ACROSS: u32 = 187_200;

/// The seconds of `jiff`'s instants.
const FIRST_TIMESTAMP: i64 = -377_705_023_201;

const LAST_TIMESTAMP: i64 = 253_402_207_200;

const DAY_SECONDS: i64 = SECONDS_PER_DAY as i64;

// The second with which a date begins, where the zone's clock shows the date there.
pub(crate) fn first_second_of(date: Date, zone: &TimeZone<'_>) -> Option<i64>
    ensures { IsFirstOf (plain_zone zone.now) date result }
{
    match begin_of(date, zone) {
        Some(second) if shows_date(zone, date, second) => Some(second),
        _ => None,
    }
}

// The second before the next date begins, for a date that the zone's clock shows.
pub(crate) fn last_second_of(date: Date, zone: &TimeZone<'_>) -> Option<i64>
    ensures { IsLastOf (plain_zone zone.now) date result }
{
    match first_second_of(date, zone) {
        Some(_) => last_before_next(date, zone),
        None => None,
    }
}

// The second before the date after this one begins.
pub(crate) fn last_before_next(date: Date, zone: &TimeZone<'_>) -> Option<i64>
    ensures { IsLastBeforeNext (plain_zone zone.now) date result }
{
    match date.tomorrow() {
        Ok(next) => second_before(begin_of(next, zone)),
        Err(_) => None,
    }
}

// The second before another one, if there is one that `jiff` holds.
fn second_before(begin: Option<i64>) -> Option<i64>
    ensures { MatchOption result (IsUnheld begin) (λ second. begin ≡ Some (second +ℤ pos 1)) }
{
    match begin {
        Some(second) if is_held(second) => Some(second - 1),
        _ => None,
    }
}

// The second with which a date begins: the one at which the zone's clock shows midnight, the earlier one of two, or the first one after
// what the clock skips there. `None` if `jiff` doesn't hold the seconds around midnight.
fn begin_of(date: Date, zone: &TimeZone<'_>) -> Option<i64>
    ensures { MatchOption result (IsNoBegin (plain_zone zone.now) date) (IsBegin (plain_zone zone.now) date) }
{
    match second_shown(date.to_datetime(Time::midnight()), zone) {
        Some(second) => Some(second),
        None => first_over(midnight_of(date), zone),
    }
}

// The wall second with which a date begins.
fn midnight_of(date: Date) -> i64
    ensures value { result ≡ midnight_of date }
    ensures bound { IsWallSecond result }
{
    date.to_plain().to_unix_epoch_day() as i64 * DAY_SECONDS
}

// The first second after a wall second that the zone's clock goes over, where what lies around it is held.
fn first_over(wall: i64, zone: &TimeZone<'_>) -> Option<i64>
    requires { IsWallSecond wall }
    ensures { MatchOption result (¬ (IsAround (plain_zone zone.now) wall)) (GoesOver (plain_zone zone.now) wall) }
{
    if !is_held_around(wall) {
        return None;
    }
    if !is_earlier(wall, zone, 0) {
        return None;
    }
    if is_earlier(wall, zone, SECONDS_ACROSS) {
        return None;
    }
    Some(second_over(wall, zone))
}

// Whether `jiff` holds the seconds around a wall second.
fn is_held_around(wall: i64) -> bool
    requires { IsWallSecond wall }
    ensures held { OnTrue result (IsHeldSecond (wall -ℤ seconds_around) × IsHeldSecond (wall +ℤ seconds_around)) }
    ensures not_held { OnFalse result (¬ (IsHeldSecond (wall -ℤ seconds_around) × IsHeldSecond (wall +ℤ seconds_around))) }
{
    FIRST_TIMESTAMP + SECONDS_AROUND <= wall && wall <= LAST_TIMESTAMP - SECONDS_AROUND
}

// The first second after a wall second that the zone's clock goes over: it shows an earlier one at the first of the seconds around, and none at
// the last.
fn second_over(wall: i64, zone: &TimeZone<'_>) -> i64
    requires wall { IsWallSecond wall }
    requires held { IsHeldSecond (wall -ℤ seconds_around) × IsHeldSecond (wall +ℤ seconds_around) }
    requires earlier { shown_at (plain_zone zone.now) ((wall -ℤ seconds_around) +ℤ pos 0) <ℤ wall }
    requires later { wall ≤ℤ shown_at (plain_zone zone.now) ((wall -ℤ seconds_around) +ℤ pos seconds_across) }
    ensures { GoesOver (plain_zone zone.now) wall result }
{
    let mut before: u32 = 0;
    let mut gap: u32 = SECONDS_ACROSS;
    while 1 < gap {
        let half = gap / 2;
        if is_earlier(wall, zone, before + half) {
            before += half;
            gap -= half;
        } else {
            gap = half;
        }
    }
    second_around(wall, before + gap)
}

// The second so many after the first of those around a wall second.
fn second_around(wall: i64, seconds: u32) -> i64
    requires wall { IsWallSecond wall }
    requires within { seconds ≤ seconds_across }
    ensures { result ≡ (wall -ℤ seconds_around) +ℤ pos seconds }
{
    wall - SECONDS_AROUND + seconds as i64
}

// Whether the zone's clock shows a second earlier than a wall second there.
fn is_earlier(wall: i64, zone: &TimeZone<'_>, seconds: u32) -> bool
    requires wall { IsWallSecond wall }
    requires within { seconds ≤ seconds_across }
    requires held { IsHeldSecond (wall -ℤ seconds_around) × IsHeldSecond (wall +ℤ seconds_around) }
    ensures earlier { OnTrue result (shown_at (plain_zone zone.now) ((wall -ℤ seconds_around) +ℤ pos seconds) <ℤ wall) }
    ensures later { OnFalse result (wall ≤ℤ shown_at (plain_zone zone.now) ((wall -ℤ seconds_around) +ℤ pos seconds)) }
{
    shown_at(zone, second_around(wall, seconds)) < wall
}

/// Whether the zone's clock shows a date at a second.
pub(crate) fn shows_date(zone: &TimeZone<'_>, date: Date, second: i64) -> bool
    ensures shows { OnTrue result (ShowsDate (plain_zone zone.now) date second) }
    ensures hides { OnFalse result (¬ (ShowsDate (plain_zone zone.now) date second)) }
{
    if !is_held(second) {
        return false;
    }
    lies_in_day(shown_at(zone, second), midnight_of(date))
}

// Whether a wall second lies in the day that begins with another one.
fn lies_in_day(shown: i64, midnight: i64) -> bool
    requires { IsWallSecond midnight }
    ensures within { OnTrue result (LiesInDay shown midnight) }
    ensures outside { OnFalse result (¬ (LiesInDay shown midnight)) }
{
    midnight <= shown && shown < midnight + DAY_SECONDS
}

// The wall second that a zone's clock shows at a second.
fn shown_at(zone: &TimeZone<'_>, second: i64) -> i64
    requires { IsHeldSecond second }
    ensures { result ≡ shown_at (plain_zone zone.now) second }
{
    second + ahead_at(zone, second) as i64
}

// Whether `jiff` holds a second.
fn is_held(second: i64) -> bool
    ensures { IsTrue result ↔ IsHeldSecond second }
{
    FIRST_TIMESTAMP <= second && second <= LAST_TIMESTAMP
}
