//! The nearest time of day that matches a pattern.
ghost use Rattle.std.specs.Prelude.{◌≡◌, ◌<◌, ◌↔◌, true, pos, IsTrue};
ghost use Rattle.croner_base.specs.Civil.{IsTimeOfDay};
ghost use Rattle.croner_pattern.specs.Shapes.{has_field_shapes};
ghost use Rattle.croner_pattern.specs.Private.Cursor.{one_on, FindsForemost, FindsNearest, place_in_day, IsMatchingTime, IsInHours, IsInMinutes, IsInSeconds, IsMove};

use crate::cursor::values::{foremost_value, is_plain, nearest_beyond, nearest_value};
use crate::pattern::{PatternWords, Unit};
use croner_base::limits::{LAST_HOUR, LAST_MINUTE, LAST_SECOND};
use croner_base::time::{CivilTime, Direction};

// The first time of day that matches, in the direction. None where a field names nothing.
#[tactic(auto, using(crate::proofs::civil::FieldBits::holds_hours, crate::proofs::civil::FieldBits::holds_minutes, crate::proofs::civil::FieldBits::holds_seconds))]
#[inline(always)]
pub(crate) fn first_time<P: PatternWords>(pattern: &P, direction: Direction) -> Option<CivilTime>
    requires { has_field_shapes (P.meaning pattern.now) ≡ true }
    ensures { FindsForemost place_in_day (IsMatchingTime (P.meaning pattern.now)) direction result }
{
    let hour = foremost_value(pattern, Unit::Hour, LAST_HOUR, direction)?;
    let minute = foremost_value(pattern, Unit::Minute, LAST_MINUTE, direction)?;
    let second = foremost_value(pattern, Unit::Second, LAST_SECOND, direction)?;
    Some(CivilTime::from_parts_unchecked(hour, minute, second))
}

// The first time in a minute, from a second on.
#[tactic(auto, using(crate::proofs::civil::FieldBits::holds_hours, crate::proofs::civil::FieldBits::holds_minutes, crate::proofs::civil::FieldBits::holds_seconds))]
#[inline(always)]
fn in_minute<P: PatternWords>(
    pattern: &P,
    hour: u32,
    minute: u32,
    second: u32,
    direction: Direction,
) -> Option<CivilTime>
    requires shapes { has_field_shapes (P.meaning pattern.now) ≡ true }
    requires time { IsTimeOfDay hour minute second }
    ensures { FindsForemost place_in_day (IsInSeconds (P.meaning pattern.now) direction (pos hour) (pos minute) (pos second)) direction result }
{
    if !is_plain(pattern, Unit::Hour, hour) || !is_plain(pattern, Unit::Minute, minute) {
        return None;
    }
    let second = nearest_value(pattern, Unit::Second, 0, LAST_SECOND, second, direction)?;
    Some(CivilTime::from_parts_unchecked(hour, minute, second))
}

// The first time in the minutes of an hour after one.
#[tactic(auto, using(crate::proofs::civil::FieldBits::holds_hours, crate::proofs::civil::FieldBits::holds_minutes, crate::proofs::civil::FieldBits::holds_seconds))]
#[inline(always)]
fn in_later_minutes<P: PatternWords>(
    pattern: &P,
    hour: u32,
    minute: u32,
    direction: Direction,
) -> Option<CivilTime>
    requires shapes { has_field_shapes (P.meaning pattern.now) ≡ true }
    requires time { IsTimeOfDay hour minute 0 }
    ensures { FindsForemost place_in_day (IsInMinutes (P.meaning pattern.now) direction (pos hour) (one_on direction (pos minute))) direction result }
{
    if !is_plain(pattern, Unit::Hour, hour) {
        return None;
    }
    let minute = nearest_beyond(pattern, Unit::Minute, LAST_MINUTE, minute, direction)?;
    let second = foremost_value(pattern, Unit::Second, LAST_SECOND, direction)?;
    Some(CivilTime::from_parts_unchecked(hour, minute, second))
}

// The first time in the hours after one.
#[tactic(auto, using(crate::proofs::civil::FieldBits::holds_hours, crate::proofs::civil::FieldBits::holds_minutes, crate::proofs::civil::FieldBits::holds_seconds))]
#[inline(always)]
fn in_later_hours<P: PatternWords>(
    pattern: &P,
    hour: u32,
    direction: Direction,
) -> Option<CivilTime>
    requires shapes { has_field_shapes (P.meaning pattern.now) ≡ true }
    requires time { hour < 24 }
    ensures { FindsForemost place_in_day (IsInHours (P.meaning pattern.now) direction (one_on direction (pos hour))) direction result }
{
    let hour = nearest_beyond(pattern, Unit::Hour, LAST_HOUR, hour, direction)?;
    let minute = foremost_value(pattern, Unit::Minute, LAST_MINUTE, direction)?;
    let second = foremost_value(pattern, Unit::Second, LAST_SECOND, direction)?;
    Some(CivilTime::from_parts_unchecked(hour, minute, second))
}

// The nearest time of the day that matches, from a time on, itself included.
#[inline(always)]
pub(crate) fn in_day<P: PatternWords>(
    pattern: &P,
    from: CivilTime,
    direction: Direction,
) -> Option<CivilTime>
    requires { has_field_shapes (P.meaning pattern.now) ≡ true }
    ensures { FindsNearest place_in_day (IsMatchingTime (P.meaning pattern.now)) direction (place_in_day from) result }
{
    let (hour, minute) = (from.hour(), from.minute());
    if let Some(time) = in_minute(pattern, hour, minute, from.second(), direction) {
        return Some(time);
    }
    if let Some(time) = in_later_minutes(pattern, hour, minute, direction) {
        return Some(time);
    }
    in_later_hours(pattern, hour, direction)
}

// Whether going from one time to another on the same day leaves neither a plain hour nor a plain minute.
#[tactic(auto, using(crate::proofs::civil::FieldBits::holds_hours, crate::proofs::civil::FieldBits::holds_minutes))]
#[inline(always)]
pub(crate) fn is_move<P: PatternWords>(pattern: &P, from: CivilTime, time: CivilTime) -> bool
    requires { has_field_shapes (P.meaning pattern.now) ≡ true }
    ensures { IsTrue result ↔ IsMove (P.meaning pattern.now) from time }
{
    if time.hour() != from.hour() {
        return !is_plain(pattern, Unit::Hour, from.hour());
    }
    time.minute() == from.minute() || !is_plain(pattern, Unit::Minute, from.minute())
}
