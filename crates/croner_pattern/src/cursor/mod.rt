//! The nearest scheduled date and time on the wall clock.
ghost use Rattle.std.specs.Prelude.{◌≡◌, true, IfSome};
ghost use Rattle.croner_base.specs.Civil.{wall_second};
ghost use Rattle.croner_pattern.specs.Shapes.{has_field_shapes};
ghost use Rattle.croner_pattern.specs.NextSecond.{FindsNearest, IsNearest, IsOpen, IsOnSchedule};
ghost use Rattle.croner_pattern.specs.Private.Cursor.{has_room, place_in_day, FindsForemost, IsMonthDays, IsOpenTime};
ghost use Rattle.croner_pattern.specs.Schedule.{is_date_matching};

mod calendar;
mod dates;
mod days;
mod kinds;
mod times;
mod values;

use crate::cursor::calendar::has_room;
use crate::cursor::dates::{date_after, month_days};
use crate::cursor::days::has_day;
use crate::cursor::times::{first_time, in_day, is_move};
use crate::pattern::PatternWords;
use croner_base::time::{CivilDate, CivilDateTime, CivilTime, Direction};

/// The nearest scheduled date and time from a date and time on, itself included.
///
/// From a year before 5000 (forward) or after 1 (backward) the search goes no further than the first day of year 5000, or
/// the last day of year 1. From any other year it stays on the day of `from`: there it doesn't leave an hour that the
/// pattern names, nor in the hour of `from` a minute that it names. `None` where nothing is scheduled up to there.
#[inline(always)]
pub fn next_scheduled<P: PatternWords>(
    pattern: &P,
    from: CivilDateTime,
    direction: Direction,
) -> Option<CivilDateTime>
    requires { has_field_shapes (P.meaning pattern.now) ≡ true }
    ensures reached { FindsNearest wall_second (IsOpen (P.meaning pattern.now) direction from) direction
        (wall_second from) result }
    ensures nearest { IfSome result (IsNearest wall_second (IsOnSchedule (P.meaning pattern.now)) direction
        (wall_second from)) }
{
    let date = from.date();
    let days = month_days(pattern, date);
    let room = has_room(date, direction);
    if let Some(time) = in_own_day(pattern, from, days, room, direction) {
        return Some(CivilDateTime::new(date, time));
    }
    if !room {
        return None;
    }
    let first = first_time(pattern, direction)?;
    let date = date_after(pattern, date, days, direction)?;
    Some(CivilDateTime::new(date, first))
}

// The nearest scheduled time on the day of a date and time, from it on, itself included. `days` are those that match in the
// month. Where there is no room it leaves no named hour, and in the hour of `from` no named minute.
#[inline(always)]
fn in_own_day<P: PatternWords>(
    pattern: &P,
    from: CivilDateTime,
    days: u32,
    room: bool,
    direction: Direction,
) -> Option<CivilTime>
    requires shapes { has_field_shapes (P.meaning pattern.now) ≡ true }
    requires days { IsMonthDays (P.meaning pattern.now) from.date.year from.date.month days }
    requires room { room ≡ has_room direction from.date.year }
    ensures { FindsForemost place_in_day (IsOpenTime (P.meaning pattern.now) direction from) direction result }
{
    if !has_day(days, from.date()) {
        return None;
    }
    let start = from.time();
    let time = in_day(pattern, start, direction)?;
    if room {
        return Some(time);
    }
    if is_move(pattern, start, time) {
        Some(time)
    } else {
        None
    }
}

/// Whether a date matches: its year and its month are named, and its day fits the two day fields.
pub fn matches_date<P: PatternWords>(pattern: &P, date: CivilDate) -> bool
    requires { has_field_shapes (P.meaning pattern.now) ≡ true }
    ensures { result ≡ is_date_matching (P.meaning pattern.now) date }
{
    has_day(month_days(pattern, date), date)
}
