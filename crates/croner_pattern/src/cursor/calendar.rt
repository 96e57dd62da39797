//! Years and their limits, and the weekday of the first of a month.
ghost use Rattle.std.specs.Prelude.{◌≡◌, ◌<◌, ◌↔◌, IsTrue, true, pos};
ghost use Rattle.std.specs.Int.{IsInRange};
ghost use Rattle.croner_base.specs.Civil.{HasYmd, day_of_date};
ghost use Rattle.croner_pattern.specs.Schedule.{first_weekday};
ghost use Rattle.croner_pattern.specs.Directions.{Reaches};
ghost use Rattle.croner_pattern.specs.Private.Cursor.{one_on, has_room, edge_day, IsNearest};

use croner_base::limits::{DAYS_PER_WEEK, LAST_MONTH};
use croner_base::time::{CivilDate, Direction, YEAR_LOWER_LIMIT, YEAR_UPPER_LIMIT, day_of_year};

/// The first year that a pattern can name and a search can reach.
pub(crate) const FIRST_SEARCHED_YEAR: u32 = YEAR_LOWER_LIMIT as u32;

/// The last one.
pub(crate) const LAST_SEARCHED_YEAR: u32 = YEAR_UPPER_LIMIT as u32;

// Whether a search can step on from the year of a date.
#[inline(always)]
pub(crate) fn has_room(date: CivilDate, direction: Direction) -> bool
    ensures { result ≡ has_room direction date.year }
{
    match direction {
        Direction::Forward => date.year() < YEAR_UPPER_LIMIT,
        Direction::Backward => date.year() > YEAR_LOWER_LIMIT,
    }
}

// Whether the date has the year, the month and the day.
#[inline(always)]
fn is_ymd(date: CivilDate, year: i32, month: u32, day: u32) -> bool
    ensures { IsTrue result ↔ HasYmd year month day date }
{
    date.year() == year && date.month() == month && date.day() == day
}

// Whether a search reaches a date. In the year from which it can't step on, it reaches the first day only.
#[inline(always)]
pub(crate) fn is_reached(date: CivilDate, direction: Direction) -> bool
    ensures { IsTrue result ↔ Reaches direction (day_of_date date) (edge_day direction) }
{
    if has_room(date, direction) {
        return true;
    }
    match direction {
        Direction::Forward => is_ymd(date, YEAR_UPPER_LIMIT, 1, 1),
        Direction::Backward => is_ymd(date, YEAR_LOWER_LIMIT, LAST_MONTH, 31),
    }
}

// The weekday of the first of a month of a year that a pattern can name, from 0 for Sunday.
#[tactic(auto, using(crate::proofs::civil::Weekdays::weekday_place, crate::proofs::civil::Weekdays::first_bound))]
#[inline(always)]
pub(crate) fn first_weekday(year: u32, month: u32) -> u32
    requires year_in { IsInRange FIRST_SEARCHED_YEAR LAST_SEARCHED_YEAR year }
    requires month_in { IsInRange 1 LAST_MONTH month }
    ensures value { result ≡ first_weekday (pos year) month }
    ensures bound { result < 7 }
{
    let leap_days = (year + 3) / 4 + (year + 399) / 400 - (year + 99) / 100;
    // The first of January of year 0 was a Saturday.
    (year + leap_days + day_of_year(year as i32, month, 1) + 5) % DAYS_PER_WEEK
}

// The first year, among those that a pattern can name, after the year of a date.
#[inline(always)]
pub(crate) fn year_beyond(date: CivilDate, direction: Direction) -> u32
    requires { has_room direction date.year ≡ true }
    ensures { IsNearest pos (IsInRange FIRST_SEARCHED_YEAR LAST_SEARCHED_YEAR) direction (one_on direction date.year) result }
{
    let year = date.year();
    match direction {
        Direction::Forward if year < YEAR_LOWER_LIMIT => FIRST_SEARCHED_YEAR,
        Direction::Forward => (year + 1) as u32,
        Direction::Backward if year > YEAR_UPPER_LIMIT => LAST_SEARCHED_YEAR,
        Direction::Backward => (year - 1) as u32,
    }
}
