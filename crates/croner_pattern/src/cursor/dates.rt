//! The nearest date that matches a pattern.
ghost use Rattle.std.specs.Prelude.{◌≡◌, ℕ, true, false, pos, MatchOption};
ghost use Rattle.std.specs.Int.{IsInRange};
ghost use Rattle.jiff_core.specs.Calendar.{days_in_month};
ghost use Rattle.croner_base.specs.Civil.{day_of_date};
ghost use Rattle.croner_pattern.specs.Directions.{Reaches};
ghost use Rattle.croner_pattern.specs.Shapes.{has_field_shapes};
ghost use Rattle.croner_pattern.specs.Schedule.{is_plain, is_year_matching, first_weekday, IsDayMask};
ghost use Rattle.croner_pattern.specs.Private.Cursor.{one_on, has_room, FindsForemost, FindsNearest, IsOnTheWay, IsNamedYear, IsMonthDays, IsMatchingDate, IsInMonth, IsInMonths, IsInYear, IsInYears, IsAfter, AreYearKinds};

use crate::cursor::calendar::{
    FIRST_SEARCHED_YEAR, LAST_SEARCHED_YEAR, first_weekday, is_reached, year_beyond,
};
use crate::cursor::days::{day_after, first_day};
use crate::cursor::kinds::{has_kind, year_kinds};
use crate::cursor::values::{is_plain, nearest_value, nearest_year, neighbour};
use crate::pattern::{PatternWords, Unit, days_of_month};
use croner_base::limits::LAST_MONTH;
use croner_base::time::{CivilDate, Direction, days_in_month};

// The number of the year of a date, where the pattern names it.
#[inline(always)]
fn named_year<P: PatternWords>(pattern: &P, date: CivilDate) -> Option<u32>
    requires { has_field_shapes (P.meaning pattern.now) ≡ true }
    ensures { MatchOption result (is_year_matching (P.meaning pattern.now) date.year ≡ false)
        (IsNamedYear (P.meaning pattern.now) date.year) }
{
    if pattern.names_year(date.year()) {
        Some(date.year() as u32)
    } else {
        None
    }
}

// The days of a month that the day fields name.
#[inline(always)]
fn named_days<P: PatternWords>(pattern: &P, year: u32, month: u32) -> u32
    requires shapes { has_field_shapes (P.meaning pattern.now) ≡ true }
    requires year_in { IsInRange FIRST_SEARCHED_YEAR LAST_SEARCHED_YEAR year }
    requires month_in { IsInRange 1 LAST_MONTH month }
    ensures { IsDayMask (P.meaning pattern.now) (days_in_month (pos year) month) (first_weekday (pos year) month) result }
{
    days_of_month(
        pattern,
        days_in_month(year as i32, month),
        first_weekday(year, month),
    )
}

// The days that match in the month of a date.
#[tactic(auto, using(crate::proofs::civil::FieldBits::holds_months))]
#[inline(always)]
pub(crate) fn month_days<P: PatternWords>(pattern: &P, date: CivilDate) -> u32
    requires { has_field_shapes (P.meaning pattern.now) ≡ true }
    ensures { IsMonthDays (P.meaning pattern.now) date.year date.month result }
{
    match named_year(pattern, date) {
        Some(year) if is_plain(pattern, Unit::Month, date.month()) => {
            named_days(pattern, year, date.month())
        }
        _ => 0,
    }
}

// The first date that matches in a named month of a named year.
#[inline(always)]
fn in_month<P: PatternWords>(
    pattern: &P,
    year: u32,
    month: u32,
    direction: Direction,
) -> Option<CivilDate>
    requires shapes { has_field_shapes (P.meaning pattern.now) ≡ true }
    requires year_in { IsInRange FIRST_SEARCHED_YEAR LAST_SEARCHED_YEAR year }
    requires month_in { IsInRange 1 LAST_MONTH month }
    ensures { is_year_matching (P.meaning pattern.now) (pos year) ≡ true → is_plain (P.meaning pattern.now).months month ≡ true
        → FindsForemost day_of_date (IsInMonth (P.meaning pattern.now) (pos year) (pos month)) direction result }
{
    let day = first_day(named_days(pattern, year, month), direction)?;
    Some(CivilDate::from_parts_unchecked(year as i32, month, day))
}

// The first date that matches in the months of a named year from a month on.
#[tactic(auto, using(crate::proofs::civil::FieldBits::holds_months))]
#[inline(always)]
fn in_months<P: PatternWords>(
    pattern: &P,
    year: u32,
    month: u32,
    direction: Direction,
) -> Option<CivilDate>
    requires shapes { has_field_shapes (P.meaning pattern.now) ≡ true }
    requires year_in { IsInRange FIRST_SEARCHED_YEAR LAST_SEARCHED_YEAR year }
    requires month_in { IsOnTheWay direction 1 LAST_MONTH month }
    ensures { is_year_matching (P.meaning pattern.now) (pos year) ≡ true
        → FindsForemost day_of_date (IsInMonths (P.meaning pattern.now) direction (pos year) (pos month)) direction result }
{
    let mut from = month;
    while let Some(month) = nearest_value(pattern, Unit::Month, 1, LAST_MONTH, from, direction) {
        if let Some(found) = in_month(pattern, year, month, direction) {
            return Some(found);
        }
        from = neighbour(month, direction)?;
    }
    None
}

// The month with which a year begins in the direction.
#[inline(always)]
fn first_month(direction: Direction) -> u32
    ensures way { IsOnTheWay direction 1 LAST_MONTH result }
    ensures first { (month : ℕ) → IsInRange 1 12 month → Reaches direction (pos result) (pos month) }
{
    match direction {
        Direction::Forward => 1,
        Direction::Backward => LAST_MONTH,
    }
}

// The first date that matches in a named year.
#[tactic(auto, using(crate::proofs::civil::DateSearch::whole_year))]
#[inline(always)]
fn in_year<P: PatternWords>(pattern: &P, year: u32, direction: Direction) -> Option<CivilDate>
    requires shapes { has_field_shapes (P.meaning pattern.now) ≡ true }
    requires year_in { IsInRange FIRST_SEARCHED_YEAR LAST_SEARCHED_YEAR year }
    ensures { is_year_matching (P.meaning pattern.now) (pos year) ≡ true
        → FindsForemost day_of_date (IsInYear (P.meaning pattern.now) (pos year)) direction result }
{
    in_months(pattern, year, first_month(direction), direction)
}

// The same, by the kinds of year that have a day that matches.
fn in_open_year<P: PatternWords>(
    pattern: &P,
    kinds: u32,
    year: u32,
    direction: Direction,
) -> Option<CivilDate>
    requires shapes { has_field_shapes (P.meaning pattern.now) ≡ true }
    requires kinds { AreYearKinds (P.meaning pattern.now) kinds }
    requires year_in { IsInRange FIRST_SEARCHED_YEAR LAST_SEARCHED_YEAR year }
    ensures { is_year_matching (P.meaning pattern.now) (pos year) ≡ true
        → FindsForemost day_of_date (IsInYear (P.meaning pattern.now) (pos year)) direction result }
{
    if has_kind(kinds, year) {
        in_year(pattern, year, direction)
    } else {
        None
    }
}

// The first date that matches in the years from a year on, found by the kinds of the years.
fn in_later_years<P: PatternWords>(
    pattern: &P,
    year: u32,
    direction: Direction,
) -> Option<CivilDate>
    requires shapes { has_field_shapes (P.meaning pattern.now) ≡ true }
    requires year_in { IsOnTheWay direction FIRST_SEARCHED_YEAR LAST_SEARCHED_YEAR year }
    ensures { FindsForemost day_of_date (IsInYears (P.meaning pattern.now) direction (pos year)) direction result }
{
    let kinds = year_kinds(pattern);
    if kinds == 0 {
        return None;
    }
    let mut from = year;
    while let Some(year) = nearest_year(pattern, from, direction) {
        if let Some(found) = in_open_year(pattern, kinds, year, direction) {
            return Some(found);
        }
        from = neighbour(year, direction)?;
    }
    None
}

// The first date that matches in the years from a year on. The first named year is searched itself, those after it by
// their kinds.
#[inline(always)]
fn in_years<P: PatternWords>(pattern: &P, year: u32, direction: Direction) -> Option<CivilDate>
    requires shapes { has_field_shapes (P.meaning pattern.now) ≡ true }
    requires year_in { IsOnTheWay direction FIRST_SEARCHED_YEAR LAST_SEARCHED_YEAR year }
    ensures { FindsForemost day_of_date (IsInYears (P.meaning pattern.now) direction (pos year)) direction result }
{
    let year = nearest_year(pattern, year, direction)?;
    if let Some(found) = in_year(pattern, year, direction) {
        return Some(found);
    }
    in_later_years(pattern, neighbour(year, direction)?, direction)
}

// The first date that matches in the year of a date, in the months after its own.
#[inline(always)]
fn in_rest_of_year<P: PatternWords>(
    pattern: &P,
    date: CivilDate,
    direction: Direction,
) -> Option<CivilDate>
    requires { has_field_shapes (P.meaning pattern.now) ≡ true }
    ensures { FindsForemost day_of_date
        (IsInMonths (P.meaning pattern.now) direction date.year (one_on direction (pos date.month))) direction result }
{
    let year = named_year(pattern, date)?;
    in_months(
        pattern,
        year,
        neighbour(date.month(), direction)?,
        direction,
    )
}

// The first date that matches after a date. `days` are those that match in the month of the date.
#[inline(always)]
fn next_date<P: PatternWords>(
    pattern: &P,
    date: CivilDate,
    days: u32,
    direction: Direction,
) -> Option<CivilDate>
    requires shapes { has_field_shapes (P.meaning pattern.now) ≡ true }
    requires room { has_room direction date.year ≡ true }
    requires days { IsMonthDays (P.meaning pattern.now) date.year date.month days }
    ensures { FindsNearest day_of_date (IsMatchingDate (P.meaning pattern.now)) direction (one_on direction (day_of_date date)) result }
{
    if let Some(day) = day_after(days, date, direction) {
        return Some(CivilDate::from_parts_unchecked(date.year(), date.month(), day));
    }
    if let Some(found) = in_rest_of_year(pattern, date, direction) {
        return Some(found);
    }
    in_years(pattern, year_beyond(date, direction), direction)
}

// The first date that matches after a date, up to the last day that a search reaches.
#[tactic(auto, using(crate::proofs::civil::Foremost::up_to, crate::proofs::civil::Foremost::beyond))]
#[inline(always)]
pub(crate) fn date_after<P: PatternWords>(
    pattern: &P,
    date: CivilDate,
    days: u32,
    direction: Direction,
) -> Option<CivilDate>
    requires shapes { has_field_shapes (P.meaning pattern.now) ≡ true }
    requires room { has_room direction date.year ≡ true }
    requires days { IsMonthDays (P.meaning pattern.now) date.year date.month days }
    ensures { FindsForemost day_of_date (IsAfter (P.meaning pattern.now) direction date) direction result }
{
    let found = next_date(pattern, date, days, direction)?;
    if is_reached(found, direction) {
        Some(found)
    } else {
        None
    }
}
