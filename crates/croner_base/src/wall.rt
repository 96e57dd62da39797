//! Steps along the wall clock: to the next or the previous second or day.
ghost use Rattle.std.specs.Prelude.{◌≡◌, ◌+◌, ◌-◌, pos, ◌+ℤ◌, ◌-ℤ◌, MatchOption};
ghost use Rattle.croner_base.specs.Calendar.{day_seconds};
ghost use Rattle.croner_base.specs.Civil.{wall_second, day_of_date, seconds_of_time};
ghost use Rattle.croner_base.specs.Ends.{IsLastDate, IsFirstDate};

use crate::limits::{LAST_HOUR, LAST_MINUTE, LAST_MONTH, LAST_SECOND};
use crate::time::{CivilDate, CivilDateTime, CivilTime, days_in_month};

/// The last day of December.
const LAST_DAY_OF_YEAR: u32 = 31;

// The next second of the same day.
#[inline(always)]
fn time_after(time: CivilTime) -> Option<CivilTime>
    ensures { MatchOption result (seconds_of_time time ≡ day_seconds - 1)
        (λ moved. seconds_of_time moved ≡ seconds_of_time time + 1) }
{
    let (hour, minute, second) = (time.hour(), time.minute(), time.second());
    if second < LAST_SECOND {
        Some(CivilTime::from_parts_unchecked(hour, minute, second + 1))
    } else if minute < LAST_MINUTE {
        Some(CivilTime::from_parts_unchecked(hour, minute + 1, 0))
    } else if hour < LAST_HOUR {
        Some(CivilTime::from_parts_unchecked(hour + 1, 0, 0))
    } else {
        None
    }
}

// The previous second of the same day.
#[inline(always)]
fn time_before(time: CivilTime) -> Option<CivilTime>
    ensures { MatchOption result (seconds_of_time time ≡ 0)
        (λ moved. seconds_of_time moved + 1 ≡ seconds_of_time time) }
{
    let (hour, minute, second) = (time.hour(), time.minute(), time.second());
    if second > 0 {
        Some(CivilTime::from_parts_unchecked(hour, minute, second - 1))
    } else if minute > 0 {
        Some(CivilTime::from_parts_unchecked(hour, minute - 1, LAST_SECOND))
    } else if hour > 0 {
        Some(CivilTime::from_parts_unchecked(hour - 1, LAST_MINUTE, LAST_SECOND))
    } else {
        None
    }
}

/// The next day. `None` after 31 December of the last year of `i32`, 2,147,483,647.
#[tactic(auto, using(crate::proofs::calendar::WallSteps::days_after))]
pub fn day_after(date: CivilDate) -> Option<CivilDate>
    ensures { MatchOption result (IsLastDate date) (λ moved. day_of_date moved ≡ day_of_date date +ℤ pos 1) }
{
    let (year, month, day) = (date.year(), date.month(), date.day());
    if day < date.days_in_month() {
        Some(CivilDate::from_parts_unchecked(year, month, day + 1))
    } else if month < LAST_MONTH {
        Some(CivilDate::from_parts_unchecked(year, month + 1, 1))
    } else if year < i32::MAX {
        Some(CivilDate::from_parts_unchecked(year + 1, 1, 1))
    } else {
        None
    }
}

/// The previous day. `None` before 1 January of the first year of `i32`, -2,147,483,648.
#[tactic(auto, using(crate::proofs::calendar::WallSteps::days_before))]
pub fn day_before(date: CivilDate) -> Option<CivilDate>
    ensures { MatchOption result (IsFirstDate date) (λ moved. day_of_date moved ≡ day_of_date date -ℤ pos 1) }
{
    let (year, month, day) = (date.year(), date.month(), date.day());
    if day > 1 {
        Some(CivilDate::from_parts_unchecked(year, month, day - 1))
    } else if month > 1 {
        let last = days_in_month(year, month - 1);
        Some(CivilDate::from_parts_unchecked(year, month - 1, last))
    } else if year > i32::MIN {
        Some(CivilDate::from_parts_unchecked(year - 1, LAST_MONTH, LAST_DAY_OF_YEAR))
    } else {
        None
    }
}

/// The next second: `2024-02-29T00:00:00` after `2024-02-28T23:59:59`. `None` after the last second of the last year of
/// `i32`.
#[tactic(auto, using(crate::proofs::calendar::WallSteps::seconds_after))]
#[inline(always)]
pub fn second_after(civil: CivilDateTime) -> Option<CivilDateTime>
    ensures { MatchOption result (IsLastDate civil.date × (seconds_of_time civil.time ≡ day_seconds - 1))
        (λ moved. wall_second moved ≡ wall_second civil +ℤ pos 1) }
{
    match time_after(civil.time()) {
        Some(time) => Some(CivilDateTime::new(civil.date(), time)),
        None => match day_after(civil.date()) {
            Some(date) => Some(CivilDateTime::new(date, CivilTime::MIDNIGHT)),
            None => None,
        },
    }
}

/// The previous second: `2023-12-31T23:59:59` before `2024-01-01T00:00:00`. `None` before the first second of the first
/// year of `i32`.
#[tactic(auto, using(crate::proofs::calendar::WallSteps::seconds_before))]
#[inline(always)]
pub fn second_before(civil: CivilDateTime) -> Option<CivilDateTime>
    ensures { MatchOption result (IsFirstDate civil.date × (seconds_of_time civil.time ≡ 0))
        (λ moved. wall_second moved ≡ wall_second civil -ℤ pos 1) }
{
    match time_before(civil.time()) {
        Some(time) => Some(CivilDateTime::new(civil.date(), time)),
        None => match day_before(civil.date()) {
            Some(date) => Some(CivilDateTime::new(date, CivilTime::END_OF_DAY)),
            None => None,
        },
    }
}
