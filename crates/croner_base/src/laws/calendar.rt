//! The calendar's laws: day numbers count the real dates, weekdays follow them, and civil date-times go in the order
//! of their wall seconds.
ghost use Rattle.std.specs.Prelude.{◌≡◌, ◌↔◌, ℕ, ◌+◌, ◌-◌, ◌%◌, ◌≤◌, ℤ, pos, ◌+ℤ◌, ◌*ℤ◌, ◌≤ℤ◌};
ghost use Rattle.std.specs.Ordering.{int_cmp, nat_cmp};
ghost use Rattle.jiff_core.specs.Calendar.{days_in_month, IsBetween, IsWithin};
ghost use Rattle.croner_base.specs.Calendar.{day_number, weekday_of_day, day_seconds};
ghost use Rattle.croner_base.specs.Calm.{IsSearched, IsInReach, IsStart};
ghost use Rattle.croner_base.specs.Civil.{wall_second, day_of_date, seconds_of_time, weekday_index};
ghost use Rattle.croner_base.specs.Limits.{first_year, last_year};

use crate::time::{CivilDate, CivilDateTime, CivilTime, Weekday};
use std::cmp::Ordering;

/// The day number of a date is the count of real dates from 1970-01-01, negative before it. That date is day 0, and
/// the next day of a month is one more. The first of a month is one more than the last of the month before it, and
/// so is 1 January after 31 December.
pub fn day_numbers_count_dates()
    ensures epoch { day_number (pos 1970) 1 1 ≡ pos 0 }
    ensures next_day { (year : ℤ) (month day : ℕ)
        → day_number year month (day + 1) ≡ day_number year month day +ℤ pos 1 }
    ensures next_month { (year : ℤ) (month : ℕ) → 1 ≤ month
        → day_number year (month + 1) 1 ≡ day_number year month (days_in_month year month) +ℤ pos 1 }
    ensures next_year { (year : ℤ)
        → day_number (year +ℤ pos 1) 1 1 ≡ day_number year 12 31 +ℤ pos 1 }
{}

/// 1970-01-01 was a Thursday, and each day has the weekday after that of the day before it.
pub fn weekdays_follow_days()
    ensures epoch { weekday_of_day (pos 0) ≡ weekday_index Weekday.Thursday }
    ensures next_day { (day : ℤ) → weekday_of_day (day +ℤ pos 1) ≡ (weekday_of_day day + 1) % 7 }
{}

/// A weekday is known by its number of days from Sunday.
pub fn weekday_of_its_number(weekday: Weekday) -> Weekday
    ensures same { result ≡ weekday }
    ensures alone { (other : Weekday) → weekday_index other ≡ weekday_index weekday → other ≡ weekday }
{
    Weekday::from_days_from_sunday(weekday.num_days_from_sunday())
}

/// A day begins with second 0 at midnight, and its last second is number 86,399.
pub fn first_and_last_time_of_a_day() -> (CivilTime, CivilTime)
    ensures first { seconds_of_time result.0 ≡ 0 }
    ensures last { seconds_of_time result.1 + 1 ≡ day_seconds }
{
    (CivilTime::MIDNIGHT, CivilTime::END_OF_DAY)
}

/// Dates compare as their day numbers do.
pub fn date_order_is_chronological(date: CivilDate, other: CivilDate) -> Ordering
    ensures { result ≡ int_cmp (day_of_date date) (day_of_date other) }
{
    date.cmp(&other)
}

/// Times of day compare as their seconds since midnight do.
pub fn time_order_is_chronological(time: CivilTime, other: CivilTime) -> Ordering
    ensures { result ≡ nat_cmp (seconds_of_time time) (seconds_of_time other) }
{
    time.cmp(&other)
}

/// Civil date-times compare as their wall seconds do.
pub fn order_is_chronological(left: CivilDateTime, right: CivilDateTime) -> Ordering
    ensures { result ≡ int_cmp (wall_second left) (wall_second right) }
{
    left.cmp(&right)
}

/// No two civil date-times have one wall second.
pub fn wall_second_has_one_date_time(left: CivilDateTime, right: CivilDateTime)
    ensures { wall_second left ≡ wall_second right → left ≡ right }
{}

/// A civil date-time has a year or a later one exactly from that year's first second on.
pub fn year_begins_on_its_first_day(civil: CivilDateTime)
    ensures { (year : ℤ)
        → (year ≤ℤ civil.date.year) ↔ ((day_number year 1 1 *ℤ pos day_seconds) ≤ℤ wall_second civil) }
{}

/// A pattern can name the wall seconds of the years 1 to 5000. A search, wherever it starts, needs a clock that holds
/// the years 0 to 5001. The laws of [`clocks`](crate::laws::clocks) and [`tables`](crate::laws::tables) promise that a
/// clock holds all that a search needs from a start in the years -9997 to 9997.
pub fn years_of_the_limits(civil: CivilDateTime)
    ensures searched { IsSearched (wall_second civil) ↔ IsBetween (pos first_year) (pos last_year) civil.date.year }
    ensures needed { IsInReach (wall_second civil) ↔ IsBetween (pos (first_year - 1)) (pos (last_year + 1)) civil.date.year }
    ensures start { IsStart (wall_second civil) ↔ IsWithin 9997 civil.date.year }
{}
