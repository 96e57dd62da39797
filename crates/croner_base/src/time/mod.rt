//! The calendar, dates and times without a zone, and the trait through which a search uses a date and time library.
//!
//! The calendar is the proleptic Gregorian one: today's rules apply to all the past, year 0 comes before year 1, and
//! the years before year 0 are negative. A day has 86,400 seconds.
ghost use Rattle.std.specs.Prelude.{◌≡◌};
ghost use Rattle.std.specs.Int.{IsInRange};
ghost use Rattle.jiff_core.specs.Calendar.{is_leap_year as leap, days_in_month as month_days, days_in_year as year_days};
ghost use Rattle.croner_base.specs.Calendar.{IsRealDate, place_in_year};

mod civil;
mod clocked;
pub mod jiff_impl;
pub mod table;
mod value;

pub use civil::{CivilDate, CivilDateTime, CivilTime, Weekday};
pub use clocked::Clocked;
pub use value::{CronDateTime, Resolution};

/// The way in which a search goes through time.
#[derive(Debug, Clone, Copy, PartialEq, Eq, PartialOrd, Ord, Hash)]
pub enum Direction {
    /// To later instants.
    Forward,
    /// To earlier instants.
    Backward,
}

/// A part of a date and time, from the finest.
#[derive(Debug, Clone, Copy, PartialEq, Eq, PartialOrd, Ord, Hash)]
pub enum TimeComponent {
    /// The second of the minute.
    Second = 1,
    /// The minute of the hour.
    Minute,
    /// The hour of the day.
    Hour,
    /// The day of the month.
    Day,
    /// The month of the year.
    Month,
    /// The year.
    Year,
}

/// The last year that a pattern can name.
pub const YEAR_UPPER_LIMIT: i32 = 5000;

/// The first year that a pattern can name.
pub const YEAR_LOWER_LIMIT: i32 = 1;

/// Whether a year has a 29 February: years divisible by 4, except those divisible by 100 and not by 400.
///
/// ```
/// let leap = is_leap_year(2000); // true
/// let common = is_leap_year(1900); // false
/// ```
pub fn is_leap_year(year: i32) -> bool
    ensures { result ≡ leap year }
{
    if year % 100 == 0 {
        year % 400 == 0
    } else {
        year % 4 == 0
    }
}

/// How many days a year has: 366 where it is a leap year, and 365 otherwise.
///
/// ```
/// let days = days_in_year(2024); // 366
/// ```
pub fn days_in_year(year: i32) -> u32
    ensures { result ≡ year_days year }
{
    365 + u32::from(is_leap_year(year))
}

/// How many days a month of a year has, from 28 to 31. The caller makes sure that the month is from 1 to 12.
///
/// ```
/// let days = days_in_month(2024, 2); // 29
/// ```
pub fn days_in_month(year: i32, month: u32) -> u32
    requires { IsInRange 1 12 month }
    ensures value { result ≡ month_days year month }
    ensures bound { IsInRange 28 31 result }
{
    match month {
        2 => 28 + u32::from(is_leap_year(year)),
        4 | 6 | 9 | 11 => 30,
        _ => 31,
    }
}

/// The place of a date in its year, from 1 for 1 January. The caller makes sure that the date exists.
///
/// ```
/// let place = day_of_year(2024, 3, 1); // 61
/// ```
pub fn day_of_year(year: i32, month: u32, day: u32) -> u32
    requires { IsRealDate year month day }
    ensures { result ≡ place_in_year year month day }
{
    // The days of the year before each month, where February has 28 days.
    const DAYS_GONE: [u32; 12] = [0, 31, 59, 90, 120, 151, 181, 212, 243, 273, 304, 334];

    let leap_day = u32::from(month > 2 && is_leap_year(year));
    DAYS_GONE[month as usize - 1] + leap_day + day
}
