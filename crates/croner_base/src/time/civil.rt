//! Dates and times of day without a zone, and weekdays.
ghost use Rattle.std.specs.Prelude.{◌≡◌, ◌↔◌, ◌+◌, ◌<◌, ◌%◌, ℤ, pos, neg_ℤ, ◌+ℤ◌, unsigned_abs, Some, IsSome, IfSome, MatchOption, IsOk, IfOk, IfErr, FitsSigned};
ghost use Rattle.std.specs.Int.{int_rem_euclid};
ghost use mir.Syntax.{w32};
ghost use Rattle.jiff_core.specs.Calendar.{days_in_month as month_days, IsBetween};
ghost use Rattle.croner_base.specs.Calendar.{IsRealDate, place_in_year, day_seconds};
ghost use Rattle.croner_base.specs.CivilText.{date_text, time_text, datetime_text};

use crate::errors::CronError;
use crate::limits::{
    DAYS_PER_WEEK, FIRST_DAY_NUMBER, LAST_HOUR, LAST_MINUTE, LAST_MONTH, LAST_SECOND,
    SECONDS_PER_DAY,
};
use crate::time::{day_of_year, days_in_month};
use jiff_core::civil::Date;
use std::fmt;

/// The calendar repeats after this many years.
const YEARS_PER_PERIOD: i32 = 400;

/// The days in these years.
const DAYS_PER_PERIOD: i64 = 146_097;

/// A day of the week. Weekdays are counted and ordered from Sunday, as cron does.
#[derive(Debug, Clone, Copy, PartialEq, Eq, PartialOrd, Ord, Hash)]
pub enum Weekday {
    /// Day 0 of the week.
    Sunday = 0,
    /// Day 1.
    Monday = 1,
    /// Day 2.
    Tuesday = 2,
    /// Day 3.
    Wednesday = 3,
    /// Day 4.
    Thursday = 4,
    /// Day 5.
    Friday = 5,
    /// Day 6.
    Saturday = 6,
}

impl Weekday {
    ghost use Rattle.croner_base.specs.Civil.{weekday_index};

    /// How many days it is after Sunday: 0 to 6.
    ///
    /// ```
    /// let days = Weekday::Friday.num_days_from_sunday(); // 5
    /// ```
    pub fn num_days_from_sunday(self) -> u32
        ensures value { result ≡ weekday_index self }
        ensures bound { result < 7 }
    {
        self as u32
    }

    /// The weekday that many days after a Sunday. It undoes `num_days_from_sunday`, and whole weeks don't matter.
    ///
    /// ```
    /// let friday = Weekday::from_days_from_sunday(5);
    /// let sunday = Weekday::from_days_from_sunday(14);
    /// ```
    pub fn from_days_from_sunday(days: u32) -> Weekday
        ensures { weekday_index result ≡ days % 7 }
    {
        const WEEK: [Weekday; 7] = [
            Weekday::Sunday,
            Weekday::Monday,
            Weekday::Tuesday,
            Weekday::Wednesday,
            Weekday::Thursday,
            Weekday::Friday,
            Weekday::Saturday,
        ];

        WEEK[days as usize % WEEK.len()]
    }

    /// The weekday `days` days later, or earlier where it is negative. The caller makes sure that the sum of
    /// `days` and this weekday's number fits an `i32`.
    ///
    /// ```
    /// let tuesday = Weekday::Sunday.shift(-5);
    /// ```
    pub fn shift(self, days: i32) -> Weekday
        requires { FitsSigned w32 (pos (weekday_index self) +ℤ days) }
        ensures { weekday_index result
            ≡ unsigned_abs (int_rem_euclid (pos (weekday_index self) +ℤ days) (pos 7)) }
    {
        let number = self as i32 + days;
        Weekday::from_days_from_sunday(number.rem_euclid(DAYS_PER_WEEK as i32) as u32)
    }
}

/// A date that exists: a year, a month from 1 to 12, and a day of that month from 1. An earlier date is less.
///
/// ```
/// let date = CivilDate::from_ymd(2024, 7, 1)?;
/// let (year, month, day) = (date.year(), date.month(), date.day()); // 2024, 7, 1
/// ```
#[derive(Debug, Clone, Copy, PartialEq, Eq, PartialOrd, Ord, Hash)]
pub struct CivilDate {
    year: i32,
    month: u8,
    day: u8,
    pub ghost real: { IsRealDate year month day },
}

impl CivilDate {
    ghost use Rattle.croner_base.specs.Civil.{HasYmd, day_of_date};

    /// The date of these parts, or `None` where the calendar has no such date.
    ///
    /// ```
    /// let leap_day = CivilDate::from_ymd_opt(2024, 2, 29); // Some
    /// let none = CivilDate::from_ymd_opt(2023, 2, 29); // None
    /// ```
    pub fn from_ymd_opt(year: i32, month: u32, day: u32) -> Option<CivilDate>
        ensures some { IsSome result ↔ IsRealDate year month day }
        ensures value { IfSome result (HasYmd year month day) }
    {
        if month < 1 || month > LAST_MONTH || day < 1 || day > days_in_month(year, month) {
            return None;
        }
        Some(CivilDate::from_parts_unchecked(year, month, day))
    }

    /// The date of these parts. `InvalidDate` where the calendar has no such date.
    ///
    /// ```
    /// let date = CivilDate::from_ymd(2024, 7, 1)?; // 2024-07-01
    /// let refused = CivilDate::from_ymd(2024, 6, 31); // Err(InvalidDate)
    /// ```
    pub fn from_ymd(year: i32, month: u32, day: u32) -> Result<CivilDate, CronError>
        ensures ok { IsOk result ↔ IsRealDate year month day }
        ensures value { IfOk result (HasYmd year month day) }
        ensures err { IfErr result (λ e. e ≡ CronError.InvalidDate) }
    {
        CivilDate::from_ymd_opt(year, month, day).ok_or(CronError::InvalidDate)
    }

    /// The date of these parts. The caller makes sure that it exists: nothing is checked at run time.
    pub fn from_parts_unchecked(year: i32, month: u32, day: u32) -> CivilDate
        requires { IsRealDate year month day }
        ensures { HasYmd year month day result }
    {
        CivilDate {
            year,
            month: month as u8,
            day: day as u8,
        }
    }

    /// The year. Year 0 lies before year 1.
    pub fn year(self) -> i32
        ensures { result ≡ self.year }
    {
        self.year
    }

    /// The month of the year: 1 to 12.
    pub fn month(self) -> u32
        ensures { result ≡ self.month }
    {
        self.month as u32
    }

    /// The day of the month: 1 to 31.
    pub fn day(self) -> u32
        ensures { result ≡ self.day }
    {
        self.day as u32
    }

    /// How many days the date's month has: 28 to 31.
    ///
    /// ```
    /// let days = CivilDate::from_ymd(2024, 2, 10)?.days_in_month(); // 29
    /// ```
    pub fn days_in_month(self) -> u32
        ensures { result ≡ month_days self.year self.month }
    {
        days_in_month(self.year, self.month())
    }

    /// The place of the date in its year: 1 to 366.
    ///
    /// ```
    /// let place = CivilDate::from_ymd(2024, 12, 31)?.day_of_year(); // 366
    /// ```
    pub fn day_of_year(self) -> u32
        ensures { result ≡ place_in_year self.year self.month self.day }
    {
        day_of_year(self.year, self.month(), self.day())
    }

    // How many days after 1970-01-01 it is, negative before it: that of the same date in the years 0 to 399, plus the
    // days of the periods between.
    fn day_number(self) -> i64
        ensures value { result ≡ day_of_date self }
        ensures bound { IsBetween (neg_ℤ (pos 1_000_000_000_000)) (pos 1_000_000_000_000) result }
    {
        let date = Date {
            year: self.year.rem_euclid(YEARS_PER_PERIOD) as i16,
            month: self.month,
            day: self.day,
        };
        let periods = self.year.div_euclid(YEARS_PER_PERIOD) as i64;
        date.to_unix_epoch_day() as i64 + periods * DAYS_PER_PERIOD
    }

    // The date that many days after 1970-01-01, or before it where negative. `None` where its year doesn't fit an `i32`.
    fn of_day_number(day: i64) -> Option<CivilDate>
        ensures { MatchOption result ((date : CivilDate) → FitsSigned w32 date.year → ¬ (day_of_date date ≡ day)) (λ date. day_of_date date ≡ day) }
    {
        let days = day.rem_euclid(DAYS_PER_PERIOD);
        let date = Date::from_days_since_min((days - FIRST_DAY_NUMBER) as u32);
        let years = day.div_euclid(DAYS_PER_PERIOD) * YEARS_PER_PERIOD as i64;
        match i32::try_from(years + date.year as i64) {
            Ok(year) => Some(CivilDate::from_parts_unchecked(
                year,
                date.month as u32,
                date.day as u32,
            )),
            Err(_) => None,
        }
    }
}

/// Year, month and day with `-` between them: the year in at least four places with leading zeros, of which a
/// minus sign takes one; month and day in two. `2024-07-01`, `-005-01-01`.
impl fmt::Display for CivilDate {
    ghost output = { λ d. Some (date_text d.year d.month d.day) };

    fn fmt<W: fmt::Write>(&self, f: &mut fmt::Formatter<W>) -> fmt::Result {
        let (year, month, day) = (self.year, self.month, self.day);
        write!(f, "{year:04}-{month:02}-{day:02}")
    }
}

/// A time of day to the second: an hour from 0 to 23, a minute and a second from 0 to 59. There are no leap seconds.
/// An earlier time is less.
///
/// ```
/// let end = CivilTime::END_OF_DAY;
/// let (hour, minute, second) = (end.hour(), end.minute(), end.second()); // 23, 59, 59
/// ```
#[derive(Debug, Clone, Copy, PartialEq, Eq, PartialOrd, Ord, Hash)]
pub struct CivilTime {
    hour: u8,
    minute: u8,
    second: u8,
    pub ghost hour_in: { hour < 24 },
    pub ghost minute_in: { minute < 60 },
    pub ghost second_in: { second < 60 },
}

impl CivilTime {
    ghost use Rattle.croner_base.specs.Civil.{HasHms, IsTimeOfDay, seconds_of_time};

    /// 00:00:00, where each day begins.
    pub const MIDNIGHT: CivilTime = CivilTime {
        hour: 0,
        minute: 0,
        second: 0,
    };

    /// 23:59:59, the last second of each day.
    pub const END_OF_DAY: CivilTime = CivilTime {
        hour: LAST_HOUR as u8,
        minute: LAST_MINUTE as u8,
        second: LAST_SECOND as u8,
    };

    /// The time of these parts, or `None` where one of them is out of its range.
    ///
    /// ```
    /// let time = CivilTime::from_hms_opt(9, 30, 0); // Some: 09:30:00
    /// let none = CivilTime::from_hms_opt(24, 0, 0); // None
    /// ```
    pub fn from_hms_opt(hour: u32, minute: u32, second: u32) -> Option<CivilTime>
        ensures some { IsSome result ↔ IsTimeOfDay hour minute second }
        ensures value { IfSome result (HasHms hour minute second) }
    {
        if hour > LAST_HOUR || minute > LAST_MINUTE || second > LAST_SECOND {
            return None;
        }
        Some(CivilTime::from_parts_unchecked(hour, minute, second))
    }

    /// The time of these parts. The caller makes sure that they are in range: nothing is checked at run time.
    pub fn from_parts_unchecked(hour: u32, minute: u32, second: u32) -> CivilTime
        requires hour { hour < 24 }
        requires minute { minute < 60 }
        requires second { second < 60 }
        ensures { HasHms hour minute second result }
    {
        CivilTime {
            hour: hour as u8,
            minute: minute as u8,
            second: second as u8,
        }
    }

    /// The hour of the day: 0 to 23.
    pub fn hour(self) -> u32
        ensures { result ≡ self.hour }
    {
        self.hour as u32
    }

    /// The minute of the hour: 0 to 59.
    pub fn minute(self) -> u32
        ensures { result ≡ self.minute }
    {
        self.minute as u32
    }

    /// The second of the minute: 0 to 59.
    pub fn second(self) -> u32
        ensures { result ≡ self.second }
    {
        self.second as u32
    }

    /// The time that many seconds after midnight.
    pub(crate) fn from_seconds_of_day(seconds: u32) -> CivilTime
        requires { seconds < day_seconds }
        ensures { seconds_of_time result ≡ seconds }
    {
        let minutes = seconds / 60;
        CivilTime {
            hour: (minutes / 60) as u8,
            minute: (minutes % 60) as u8,
            second: (seconds % 60) as u8,
        }
    }

    /// The seconds since midnight: 0 to 86,399.
    pub(crate) fn seconds_of_day(self) -> i64
        ensures { result ≡ pos (seconds_of_time self) }
    {
        let minutes = self.hour as i64 * 60 + self.minute as i64;
        minutes * 60 + self.second as i64
    }
}

/// `HH:MM:SS`, each in two places.
impl fmt::Display for CivilTime {
    ghost output = { λ t. Some (time_text t.hour t.minute t.second) };

    fn fmt<W: fmt::Write>(&self, f: &mut fmt::Formatter<W>) -> fmt::Result {
        let (hour, minute, second) = (self.hour, self.minute, self.second);
        write!(f, "{hour:02}:{minute:02}:{second:02}")
    }
}

/// A date and a time of day to the second, as a wall clock without a zone shows them. An earlier one is less.
///
/// ```
/// let start = CivilDateTime::from_ymd_hms(2024, 7, 1, 9, 30, 0)?;
/// let (date, time) = (start.date(), start.time()); // 2024-07-01, 09:30:00
/// let (month, hour) = (start.month(), start.hour()); // 7, 9
/// ```
#[derive(Debug, Clone, Copy, PartialEq, Eq, PartialOrd, Ord, Hash)]
pub struct CivilDateTime {
    date: CivilDate,
    time: CivilTime,
}

impl CivilDateTime {
    ghost use Rattle.croner_base.specs.Civil.{HasYmd, HasHms, IsTimeOfDay, wall_second};

    /// That time of that date.
    ///
    /// ```
    /// let date = CivilDate::from_ymd(2024, 7, 1)?;
    /// let start = CivilDateTime::new(date, CivilTime::MIDNIGHT); // 2024-07-01T00:00:00
    /// ```
    pub fn new(date: CivilDate, time: CivilTime) -> CivilDateTime
        ensures date { result.date ≡ date }
        ensures time { result.time ≡ time }
    {
        CivilDateTime { date, time }
    }

    /// The date and time of these parts, or `None` where there is no such date or no such time of day.
    ///
    /// ```
    /// let time = CivilDateTime::from_ymd_hms_opt(2024, 7, 1, 9, 30, 0); // Some: 2024-07-01T09:30:00
    /// let none = CivilDateTime::from_ymd_hms_opt(2024, 7, 1, 9, 60, 0); // None
    /// ```
    pub fn from_ymd_hms_opt(
        year: i32,
        month: u32,
        day: u32,
        hour: u32,
        minute: u32,
        second: u32,
    ) -> Option<CivilDateTime>
        ensures some { IsSome result
            ↔ (IsRealDate year month day × IsTimeOfDay hour minute second) }
        ensures date { IfSome result (λ c. HasYmd year month day c.date) }
        ensures time { IfSome result (λ c. HasHms hour minute second c.time) }
    {
        let date = CivilDate::from_ymd_opt(year, month, day)?;
        let time = CivilTime::from_hms_opt(hour, minute, second)?;
        Some(CivilDateTime::new(date, time))
    }

    /// The date and time of these parts. `InvalidDate` where there is no such date, whatever the time; `InvalidTime`
    /// where the date exists and the time of day doesn't.
    ///
    /// ```
    /// let time = CivilDateTime::from_ymd_hms(2024, 7, 1, 9, 30, 0)?; // 2024-07-01T09:30:00
    /// let no_date = CivilDateTime::from_ymd_hms(2024, 6, 31, 24, 0, 0); // Err(InvalidDate)
    /// let no_time = CivilDateTime::from_ymd_hms(2024, 7, 1, 24, 0, 0); // Err(InvalidTime)
    /// ```
    pub fn from_ymd_hms(
        year: i32,
        month: u32,
        day: u32,
        hour: u32,
        minute: u32,
        second: u32,
    ) -> Result<CivilDateTime, CronError>
        ensures ok { IsOk result ↔ (IsRealDate year month day × IsTimeOfDay hour minute second) }
        ensures date { IfOk result (λ c. HasYmd year month day c.date) }
        ensures time { IfOk result (λ c. HasHms hour minute second c.time) }
        ensures no_date { IfErr result (λ e. ¬ IsRealDate year month day → e ≡ CronError.InvalidDate) }
        ensures no_time { IfErr result (λ e. IsRealDate year month day → e ≡ CronError.InvalidTime) }
    {
        let date = CivilDate::from_ymd(year, month, day)?;
        let time = CivilTime::from_hms_opt(hour, minute, second).ok_or(CronError::InvalidTime)?;
        Ok(CivilDateTime::new(date, time))
    }

    /// The date.
    pub fn date(self) -> CivilDate
        ensures { result ≡ self.date }
    {
        self.date
    }

    /// The time of day.
    pub fn time(self) -> CivilTime
        ensures { result ≡ self.time }
    {
        self.time
    }

    /// The year of the date.
    pub fn year(self) -> i32
        ensures { result ≡ self.date.year }
    {
        self.date.year()
    }

    /// The month of the date: 1 to 12.
    pub fn month(self) -> u32
        ensures { result ≡ self.date.month }
    {
        self.date.month()
    }

    /// The day of the month: 1 to 31.
    pub fn day(self) -> u32
        ensures { result ≡ self.date.day }
    {
        self.date.day()
    }

    /// The hour of the day: 0 to 23.
    pub fn hour(self) -> u32
        ensures { result ≡ self.time.hour }
    {
        self.time.hour()
    }

    /// The minute of the hour: 0 to 59.
    pub fn minute(self) -> u32
        ensures { result ≡ self.time.minute }
    {
        self.time.minute()
    }

    /// The second of the minute: 0 to 59.
    pub fn second(self) -> u32
        ensures { result ≡ self.time.second }
    {
        self.time.second()
    }

    /// Its wall second: the seconds since 1970-01-01T00:00:00 on a clock whose days have 86,400 seconds, negative before
    /// it.
    ///
    /// ```
    /// let start = CivilDateTime::from_ymd_hms(2024, 7, 1, 9, 30, 0)?;
    /// let second = start.wall_second(); // 1719826200
    /// ```
    pub fn wall_second(self) -> i64
        ensures { result ≡ wall_second self }
    {
        self.date.day_number() * SECONDS_PER_DAY as i64 + self.time.seconds_of_day()
    }

    /// The date and time of a wall second: it undoes `wall_second`. `None` where its year doesn't fit an `i32`,
    /// -2,147,483,648 to 2,147,483,647.
    ///
    /// ```
    /// let start = CivilDateTime::of_wall_second(1_719_826_200); // Some: 2024-07-01T09:30:00
    /// let none = CivilDateTime::of_wall_second(i64::MAX); // None
    /// ```
    pub fn of_wall_second(second: i64) -> Option<CivilDateTime>
        ensures { MatchOption result ((civil : CivilDateTime) → FitsSigned w32 civil.date.year → ¬ (wall_second civil ≡ second)) (λ civil. wall_second civil ≡ second) }
    {
        let time = CivilTime::from_seconds_of_day(second.rem_euclid(SECONDS_PER_DAY as i64) as u32);
        match CivilDate::of_day_number(second.div_euclid(SECONDS_PER_DAY as i64)) {
            Some(date) => Some(CivilDateTime::new(date, time)),
            None => None,
        }
    }
}

/// The date, a `T` and the time: `2024-07-01T09:30:00`.
impl fmt::Display for CivilDateTime {
    ghost output = { λ c. Some (datetime_text c.date.year c.date.month c.date.day c.time.hour c.time.minute c.time.second) };

    fn fmt<W: fmt::Write>(&self, f: &mut fmt::Formatter<W>) -> fmt::Result {
        let (date, time) = (self.date, self.time);
        write!(f, "{date}T{time}")
    }
}
