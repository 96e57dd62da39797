//! Months as numbers.
ghost use Rattle.std.specs.Prelude.{◌≡◌, ◌≤◌, ◌+◌, ◌%◌, ◌+ℤ◌, ◌-ℤ◌, ◌*ℤ◌, pos};
ghost use Rattle.croner_base.specs.Calendar.{weekday_of_day};
ghost use Rattle.croner_base.specs.Civil.{HasYmd};
ghost use Rattle.cronplan.specs.Days.{dates_between};
ghost use Rattle.cronplan.specs.Private.CountedPlan.{IsDateNumber};
ghost use Rattle.cronplan_forms.specs.PlanMonths.{days_of, first_of, month_name, month_of, place_in_year, year_of};
ghost use Rattle.cronplan_forms.specs.Private.DatedTitles.{IsMonthNumber};

use crate::date_name::DateName;
use croner_base::limits::SECONDS_PER_DAY;
use croner_base::time::{CivilDate, CivilDateTime, CivilTime, days_in_month};
use std::fmt;

const MONTHS_PER_YEAR: i64 = 12;

/// The days from a Monday to the Sunday after it.
const MONDAY_TO_SUNDAY: u32 = 6;

const DAYS_PER_WEEK: u32 = 7;

/// A month of a year of 32 bits. As a text it is `March 2027`.
#[derive(Clone, Copy)]
pub(crate) struct MonthNumber {
    /// How many months it comes after January of year 0, negative before it.
    pub number: i64,
    ghost held: { IsMonthNumber number },
}

impl MonthNumber {
    /// The month of a date; January of year 0 where no year of 32 bits has it.
    pub(crate) fn of(date: DateName) -> MonthNumber
        ensures { result.number ≡ month_of date.civil }
    {
        match date.civil {
            Some(civil) => MonthNumber::of_date(civil.date()),
            None => MonthNumber { number: 0 },
        }
    }

    // The month of a date of a year of 32 bits.
    fn of_date(date: CivilDate) -> MonthNumber
        ensures { result.number ≡ date.year *ℤ pos 12 +ℤ pos date.month -ℤ pos 1 }
    {
        let number = i64::from(date.year()) * MONTHS_PER_YEAR + i64::from(date.month()) - 1;
        MonthNumber { number }
    }

    /// How many months there are from it to another.
    pub(crate) fn months_until(self, last: MonthNumber) -> u64
        ensures { result ≡ dates_between self.number last.number }
    {
        if last.number < self.number {
            return 0;
        }
        self.number.abs_diff(last.number) + 1
    }

    /// The month so many months later.
    pub(crate) fn months_later(self, months: u64) -> MonthNumber
        requires { IsMonthNumber (self.number +ℤ pos months) }
        ensures { result.number ≡ self.number +ℤ pos months }
    {
        MonthNumber {
            number: self.number + months as i64,
        }
    }

    // The year.
    fn year(self) -> i32
        ensures { result ≡ year_of self.number }
    {
        self.number.div_euclid(MONTHS_PER_YEAR) as i32
    }

    // Which one of its year it is, from 1 to 12.
    fn place(self) -> u32
        ensures value { result ≡ place_in_year self.number }
        ensures low { 1 ≤ result }
        ensures high { result ≤ 12 }
    {
        self.number.rem_euclid(MONTHS_PER_YEAR) as u32 + 1
    }

    /// How many days it has.
    pub(crate) fn days(self) -> u32
        ensures value { result ≡ days_of self.number }
        ensures few { result ≤ 31 }
    {
        days_in_month(self.year(), self.place())
    }

    /// Its first date, counted from 1970-01-01.
    pub(crate) fn first_date(self) -> i64
        ensures value { result ≡ first_of self.number }
        ensures bound { IsDateNumber result }
    {
        let date = self.first_day();
        let begin = CivilDateTime::new(date, CivilTime::MIDNIGHT);
        begin.wall_second().div_euclid(i64::from(SECONDS_PER_DAY))
    }

    // Its first day.
    fn first_day(self) -> CivilDate
        ensures { HasYmd (year_of self.number) (place_in_year self.number) 1 result }
    {
        let days = days_in_month(self.year(), self.place());
        prove!(days >= 1);
        CivilDate::from_parts_unchecked(self.year(), self.place(), 1)
    }

    /// The weekday of its first day, from 0 for Monday.
    pub(crate) fn first_weekday(self) -> usize
        ensures { result ≡ (weekday_of_day (first_of self.number) + 6) % 7 }
    {
        let weekday = DateName::of(self.first_date()).weekday;
        let days = weekday.num_days_from_sunday();
        ((days + MONDAY_TO_SUNDAY) % DAYS_PER_WEEK) as usize
    }
}

impl fmt::Display for MonthNumber {
    ghost use Rattle.std.specs.Prelude.{Some};
    ghost use Rattle.cronplan_forms.specs.PlanMonths.{name_text};

    ghost output = { λ m. Some (name_text m.number) };

    fn fmt<W: fmt::Write>(&self, f: &mut fmt::Formatter<W>) -> fmt::Result {
        let (name, year) = (month_name(self.place()), self.year());
        write!(f, "{name} {year}")
    }
}

// The name of a month of a year, of 1 to 12.
fn month_name(place: u32) -> &'static str
    ensures { result.now ≡ month_name place }
{
    match place {
        1 => "January",
        2 => "February",
        3 => "March",
        4 => "April",
        5 => "May",
        6 => "June",
        7 => "July",
        8 => "August",
        9 => "September",
        10 => "October",
        11 => "November",
        _ => "December",
    }
}
