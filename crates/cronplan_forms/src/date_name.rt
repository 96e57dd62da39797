//! The names of dates.
ghost use Rattle.std.specs.Prelude.{◌≡◌};
ghost use Rattle.croner_base.specs.Calendar.{weekday_of_day};
ghost use Rattle.croner_base.specs.Civil.{weekday_index};
ghost use Rattle.cronplan_forms.specs.DateNames.{IsDateName, date_of_wall, short_month_name, second_of_date};

use crate::clock::weekday_text;
use croner_base::limits::SECONDS_PER_DAY;
use croner_base::time::{CivilDateTime, Weekday};
use std::fmt;

const DAYS_PER_WEEK: i128 = 7;

/// The weekday of 1970-01-01, as days after a Sunday.
const THURSDAY: i128 = 4;

/// A date with its name: `Sun 28 Mar`, ten columns wide.
#[derive(Clone, Copy)]
pub struct DateName {
    /// The date, counted from 1970-01-01.
    pub date: i64,
    pub weekday: Weekday,
    /// Its beginning. `None` where its year doesn't fit 32 bits.
    pub civil: Option<CivilDateTime>,
}

impl DateName {
    /// The name of a date, which is counted from 1970-01-01.
    pub fn of(date: i64) -> DateName
        ensures { IsDateName date result }
    {
        DateName {
            date,
            weekday: weekday_of(date),
            civil: CivilDateTime::of_wall_second(second_of_date(date)),
        }
    }
}

// The wall second at which a date begins; for one too far off, the first or the last of 64 bits.
fn second_of_date(date: i64) -> i64
    ensures { result ≡ second_of_date date }
{
    date.saturating_mul(i64::from(SECONDS_PER_DAY))
}

/// The date of a wall second, counted from 1970-01-01.
pub(crate) fn date_of_wall(wall: i64) -> i64
    ensures { result ≡ date_of_wall wall }
{
    wall.div_euclid(i64::from(SECONDS_PER_DAY))
}

#[tactic(auto, using(crate::proofs::DateSteps::weekday_is))]
fn weekday_of(date: i64) -> Weekday
    ensures { weekday_index result ≡ weekday_of_day date }
{
    let days = (i128::from(date) + THURSDAY).rem_euclid(DAYS_PER_WEEK);
    Weekday::from_days_from_sunday(days as u32)
}

impl fmt::Display for DateName {
    ghost use Rattle.std.specs.Prelude.{Some};
    ghost use Rattle.cronplan_forms.specs.DateNames.{date_name_text};

    ghost output = { λ d. Some (date_name_text d) };

    fn fmt<W: fmt::Write>(&self, f: &mut fmt::Formatter<W>) -> fmt::Result {
        let (date, weekday) = (self.date, weekday_text(self.weekday));
        match self.civil {
            Some(civil) => {
                let (day, month) = (civil.day(), short_month_name(civil.month()));
                write!(f, "{weekday} {day:02} {month}")
            }
            None => write!(f, "{weekday} {date}"),
        }
    }
}

/// The abbreviation of a month's name, by its number from 1 to 12: `Mar`.
pub(crate) fn short_month_name(month: u32) -> &'static str
    ensures { result.now ≡ short_month_name month }
{
    match month {
        1 => "Jan",
        2 => "Feb",
        3 => "Mar",
        4 => "Apr",
        5 => "May",
        6 => "Jun",
        7 => "Jul",
        8 => "Aug",
        9 => "Sep",
        10 => "Oct",
        11 => "Nov",
        _ => "Dec",
    }
}
