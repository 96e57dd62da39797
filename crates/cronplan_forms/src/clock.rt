//! What a clock shows at a second.
ghost use Rattle.std.specs.Prelude.{◌≡◌};
ghost use Rattle.croner_base.specs.Civil.{weekday_index};
ghost use Rattle.croner_base.specs.TableZone.{table_zone};
ghost use Rattle.cronplan_forms.specs.Clocks.{IsClockAt, IsClockTime, second_of_day, weekday_text};

use crate::ahead::Ahead;
use croner_base::limits::SECONDS_PER_DAY;
use croner_base::time::table::{ClockTable, TableTime};
use croner_base::time::{CivilDate, CivilDateTime, CivilTime, CronDateTime, Weekday};
use std::fmt;

/// A second, and what a clock shows then. As a text it is `Sun 2027-03-28 03:00:00 +02:00`.
#[derive(Clone, Copy)]
pub struct ClockTime {
    /// The second, counted from 1970-01-01T00:00:00 UTC.
    pub second: i64,
    pub weekday: Weekday,
    pub civil: CivilDateTime,
    pub ahead: Ahead,
}

impl ClockTime {
    /// What the clock of a table shows at a second. For a second that the table doesn't have, outside the UTC years -9999 to 9999, it
    /// is the beginning of 1970.
    pub fn shown_at(table: &ClockTable, second: i64) -> ClockTime
        ensures { IsClockAt (table_zone table.now) second result }
    {
        match TableTime::new(table, second) {
            Ok(time) => ClockTime::of(&time),
            Err(_) => ClockTime {
                second,
                weekday: Weekday::Thursday,
                civil: begin_of_1970(),
                ahead: Ahead { seconds: 0 },
            },
        }
    }

    // What the clock of a table shows.
    fn of(time: &TableTime<'_>) -> ClockTime
        ensures shown { IsClockTime (table_zone time.now.table.now) result }
        ensures second { result.second ≡ time.now.second }
    {
        let civil = time.to_civil();
        let second = time.second();
        let seconds = civil.wall_second().saturating_sub(second);
        ClockTime {
            second,
            weekday: time.civil_weekday(),
            civil,
            ahead: Ahead { seconds },
        }
    }
}

fn begin_of_1970() -> CivilDateTime {
    let date = CivilDate::from_parts_unchecked(1970, 1, 1);
    CivilDateTime::new(date, CivilTime::from_parts_unchecked(0, 0, 0))
}

impl fmt::Display for ClockTime {
    ghost use Rattle.std.specs.Prelude.{Some};
    ghost use Rattle.cronplan_forms.specs.Clocks.{clock_time_text};

    ghost output = { λ t. Some (clock_time_text t) };

    fn fmt<W: fmt::Write>(&self, f: &mut fmt::Formatter<W>) -> fmt::Result {
        let (date, time) = (self.civil.date(), self.civil.time());
        let (weekday, ahead) = (weekday_text(self.weekday), self.ahead);
        write!(f, "{weekday} {date} {time} {ahead}")
    }
}

/// The abbreviation of a weekday's name: `Mon`.
pub fn weekday_text(weekday: Weekday) -> &'static str
    ensures { result.now ≡ weekday_text (weekday_index weekday) }
{
    match weekday {
        Weekday::Sunday => "Sun",
        Weekday::Monday => "Mon",
        Weekday::Tuesday => "Tue",
        Weekday::Wednesday => "Wed",
        Weekday::Thursday => "Thu",
        Weekday::Friday => "Fri",
        Weekday::Saturday => "Sat",
    }
}

/// The second of the day of a wall second, from 0 to 86,399.
pub(crate) fn second_of_day(wall: i64) -> u64
    ensures { result ≡ second_of_day wall }
{
    wall.rem_euclid(i64::from(SECONDS_PER_DAY)) as u64
}

/// The hour and the minute of a second of the day, as `02:30`.
#[derive(Clone, Copy)]
pub(crate) struct TimeOfDay {
    pub second: u64,
}

impl fmt::Display for TimeOfDay {
    ghost use Rattle.std.specs.Prelude.{Some};
    ghost use Rattle.cronplan_forms.specs.Clocks.{clock_text};

    ghost output = { λ t. Some (clock_text t.second) };

    fn fmt<W: fmt::Write>(&self, f: &mut fmt::Formatter<W>) -> fmt::Result {
        let (hour, minute) = (self.second / 3_600, self.second / 60 % 60);
        write!(f, "{hour:02}:{minute:02}")
    }
}
