//! `CronDateTime` for the date and time library `jiff`: for its civil date-times, whose clock never changes, and for
//! its zoned date-times in every time zone.
ghost use Rattle.std.specs.Prelude.{◌≡◌, ◌↔◌, IsOk, IfOk, IfErr};
ghost use Rattle.jiff.specs.Words.{civil_seconds};
ghost use Rattle.jiff_core.specs.Calendar.{IsYear};
ghost use Rattle.jiff_core.specs.Weekday.{sunday_zero};
ghost use Rattle.croner_base.specs.Civil.{wall_second, weekday_index};
ghost use Rattle.croner_base.specs.CivilZone.{IsWhole};

mod civil;
mod zoned;

use crate::errors::CronError;
use crate::time::{CivilDate, CivilDateTime, CivilTime, Weekday};
use jiff::civil::DateTime;
use jiff_core::civil::{Date, DateTime as Plain, Time};

/// The first year of `jiff`.
const FIRST_JIFF_YEAR: i32 = -9999;

/// The last one.
const LAST_JIFF_YEAR: i32 = 9999;

/// The date and time of a date-time of `jiff`, without its fraction of a second.
pub(crate) fn to_civil(datetime: DateTime) -> CivilDateTime
    ensures { wall_second result ≡ civil_seconds datetime }
{
    let (year, month, day) = (datetime.year(), datetime.month(), datetime.day());
    let (hour, minute, second) = (datetime.hour(), datetime.minute(), datetime.second());
    let date = CivilDate::from_parts_unchecked(year as i32, month as u32, day as u32);
    let time = CivilTime::from_parts_unchecked(hour as u32, minute as u32, second as u32);
    CivilDateTime::new(date, time)
}

/// The date-time of `jiff` at a civil second. `InvalidDate` for a year outside -9999 to 9999.
pub(crate) fn to_jiff(civil: CivilDateTime) -> Result<DateTime, CronError>
    ensures ok { IsOk result ↔ IsYear civil.date.year }
    ensures value { IfOk result (IsWhole (wall_second civil)) }
    ensures err { IfErr result (λ e. e ≡ CronError.InvalidDate) }
{
    if civil.year() < FIRST_JIFF_YEAR || civil.year() > LAST_JIFF_YEAR {
        return Err(CronError::InvalidDate);
    }
    let date = Date {
        year: civil.year() as i16,
        month: civil.month() as u8,
        day: civil.day() as u8,
    };
    let time = Time {
        hour: civil.hour() as u8,
        minute: civil.minute() as u8,
        second: civil.second() as u8,
        subsec_nanosecond: 0,
    };
    Ok(DateTime::from_plain(Plain { date, time }))
}

/// The weekday of a weekday of `jiff`.
pub(crate) fn to_weekday(weekday: jiff::civil::Weekday) -> Weekday
    ensures { weekday_index result ≡ sunday_zero weekday }
{
    Weekday::from_days_from_sunday(weekday.to_sunday_zero_offset() as u32)
}
