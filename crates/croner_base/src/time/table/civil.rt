//! Dates and times of wall seconds that a table's clock can read.
ghost use Rattle.std.specs.Prelude.{◌≡◌, pos, neg_ℤ, ◌≤ℤ◌};
ghost use Rattle.croner_base.specs.Civil.{wall_second, day_of_date};
ghost use Rattle.croner_base.specs.Private.TableSteps.{first_reading, last_reading};

use crate::limits::{FIRST_DAY_NUMBER, SECONDS_PER_DAY};
use crate::time::{CivilDate, CivilDateTime, CivilTime};
use jiff_core::civil::Date;

/// The day number of 9999-12-31.
const LAST_DAY_NUMBER: i64 = 2_932_896;

// The date and time of a wall second, up to a day past the years -9999 to 9999.
pub(crate) fn civil_of_second(wall: i64) -> CivilDateTime
    requires low { first_reading ≤ℤ wall }
    requires high { wall ≤ℤ last_reading }
    ensures { wall_second result ≡ wall }
{
    let time = CivilTime::from_seconds_of_day(wall.rem_euclid(SECONDS_PER_DAY as i64) as u32);
    CivilDateTime::new(date_of_day(wall.div_euclid(SECONDS_PER_DAY as i64)), time)
}

// The date of a day number, up to a day past those years.
fn date_of_day(day: i64) -> CivilDate
    requires low { neg_ℤ (pos 4_371_588) ≤ℤ day }
    requires high { day ≤ℤ pos 2_932_897 }
    ensures { day_of_date result ≡ day }
{
    if day < FIRST_DAY_NUMBER {
        CivilDate::from_parts_unchecked(-10_000, 12, 31)
    } else if day > LAST_DAY_NUMBER {
        CivilDate::from_parts_unchecked(10_000, 1, 1)
    } else {
        let date = Date::from_days_since_min((day - FIRST_DAY_NUMBER) as u32);
        CivilDate::from_parts_unchecked(date.year as i32, date.month as u32, date.day as u32)
    }
}
