//! What the clock of another zone shows.
ghost use Rattle.std.specs.Prelude.{◌≡◌, ◌++◌, ℕ, ℤ, List, OnOk, string_bytes};
ghost use Rattle.jiff.specs.ZoneView.{plain_zone};
ghost use Rattle.jiff_core.specs.Timestamp.{nanos_of_seconds};
ghost use Rattle.jiff_tz.specs.Zone.{offset_at};
ghost use Rattle.croncheck_shown.specs.Shown.{IsOtherClockAt, IsOtherClockOf};

use super::weekday_text;
use croncheck_report::settings::Tongue;
use croner::time::{CivilDateTime, CronDateTime};
use cronplan_forms::Ahead;
use jiff::Timestamp;
use jiff::tz::TimeZone;
use std::alloc::AllocError;
use std::fmt;

/// Puts after a text what a zone's clock shows at a second; nothing at one that the zone doesn't have. The weekday is in this language.
pub(super) fn push_clock_of(
    text: &mut String,
    language: Tongue,
    zone: &TimeZone<'_>,
    second: i64,
) -> Result<(), AllocError>
    ensures { OnOk result ((said : List ℕ) × IsOtherClockOf language (plain_zone zone.now) second said
        × (string_bytes text.new ≡ string_bytes text.old ++ said)) }
{
    match Timestamp::from_second(second) {
        Ok(instant) => push_clock_at(text, language, zone, instant),
        Err(_) => Ok(()),
    }
}

fn push_clock_at(
    text: &mut String,
    language: Tongue,
    zone: &TimeZone<'_>,
    instant: Timestamp,
) -> Result<(), AllocError>
    ensures { (second : ℤ) → instant.nanosecond ≡ nanos_of_seconds second
        → OnOk result ((said : List ℕ) × IsOtherClockAt language (plain_zone zone.now) second said
        × (string_bytes text.new ≡ string_bytes text.old ++ said)) }
{
    let shown = zone.to_datetime(instant);
    let clock = OtherClock {
        weekday: weekday_text(language, shown.civil_weekday()),
        civil: shown.to_civil(),
        ahead: ahead_in(zone, instant),
    };
    write!(text, "{clock}")
}

// How far a zone's clock is ahead of UTC at an instant, as it is shown.
fn ahead_in(zone: &TimeZone<'_>, instant: Timestamp) -> Ahead
    ensures { result.seconds ≡ offset_at (plain_zone zone.now) instant.nanosecond }
{
    Ahead {
        seconds: i64::from(zone.to_offset(instant).seconds()),
    }
}

// What a zone's clock shows beside that of the first zone.
#[derive(Clone, Copy)]
struct OtherClock {
    weekday: &'static str,
    civil: CivilDateTime,
    ahead: Ahead,
}

impl fmt::Display for OtherClock {
    ghost use Rattle.std.specs.Prelude.{Some};
    ghost use Rattle.croncheck_shown.specs.Shown.{other_clock_text};

    ghost output = { λ c. Some (other_clock_text c.weekday.now c.civil c.ahead.seconds) };

    fn fmt<W: fmt::Write>(&self, f: &mut fmt::Formatter<W>) -> fmt::Result {
        let (weekday, date, time) = (self.weekday, self.civil.date(), self.civil.time());
        let ahead = self.ahead;
        write!(f, "  = {weekday} {date} {time} {ahead}")
    }
}
