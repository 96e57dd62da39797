//! The lines of a listing.
ghost use Rattle.std.specs.Prelude.{◌≡◌};
ghost use Rattle.croner_base.specs.Civil.{wall_second};
ghost use Rattle.croner_base.specs.Zone.{reading};

use croner::time::{CivilDateTime, CronDateTime};
use jiff::Zoned;
use jiff::civil::DateTime;
use std::fmt;

/// A time value whose runs can be listed.
pub trait Listed: CronDateTime {
    ghost use Rattle.std.specs.Prelude.{Bool};
    ghost use Rattle.cronrun_command.specs.Line.{named_second};

    /// Whether a line also has the second of its instant.
    ghost in_zone: { Bool };

    /// The second since 1970-01-01T00:00:00 UTC, if a line has it.
    fn second(&self) -> Option<i64>
        ensures { result ≡ named_second in_zone (Self.moment self.now) };
}

impl Listed for DateTime {
    ghost use Rattle.std.specs.Prelude.{false};

    ghost in_zone = { false };

    fn second(&self) -> Option<i64> {
        None
    }
}

impl<'z> Listed for Zoned<'z> {
    ghost use Rattle.std.specs.Prelude.{true};

    ghost in_zone = { true };

    fn second(&self) -> Option<i64> {
        Some(self.timestamp().to_plain().floor_second())
    }
}

/// A run as a line of a listing: what its clock shows, and in a zone the second since
/// 1970-01-01T00:00:00 UTC.
#[derive(Drop)]
pub struct Line {
    civil: CivilDateTime,
    second: Option<i64>,
}

impl Line {
    ghost use Rattle.cronrun_command.specs.Line.{named_second};

    /// The line of a run.
    pub fn of<T: Listed>(run: &T) -> Line
        ensures civil { wall_second result.civil ≡ reading (T.moment run.now) }
        ensures second { result.second ≡ named_second T.in_zone (T.moment run.now) }
    {
        Line {
            civil: run.to_civil(),
            second: run.second(),
        }
    }
}

impl fmt::Display for Line {
    ghost use Rattle.std.specs.Prelude.{Some};
    ghost use Rattle.cronrun_command.specs.Line.{line_text};

    ghost output = { λ l. Some (line_text l.civil l.second) };

    fn fmt<W: fmt::Write>(&self, f: &mut fmt::Formatter<W>) -> fmt::Result {
        let civil = self.civil;
        match self.second {
            Some(second) => write!(f, "{civil} {second}"),
            None => write!(f, "{civil}"),
        }
    }
}
