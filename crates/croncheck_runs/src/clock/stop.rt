//! Where the window of a clock ends before year 5000 does, and why.
ghost use Rattle.std.specs.Prelude.{◌≤ℤ◌};
ghost use Rattle.croner_base.specs.ZonedZone.{first_timestamp, last_timestamp};

use crate::length::Length;
use jiff::Timestamp;
use std::fmt;

/// The first second with which a clock's window is no longer calm: searches don't go over it.
#[derive(Clone, Copy, Drop)]
pub struct Stop {
    /// In seconds since 1970-01-01T00:00:00 UTC.
    pub second: i64,
    pub reason: Reason,
    pub ghost low: { first_timestamp ≤ℤ second },
    pub ghost high: { second ≤ℤ last_timestamp },
}

/// Why searches don't go over a second of a zone's clock.
#[derive(Clone, Copy, Drop)]
pub enum Reason {
    /// The clock is this many seconds ahead of UTC there, which is more than a day; behind UTC if the number is negative.
    Far(i32),
    /// The clock goes forward there by this many seconds, which is more than a day.
    Forward(i64),
    /// The clock goes back there by this many seconds, which is more than two hours.
    Back(i64),
    /// The clock changes there, and has changed within the two days before.
    Soon,
    /// None of these: with the change there the clock has skipped more than 20,000,000 seconds in all.
    Skipped,
    /// None of these: with the change there the clock has changed more than 20,000 times.
    Many,
}

/// The instant, its second, and what the clock does there: `2010-03-04T15:00:00Z @1267714800, where it goes back by three hours`.
impl fmt::Display for Stop {
    fn fmt<W: fmt::Write>(&self, f: &mut fmt::Formatter<W>) -> fmt::Result {
        let (second, reason) = (self.second, self.reason);
        if let Ok(instant) = Timestamp::from_second(second) {
            write!(f, "{instant} ")?;
        }
        write!(f, "@{second}, where it {reason}")
    }
}

impl fmt::Display for Reason {
    fn fmt<W: fmt::Write>(&self, f: &mut fmt::Formatter<W>) -> fmt::Result {
        match *self {
            Reason::Far(ahead) if ahead < 0 => f.write_str("is more than a day behind UTC"),
            Reason::Far(_) => f.write_str("is more than a day ahead of UTC"),
            Reason::Forward(seconds) => write_move(f, "forward", seconds),
            Reason::Back(seconds) => write_move(f, "back", seconds),
            Reason::Soon => f.write_str("changes again within two days"),
            Reason::Skipped => f.write_str("has skipped more than 20,000,000 seconds in all"),
            Reason::Many => f.write_str("has changed more than 20,000 times"),
        }
    }
}

fn write_move<W: fmt::Write>(
    f: &mut fmt::Formatter<W>,
    direction: &'static str,
    seconds: i64,
) -> fmt::Result {
    let length = Length {
        seconds: seconds.unsigned_abs(),
    };
    write!(f, "goes {direction} by {length}")
}
