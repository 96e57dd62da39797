//! Times whose seconds have numbers, from which a time in the same zone is found.
ghost use Rattle.std.specs.Prelude.{◌≡◌};

use crate::time::CronDateTime;
use crate::time::table::TableTime;
use jiff::civil::DateTime;
use jiff::{Timestamp, Zoned};
use jiff_core::civil::DateTime as Plain;

/// Nanoseconds of a second.
const NANOSECONDS_PER_SECOND: i128 = 1_000_000_000;

/// A time that gives the number of its second, and the time at another second in its zone. Neither call takes memory.
pub trait Clocked: CronDateTime {
    ghost use Rattle.std.specs.Prelude.{true};
    ghost use Rattle.croner_base.specs.Clocked.{IsAtSecond};

    /// The whole second in which the time lies, counted from 1970-01-01T00:00:00 UTC; in civil time, from that date and
    /// time. Half a second before 1970 lies in the second -1.
    ///
    /// ```
    /// let noon = DateTime::new(2024, 7, 1, 12, 0, 0, 0)?;
    /// let second = Clocked::second(&noon); // 1719835200
    /// ```
    fn second(&self) -> i64
        ensures { result ≡ (Self.moment self.now).instant };

    /// The time of the same zone at a whole second, without a fraction. `None` exactly where the implementation doesn't
    /// hold that second.
    ///
    /// ```
    /// let noon = DateTime::new(2024, 7, 1, 12, 0, 0, 0)?;
    /// let later = noon.at_second(1_719_835_201); // Some: 2024-07-01T12:00:01
    /// let none = noon.at_second(253_402_300_800); // None: the year 10000
    /// ```
    fn at_second(&self, second: i64) -> Option<Self>
        ensures { IsAtSecond Self.moment (Self.moment self.now).zone second result };

    /// The implementation holds the second in which a time lies: `at_second` gives a time there.
    ghost holds_its_second: { (a : Self) → (Self.moment a).zone.holds (Self.moment a).instant ≡ true };
}

/// The years -9999 to 9999.
impl Clocked for DateTime {
    ghost use Rattle.croner_base.specs.HeldSeconds.{civil_held};
    ghost use Rattle.croner_base.specs.CivilZone.{civil_moment};
    ghost use Rattle.croner_base.specs.Clocked.{IsAtSecond};

    fn second(&self) -> i64 {
        self.to_plain().to_second()
    }

    #[tactic(auto, using(crate::proofs::clocks::Seconds::civil_not_at))]
    fn at_second(&self, second: i64) -> Option<DateTime> {
        match Plain::from_nanosecond(second as i128 * NANOSECONDS_PER_SECOND) {
            Ok(plain) => Some(DateTime::from_plain(plain)),
            Err(_) => None,
        }
    }

    ghost holds_its_second = { λ dt. civil_held dt };
}

/// The seconds of `jiff`'s instants, -377,705,023,201 to 253,402,207,200.
impl<'a> Clocked for Zoned<'a> {
    ghost use Rattle.croner_base.specs.HeldSeconds.{zoned_held};

    fn second(&self) -> i64 {
        self.timestamp().to_plain().floor_second()
    }

    #[tactic(auto, using(crate::proofs::clocks::Seconds::zoned_not_at))]
    fn at_second(&self, second: i64) -> Option<Zoned<'a>> {
        match Timestamp::from_second(second) {
            Ok(instant) => Some(instant.to_zoned(self.time_zone())),
            Err(_) => None,
        }
    }

    ghost holds_its_second = { λ z. zoned_held z };
}

/// The seconds of the UTC years -9999 to 9999.
impl<'t> Clocked for TableTime<'t> {
    ghost use Rattle.croner_base.specs.HeldSeconds.{table_held};

    fn second(&self) -> i64 {
        TableTime::second(self)
    }

    #[tactic(auto, using(crate::proofs::clocks::Seconds::table_at, crate::proofs::clocks::Seconds::table_not_at))]
    fn at_second(&self, second: i64) -> Option<TableTime<'t>> {
        match TableTime::new(self.table(), second) {
            Ok(time) => Some(time),
            Err(_) => None,
        }
    }

    ghost holds_its_second = { λ t. table_held t };
}
