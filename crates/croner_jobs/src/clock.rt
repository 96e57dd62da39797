//! The clocks on which the jobs run.
use croner::Clocked;
use croner::time::table::TableTime;
use jiff::Zoned;
use jiff::civil::DateTime;

/// A clock that is never more than two days ahead of UTC or behind it. The three clocks of `croner` are.
///
/// For a time of your own an `impl` is one line, which repeats the law of the time that it holds, as
/// `ghost near_utc = { λ t. table_near t.time };`.
pub trait NearUtc: Clocked {
    ghost use Rattle.croner_jobs.specs.Served.{IsNearUtc};

    /// What the clock of a time shows lies at most two days from UTC, at each second.
    ghost near_utc: { (a : Self) → IsNearUtc (Self.moment a).zone };
}

/// It shows UTC.
impl NearUtc for DateTime {
    ghost use Rattle.croner_jobs.specs.NearUtc.{civil_near};

    ghost near_utc = { λ dt. civil_near dt };
}

/// Each offset is less than 26 hours.
impl<'a> NearUtc for Zoned<'a> {
    ghost use Rattle.croner_jobs.specs.NearUtc.{zoned_near};

    ghost near_utc = { λ z. zoned_near z };
}

/// Each offset is a day at most.
impl<'t> NearUtc for TableTime<'t> {
    ghost use Rattle.croner_jobs.specs.NearUtc.{table_near};

    ghost near_utc = { λ t. table_near t };
}
