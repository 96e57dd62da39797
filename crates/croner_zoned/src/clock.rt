//! The clock of a time zone in a window.
ghost use Rattle.std.specs.Prelude.{◌≡◌, ◌↔◌, pos, ◌-ℤ◌, ◌≤ℤ◌, IsTrue, IsOk, IfOk, IfErr, IsSome, IfSome};
ghost use Rattle.jiff.specs.ZoneView.{plain_zone};
ghost use Rattle.croner_base.specs.TableZone.{table_zone};
ghost use Rattle.croner_base.specs.ZoneTable.{IsCalmWindow, IsNoTable};
ghost use Rattle.croner.specs.laws.Zones.{margin, IsClockOf};
ghost use Rattle.croner_zoned.specs.Years.{first_second, last_second};

use crate::ZoneTime;
use croner::errors::CronError;
use croner::time::table::{ClockTable, TableTime};
use jiff::tz::TimeZone;
use jiff::{Timestamp, Zoned};
use std::alloc::Global;

/// How many seconds before the first one of a window its table begins: from there on each run over the table is the zone's.
const MARGIN_SECONDS: i64 = 180_000;

/// 0003-01-01T00:00:00 UTC.
const FIRST_SECOND: i64 = -62_072_524_800;

/// 4998-12-31T23:59:59 UTC.
const LAST_SECOND: i64 = 95_586_047_999;

/// The clock of a time zone in a window, from a first second to a last one, in seconds since 1970-01-01T00:00:00 UTC.
///
/// In its window it shows what the zone shows, and so it does in the 180,000 seconds before it. Earlier and later it keeps the
/// offsets at the two ends. In the window a job's runs are its runs in the zone.
///
/// The times of Anchorage from 2026 to 2099:
///
/// ```
/// let zones = TimeZoneDatabase::from_env(&rt)?;
/// let zone = zones.get("America/Anchorage")?;
/// let anchorage = ZoneClock::of(rt.alloc(), &zone, 1_767_225_600, 4_102_444_799)?;
/// ```
#[derive(Drop)]
pub struct ZoneClock<'z> {
    zone: TimeZone<'z>,
    table: ClockTable,
    first: i64,
    last: i64,
    pub ghost from: { first_second ≤ℤ first },
    pub ghost to: { last ≤ℤ last_second },
    pub ghost shows: { IsClockOf (plain_zone zone) (first -ℤ pos margin) last (table_zone table) },
}

impl<'z> ZoneClock<'z> {
    ghost use Rattle.croner_zoned.specs.Windows.{IsFollowed, IsNoClock, IsClockIn, IsInWindow, IsShownAs, IsTimeOn};
    ghost use Rattle.std.specs.Int.{int_div_euclid};

    /// The clock of a zone from a first second to a last one.
    ///
    /// `InvalidTime` if the last second lies before the first, if one of the two lies outside -62,072,524,800 to
    /// 95,586,047,999, the UTC years 3 to 4998, or if the zone's clock isn't calm from 180,000 seconds before the first second
    /// to the last one. [`ClockTable::new`] has the limits of calm clocks. `OutOfMemory` if there is no memory for the zone's
    /// changes.
    ///
    /// ```
    /// let paris = ZoneClock::of(rt.alloc(), &zones.get("Europe/Paris")?, 0, 4_102_444_799)?; // 1970 to 2099
    /// ```
    #[tactic(auto, using(crate::proofs::Clocks::followed))]
    pub fn of(
        alloc: Global,
        zone: &TimeZone<'z>,
        first: i64,
        last: i64,
    ) -> Result<ZoneClock<'z>, CronError>
        ensures clock { IfOk result (IsClockIn zone.now first last) }
        ensures followed { IsOk result → IsFollowed (plain_zone zone.now) first last }
        ensures err { IfErr result (IsNoClock (plain_zone zone.now) first last) }
    {
        if first < FIRST_SECOND || last < first || last > LAST_SECOND {
            return Err(CronError::InvalidTime);
        }
        let table = table_of(alloc, zone, first, last)?;
        Ok(ZoneClock {
            zone: *zone,
            table,
            first,
            last,
        })
    }

    /// The zone.
    pub fn zone(&self) -> TimeZone<'z>
        ensures { result ≡ self.now.zone }
    {
        self.zone
    }

    /// The first second of the window.
    pub fn first(&self) -> i64
        ensures { result ≡ self.now.first }
    {
        self.first
    }

    /// The last second of the window.
    pub fn last(&self) -> i64
        ensures { result ≡ self.now.last }
    {
        self.last
    }

    /// The table of the clock, which begins 180,000 seconds before the window.
    pub fn table(&self) -> &ClockTable
        ensures { result.now ≡ self.now.table }
    {
        &self.table
    }

    /// Whether a second lies in the window.
    pub fn has(&self, second: i64) -> bool
        ensures { IsTrue result ↔ IsInWindow self.now second }
    {
        self.first <= second && second <= self.last
    }

    /// The time at a second of the window. `InvalidTime` if the second lies outside the window.
    ///
    /// ```
    /// let start = anchorage.at(1_767_225_600)?; // 2025-12-31T15:00:00 there
    /// let refused = anchorage.at(1_767_225_599); // Err(InvalidTime): a second before the window
    /// ```
    pub fn at<'t>(&'t self, second: i64) -> Result<ZoneTime<'t>, CronError>
        ensures ok { IsOk result ↔ IsInWindow self.now second }
        ensures value { IfOk result (IsTimeOn self.now second) }
        ensures err { IfErr result (λ e. e ≡ CronError.InvalidTime) }
    {
        match self.time_at(second) {
            Some(time) => Ok(time),
            None => Err(CronError::InvalidTime),
        }
    }

    /// The time at the second in which an instant of `jiff` lies. The instant's fraction is dropped. `InvalidTime` if that
    /// second lies outside the window.
    ///
    /// ```
    /// let start = anchorage.at_timestamp(Timestamp::now(&rt)?)?;
    /// ```
    pub fn at_timestamp<'t>(&'t self, instant: Timestamp) -> Result<ZoneTime<'t>, CronError>
        ensures ok { IsOk result ↔ IsInWindow self.now (int_div_euclid instant.nanosecond (pos 1_000_000_000)) }
        ensures value { IfOk result (IsTimeOn self.now (int_div_euclid instant.nanosecond (pos 1_000_000_000))) }
        ensures err { IfErr result (λ e. e ≡ CronError.InvalidTime) }
    {
        self.at(instant.to_plain().floor_second())
    }

    /// A second of the window in the zone, as a value of `jiff`, which prints with the zone's name. `InvalidTime` if the second
    /// lies outside the window.
    ///
    /// ```
    /// let midnight = anchorage.to_zoned(1_767_258_000)?; // 2026-01-01T00:00:00-09:00[America/Anchorage]
    /// ```
    #[tactic(auto, using(crate::proofs::Clocks::shown_as))]
    pub fn to_zoned(&self, second: i64) -> Result<Zoned<'z>, CronError>
        ensures ok { IsOk result ↔ IsInWindow self.now second }
        ensures value { IfOk result (IsShownAs self.now second) }
        ensures err { IfErr result (λ e. e ≡ CronError.InvalidTime) }
    {
        if !self.has(second) {
            return Err(CronError::InvalidTime);
        }
        match Timestamp::from_second(second) {
            Ok(instant) => Ok(instant.to_zoned(self.zone)),
            Err(_) => Err(CronError::InvalidTime),
        }
    }

    // The time at a second, if it lies in the window.
    pub(crate) fn time_at<'t>(&'t self, second: i64) -> Option<ZoneTime<'t>>
        ensures some { IsSome result ↔ IsInWindow self.now second }
        ensures value { IfSome result (IsTimeOn self.now second) }
    {
        if !self.has(second) {
            return None;
        }
        match TableTime::new(&self.table, second) {
            Ok(time) => Some(ZoneTime::on(self, time)),
            Err(_) => None,
        }
    }
}

// The table of a zone's clock from the margin before a first second to a last one.
fn table_of(
    alloc: Global,
    zone: &TimeZone<'_>,
    first: i64,
    last: i64,
) -> Result<ClockTable, CronError>
    requires { first_second ≤ℤ first }
    ensures calm { IsOk result → IsCalmWindow (plain_zone zone.now) (first -ℤ pos margin) last }
    ensures shows { IfOk result (λ t. IsClockOf (plain_zone zone.now) (first -ℤ pos margin) last (table_zone t)) }
    ensures err { IfErr result (IsNoTable (plain_zone zone.now) (first -ℤ pos margin) last) }
{
    ClockTable::of_zone(alloc, zone, first - MARGIN_SECONDS, last)
}
