//! Clocks given by a table of offsets: how far a clock is ahead of UTC at first, and after each of its changes.
ghost use Rattle.std.specs.Prelude.{◌≡◌, ◌↔◌, ◌<◌, ◌≤◌, IsTrue, IsOk, IfOk, IfErr, pos, ◌≤ℤ◌, ◌-ℤ◌, int_le, false, vec_len, slice_index_or};
ghost use Rattle.std.proofs.Common.{ap};
ghost use Rattle.croner_base.specs.Table as Spec;

mod check;
mod civil;
mod of_zone;

use crate::errors::CronError;
use crate::limits::{DAYS_PER_WEEK, SECONDS_PER_DAY, YEAR_LIMIT};
use crate::time::table::check::{OFFSET_LIMIT_SECONDS, is_calm, is_instant};
use crate::time::table::civil::civil_of_second;
use crate::time::{CivilDateTime, CronDateTime, Resolution, Weekday};
use jiff::Timestamp;
use std::alloc::Global;
use std::cmp::Ordering;

/// A clock given by its offset from UTC, in seconds: before its first change, and from each change on.
///
/// The clock of every `ClockTable` is calm ([`CronDateTime`] says what that means), as most promises about searches ask.
///
/// Paris in 2024 is one hour ahead of UTC, and two from 2024-03-31T01:00:00 UTC to 2024-10-27T01:00:00 UTC:
///
/// ```
/// let changes = vec![in alloc; (1_711_846_800, 7_200), (1_729_990_800, 3_600)]?;
/// let paris = ClockTable::new(3_600, changes)?;
/// ```
#[derive(Debug, Drop)]
pub struct ClockTable {
    first_offset: i32,
    changes: Vec<(i64, i32)>,
    pub ghost calm: { IsTrue (Spec.is_calm_table first_offset changes.items) },
}

impl ClockTable {
    ghost use Rattle.croner_base.specs.Private.TableSteps.{IsCountUntil, offset_past};
    ghost use Rattle.croner_base.specs.TableZone.{HasParts};

    /// The clock that is `first_offset` seconds ahead of UTC before its first change. Each change is an instant, in
    /// seconds since 1970-01-01T00:00:00 UTC, and the seconds that the clock is ahead of UTC from that instant on.
    ///
    /// `InvalidTime`, and the list is dropped, unless
    ///
    /// - every offset is from -86,400 to 86,400;
    /// - the instants are from -377,705,116,800 to 253,402,300,799 (the UTC years -9999 to 9999) and ascend, each more
    ///   than 172,800 after the one before;
    /// - each offset differs from the one before, by 1 to 86,400 forward or by 1 to 7,200 back;
    /// - at most 20,000 changes have a reading in the years 1 to 5000 at their instant or one second before it, and
    ///   the moves forward at these add up to at most 20,000,000 seconds.
    ///
    /// ```
    /// let utc = ClockTable::new(0, Vec::new(alloc))?;
    /// let refused = ClockTable::new(86_401, Vec::new(alloc)); // Err(InvalidTime): more than a day ahead
    /// ```
    pub fn new(first_offset: i32, changes: Vec<(i64, i32)>) -> Result<ClockTable, CronError>
        ensures ok { IsOk result ↔ IsTrue (Spec.is_calm_table first_offset changes.items) }
        ensures value { IfOk result (HasParts first_offset changes.items) }
        ensures err { IfErr result (λ e. e ≡ CronError.InvalidTime) }
    {
        if is_calm(first_offset, &changes) {
            Ok(ClockTable {
                first_offset,
                changes,
            })
        } else {
            Err(CronError::InvalidTime)
        }
    }

    /// How many seconds the clock is ahead of UTC before its first change.
    ///
    /// ```
    /// let ahead = paris.first_offset(); // 3600
    /// ```
    #[tactic(auto, using(crate::proofs::tables::TableReadings::offsets))]
    pub fn first_offset(&self) -> i32
        ensures value { result ≡ self.now.first_offset }
        ensures bound { IsTrue (Spec.is_offset result) }
    {
        self.first_offset
    }

    /// All changes of the clock, from the earliest. Each is an instant, in seconds since 1970-01-01T00:00:00 UTC, and the
    /// seconds that the clock is ahead of UTC from that instant on.
    ///
    /// ```
    /// let (instant, ahead) = paris.changes()[0]; // 1711846800, 7200
    /// ```
    pub fn changes(&self) -> &[(i64, i32)]
        ensures { result.now ≡ self.now.changes.items }
    {
        self.changes.as_slice()
    }

    // How many changes lie at or before an instant.
    fn changes_until(&self, second: i64) -> usize
        ensures bound { result ≤ vec_len self.now.changes }
        ensures count { IsCountUntil self.now.changes.items second result }
    {
        self.changes.as_slice().partition_point(
            |change: &(i64, i32)| -> bool
                ensures { result ≡ int_le change.now.0 second }
            { change.0 <= second },
        )
    }

    // The offset in force after so many changes.
    #[tactic(auto, using(crate::proofs::tables::TableReadings::offsets))]
    fn offset_past(&self, count: usize) -> i64
        requires { count ≤ vec_len self.now.changes }
        ensures value { result ≡ offset_past self.now.first_offset self.now.changes.items count }
        ensures bound { IsTrue (Spec.is_offset result) }
    {
        if count == 0 {
            self.first_offset as i64
        } else {
            self.changes[count - 1].1 as i64
        }
    }

    // The offset in force at an instant.
    #[tactic(auto, using(crate::proofs::tables::TableReadings::offset_by_count))]
    fn offset_at(&self, second: i64) -> i64
        ensures value { result ≡ Spec.offset_at self.now.first_offset self.now.changes.items second }
        ensures bound { IsTrue (Spec.is_offset result) }
    {
        self.offset_past(self.changes_until(second))
    }

    // The instant of a change.
    fn instant_of(&self, index: usize) -> i64
        requires { index < vec_len self.now.changes }
        ensures { result ≡ (slice_index_or self.now.changes.items index (pos 0, pos 0)).0 }
    {
        self.changes[index].0
    }
}

/// A second on the clock of a table, counted from 1970-01-01T00:00:00 UTC.
///
/// Noon of 2024-07-01 in Paris, with the clock `paris` of [`ClockTable`], and the next run of a job after it:
///
/// ```
/// let noon = TableTime::new(&paris, 1_719_828_000)?;
/// let run = cron.find_next_occurrence(&noon, false)?;
/// ```
#[derive(Debug, Clone, Copy)]
pub struct TableTime<'t> {
    table: &'t ClockTable,
    second: i64,
    pub ghost held: { IsTrue (Spec.is_table_second second) },
}

impl<'t> TableTime<'t> {
    ghost use Rattle.croner_base.specs.TableZone.{instants_around, instants_of, table_moment};
    ghost use Rattle.croner_base.specs.Private.TableSteps.{AreOn, first_reading, first_resolved, last_reading, last_resolved, offset_past, seconds_of};
    ghost use Rattle.croner_base.specs.Zone.{reading};
    ghost use Rattle.croner_base.specs.ZonedZone.{is_timestamp_second};
    ghost use Rattle.jiff_core.specs.Timestamp.{nanos_of_seconds};
    ghost use Rattle.std.specs.Int.{int_div_euclid};

    /// The second on the clock of the table. `InvalidTime` outside -377,705,116,800 to 253,402,300,799, the UTC years
    /// -9999 to 9999.
    ///
    /// ```
    /// let noon = TableTime::new(&paris, 1_719_828_000)?; // 2024-07-01T12:00:00
    /// let refused = TableTime::new(&paris, 253_402_300_800); // Err(InvalidTime): the UTC year 10000
    /// ```
    pub fn new(table: &'t ClockTable, second: i64) -> Result<TableTime<'t>, CronError>
        ensures ok { IsOk result ↔ IsTrue (Spec.is_table_second second) }
        ensures value { IfOk result (λ t. t.second ≡ second) }
        ensures table { IfOk result (λ t. t.table.now ≡ table.now) }
        ensures err { IfErr result (λ e. e ≡ CronError.InvalidTime) }
    {
        if is_instant(second) {
            Ok(TableTime { table, second })
        } else {
            Err(CronError::InvalidTime)
        }
    }

    /// The second, on the table's clock, in which an instant of `jiff` lies. The instant's fraction is dropped, so a search
    /// backward finds a run at the beginning of that second only if the search is inclusive.
    ///
    /// ```
    /// let now = Timestamp::now(&rt)?;
    /// let run = cron.find_next_occurrence(&TableTime::of_timestamp(&paris, now), false)?;
    /// ```
    pub fn of_timestamp(table: &'t ClockTable, instant: Timestamp) -> TableTime<'t>
        ensures value { result.second ≡ int_div_euclid instant.nanosecond (pos 1_000_000_000) }
        ensures table { result.table.now ≡ table.now }
    {
        TableTime {
            table,
            second: instant.to_plain().floor_second(),
        }
    }

    /// This second as an instant of `jiff`. `InvalidTime` outside -377,705,023,201 to 253,402,207,200, the seconds of
    /// `jiff`'s instants.
    ///
    /// ```
    /// let noon = TableTime::new(&paris, 1_719_828_000)?;
    /// let instant = noon.timestamp()?; // 2024-07-01T10:00:00Z
    /// ```
    pub fn timestamp(&self) -> Result<Timestamp, CronError>
        ensures ok { IsOk result ↔ IsTrue (is_timestamp_second self.now.second) }
        ensures value { IfOk result (λ t. t.nanosecond ≡ nanos_of_seconds self.now.second) }
        ensures err { IfErr result (λ e. e ≡ CronError.InvalidTime) }
    {
        match Timestamp::from_second(self.second) {
            Ok(instant) => Ok(instant),
            Err(_) => Err(CronError::InvalidTime),
        }
    }

    /// The table of its clock.
    ///
    /// ```
    /// let noon = TableTime::new(&paris, 1_719_828_000)?;
    /// let ahead = noon.table().first_offset(); // 3600
    /// ```
    pub fn table(&self) -> &'t ClockTable
        ensures { result.now ≡ self.now.table.now }
    {
        self.table
    }

    /// Seconds since 1970-01-01T00:00:00 UTC, from -377,705,116,800 to 253,402,300,799.
    ///
    /// ```
    /// let noon = TableTime::new(&paris, 1_719_828_000)?;
    /// let second = noon.second(); // 1719828000
    /// ```
    pub fn second(&self) -> i64
        ensures value { result ≡ self.now.second }
        ensures bound { IsTrue (Spec.is_table_second result) }
    {
        self.second
    }

    // What the clock reads.
    #[tactic(auto, using(crate::proofs::tables::TableReadings::offsets), unfolding(crate::specs::TableZone::clock))]
    fn wall(&self) -> i64
        ensures value { result ≡ reading (table_moment self.now) }
        ensures low { first_reading ≤ℤ result }
        ensures high { result ≤ℤ last_reading }
    {
        self.second + self.table.offset_at(self.second)
    }

    // The seconds at which the clock reads a wall second.
    fn resolution_of(&self, wall: i64) -> Resolution<TableTime<'t>>
        requires low { first_resolved ≤ℤ wall }
        requires high { wall ≤ℤ last_resolved }
        ensures value { seconds_of result ≡ instants_of self.now.table.now.first_offset self.now.table.now.changes.items wall }
        ensures table { AreOn self.now.table.now result }
    {
        // A change more than a day before the wall second is past at each of them; of the other changes the first decides.
        let passed = self
            .table
            .changes_until(wall - OFFSET_LIMIT_SECONDS as i64 - 1);
        let by_old = self.by_offset_past(passed, wall);
        if passed == self.table.changes.len() {
            return Resolution::Single(by_old);
        }
        let by_new = self.by_offset_past(passed + 1, wall);
        Self::resolution_near_change(self.table.instant_of(passed), by_old, by_new)
    }

    // The seconds near a change at which the clock reads a wall second: the one by the offset before the change, if
    // it lies before the change, and the one by the offset after it, if it doesn't.
    fn resolution_near_change(
        change: i64,
        by_old: TableTime<'t>,
        by_new: TableTime<'t>,
    ) -> Resolution<TableTime<'t>>
        ensures value { seconds_of result ≡ instants_around change by_old.entry.second by_new.entry.second }
        ensures table { (t : ClockTable) → by_old.entry.table.now ≡ t → by_new.entry.table.now ≡ t → AreOn t result }
    {
        if by_old.second < change {
            if by_new.second < change {
                Resolution::Single(by_old)
            } else {
                Resolution::Ambiguous(by_old, by_new)
            }
        } else if by_new.second < change {
            Resolution::Gap
        } else {
            Resolution::Single(by_new)
        }
    }

    // The second at which the clock reads a wall second, if the offset after so many changes is in force.
    #[tactic(auto, using(crate::proofs::tables::TableReadings::offsets))]
    fn by_offset_past(&self, count: usize, wall: i64) -> TableTime<'t>
        requires count { count ≤ vec_len self.now.table.now.changes }
        requires low { first_resolved ≤ℤ wall }
        requires high { wall ≤ℤ last_resolved }
        ensures second { result.second ≡ wall -ℤ offset_past self.now.table.now.first_offset self.now.table.now.changes.items count }
        ensures table { result.table.now ≡ self.now.table.now }
    {
        self.time_at(wall - self.table.offset_past(count))
    }

    // Another second on the same clock.
    fn time_at(&self, second: i64) -> TableTime<'t>
        requires { IsTrue (Spec.is_table_second second) }
        ensures second { result.second ≡ second }
        ensures table { result.table.now ≡ self.now.table.now }
    {
        TableTime {
            table: self.table,
            second,
        }
    }
}

impl<'t> CronDateTime for TableTime<'t> {
    ghost use Rattle.croner_base.specs.TableZone.{table_moment};
    ghost use Rattle.croner_base.specs.Zone.{IsResolved, IsUnheld};
    ghost use Rattle.croner_base.specs.ZonedZone.{is_near_year};

    ghost moment = { table_moment };

    ghost can_lack_memory = { false };

    #[inline(always)]
    fn to_civil(&self) -> CivilDateTime {
        civil_of_second(self.wall())
    }

    fn civil_weekday(&self) -> Weekday {
        let day = self.wall().div_euclid(SECONDS_PER_DAY as i64);
        Weekday::from_days_from_sunday((day + 4).rem_euclid(DAYS_PER_WEEK as i64) as u32)
    }

    #[inline(always)]
    fn resolve_civil(
        &self,
        _alloc: Global,
        civil: CivilDateTime,
    ) -> Result<Resolution<TableTime<'t>>, CronError>
        ensures held { IsOk result ↔ IsTrue (is_near_year civil.date.year) }
        ensures value { IfOk result (IsResolved table_moment (table_moment self.now).zone civil) }
        ensures err { IfErr result (IsUnheld false (table_moment self.now).zone civil) }
        ensures date { IfErr result (λ e. e ≡ CronError.InvalidDate) }
    {
        if civil.year() < -YEAR_LIMIT || civil.year() > YEAR_LIMIT {
            return Err(CronError::InvalidDate);
        }
        Ok(self.resolution_of(civil.wall_second()))
    }

    #[tactic(auto, using(crate::proofs::tables::TableReadings::offsets), unfolding(crate::specs::TableZone::clock))]
    fn checked_add_seconds(
        &self,
        _alloc: Global,
        seconds: i64,
    ) -> Result<Option<TableTime<'t>>, CronError> {
        let sum = match self.second.checked_add(seconds) {
            Some(sum) => sum,
            None => return Ok(None),
        };
        if is_instant(sum) {
            Ok(Some(self.time_at(sum)))
        } else {
            Ok(None)
        }
    }

    fn cmp_instant(&self, other: &Self) -> Ordering {
        self.second.cmp(&other.second)
    }

    ghost clone_keeps = { λ a b e. ap table_moment e };

    ghost clone_memory = { λ a h. tt };
}
