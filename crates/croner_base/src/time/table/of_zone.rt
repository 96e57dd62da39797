//! The table of what a time zone of `jiff` shows in a window.
ghost use Rattle.std.specs.Prelude.{◌≡◌, ◌-◌, ◌≤◌, ◌++◌, IsOk, IfOk, IfErr, ℤ, pos, ◌+ℤ◌, ◌<ℤ◌, ◌≤ℤ◌, map, drop, vec_len};
ghost use Rattle.std.specs.List.{All};
ghost use Rattle.jiff.specs.ZoneView.{plain_zone};
ghost use Rattle.jiff_core.specs.Timestamp.{nanos_of_seconds};
ghost use Rattle.croner_base.specs.Private.ZoneSteps.{IsHeld, IsReading, IsFirstSecond, IsYearEnd, IsNextQuestion, Repeats, again, period, repeated_until};
ghost use Rattle.croner_base.specs.TableZone.{HasParts, table_zone};
ghost use Rattle.croner_base.specs.ZoneTable.{IsWindow, IsCalmWindow, IsNoTable, ahead_at, window_changes, nearest_in};
ghost use Rattle.croner_base.specs.ZonedZone.{zone_reads, last_timestamp};

use crate::errors::CronError;
use crate::limits::SECONDS_PER_DAY;
use crate::time::table::ClockTable;
use jiff::tz::TimeZone;
use jiff_core::civil::{self, Date};
use jiff_core::{Offset, Timestamp};
use std::alloc::{AllocError, Global};

/// The first second that `jiff` has as an instant.
const FIRST_TIMESTAMP: i64 = -377_705_023_201;

/// The last one.
const LAST_TIMESTAMP: i64 = 253_402_207_200;

const NANOS_PER_SECOND: i128 = 1_000_000_000;

/// The seconds of 400 years, after which a rule names the same days of the week again.
const PERIOD_SECONDS: i64 = 12_622_780_800;

/// -9998-01-01T00:00:00 UTC: from here to `LAST_REPEATED` no offset leads out of `jiff`'s years, so a rule reads the
/// same in each period.
const FIRST_REPEATED: i64 = -377_673_580_800;

/// 9998-12-31T23:59:59 UTC.
const LAST_REPEATED: i64 = 253_370_764_799;

impl ClockTable {
    /// The clock of a time zone in a window, from its first second to its last, in seconds since 1970-01-01T00:00:00
    /// UTC. At each whole second of the window it shows what the zone shows. Before the window it keeps the offset of
    /// the first second, and after the window that of the last.
    ///
    /// The window has a table exactly where that clock is calm, by the limits of [`ClockTable::new`], so this is also
    /// the test whether a zone is calm in a window. `InvalidTime` where it isn't, where the last second is before the
    /// first, and where one of them is outside -377,705,023,201 to 253,402,207,200, the seconds of `jiff`'s instants.
    /// `OutOfMemory` where there is no memory for the changes.
    ///
    /// ```
    /// let zones = TimeZoneDatabase::from_env(&rt)?;
    /// let zone = zones.get("Europe/Paris")?;
    /// let paris = ClockTable::of_zone(rt.alloc(), &zone, 0, 4_102_444_799)?; // the years 1970 to 2099
    /// ```
    pub fn of_zone(
        alloc: Global,
        zone: &TimeZone<'_>,
        first: i64,
        last: i64,
    ) -> Result<ClockTable, CronError>
        ensures calm { IsOk result → IsCalmWindow (plain_zone zone.now) first last }
        ensures parts { IfOk result (HasParts (ahead_at (plain_zone zone.now) first) (window_changes (plain_zone zone.now) first last)) }
        ensures reads { IfOk result (λ t. (i : ℤ) → first ≤ℤ i → i ≤ℤ last → (table_zone t).reads i ≡ zone_reads (plain_zone zone.now) i) }
        ensures beyond { IfOk result (λ t. (i : ℤ) → (table_zone t).reads i ≡ i +ℤ ahead_at (plain_zone zone.now) (nearest_in first last i)) }
        ensures err { IfErr result (IsNoTable (plain_zone zone.now) first last) }
    {
        if first < FIRST_TIMESTAMP || last < first || last > LAST_TIMESTAMP {
            return Err(CronError::InvalidTime);
        }
        let zone = zone.to_plain();
        let changes = changes_in(alloc, zone, first, last)?;
        ClockTable::new(reading_at(zone, first).ahead, changes)
    }
}

// A second, and how far a zone's clock is ahead of UTC there.
#[derive(Clone, Copy)]
struct Reading {
    second: i64,
    ahead: i32,
}

// What a zone shows at a second.
fn reading_at(zone: jiff_tz::TimeZone<'_>, second: i64) -> Reading
    requires { IsHeld second }
    ensures { IsReading zone.entry second result }
{
    Reading {
        second,
        ahead: zone.to_offset(instant_of(second)).seconds,
    }
}

// The changes of a zone's clock after the first second of a window, up to its last.
fn changes_in(
    alloc: Global,
    zone: jiff_tz::TimeZone<'_>,
    first: i64,
    last: i64,
) -> Result<Vec<(i64, i32)>, CronError>
    requires { IsWindow first last }
    ensures value { IfOk result (λ v. v.items ≡ window_changes zone.entry first last) }
    ensures err { IfErr result (λ e. e ≡ CronError.OutOfMemory) }
{
    let mut changes = Vec::new(alloc);
    let repeated = add_ruled(&mut changes, zone, first, last)?;
    add_asked(&mut changes, zone, repeated, last)?;
    Ok(changes)
}

// Adds the changes after a second, up to another, and asks the zone for each.
fn add_asked(
    changes: &mut Vec<(i64, i32)>,
    zone: jiff_tz::TimeZone<'_>,
    first: i64,
    last: i64,
) -> Result<(), AllocError>
    requires { IsWindow first last }
    ensures { IfOk result (λ u. changes.new.items ≡ changes.old.items ++ window_changes zone.entry first last) }
{
    let mut shown = reading_at(zone, first);
    while shown.second < last {
        let next = reading_at(zone, next_question(zone, shown.second, last));
        if next.ahead != shown.ahead {
            changes.push((next.second, next.ahead))?;
        }
        shown = next;
    }
    Ok(())
}

// Where the zone follows its rule for a whole period or more, adds the changes up to the end of the last one, and
// returns that end; else adds none.
fn add_ruled(
    changes: &mut Vec<(i64, i32)>,
    zone: jiff_tz::TimeZone<'_>,
    first: i64,
    last: i64,
) -> Result<i64, AllocError>
    requires { IsWindow first last }
    ensures order { IfOk result (λ r. (first ≤ℤ r) × (r ≤ℤ last)) }
    ensures items { IfOk result (λ r. changes.new.items ≡ changes.old.items ++ window_changes zone.entry first r) }
{
    let ruled = ruled_from(zone).max(first);
    let end = last.min(LAST_REPEATED);
    if end - ruled < PERIOD_SECONDS {
        return Ok(first);
    }
    add_asked(changes, zone, first, ruled)?;
    add_periods(changes, zone, ruled, end)
}

// The second from which the zone follows its rule alone, if it has one, in the years that are repeated.
fn ruled_from(zone: jiff_tz::TimeZone<'_>) -> i64
    ensures held { IsHeld result }
    ensures repeats { Repeats zone.entry result }
{
    match zone {
        jiff_tz::TimeZone::Tzif(table) => match table.transitions().last() {
            Some(row) => row.second.max(FIRST_REPEATED),
            None => FIRST_REPEATED,
        },
        _ => FIRST_REPEATED,
    }
}

// Adds the changes of one period, for which it asks the zone, and repeats them in the whole periods after it. Returns
// where the last one ends.
fn add_periods(
    changes: &mut Vec<(i64, i32)>,
    zone: jiff_tz::TimeZone<'_>,
    first: i64,
    last: i64,
) -> Result<i64, AllocError>
    requires window { IsWindow first last }
    requires one { (first +ℤ pos period) ≤ℤ last }
    requires until { last <ℤ repeated_until }
    requires repeats { Repeats zone first }
    ensures order { IfOk result (λ r. (first ≤ℤ r) × (r ≤ℤ last)) }
    ensures items { IfOk result (λ r. changes.new.items ≡ changes.old.items ++ window_changes zone.entry first r) }
{
    let before = changes.len();
    let mut end = first + PERIOD_SECONDS;
    add_asked(changes, zone, first, end)?;
    let count = changes.len() - before;
    while last - end >= PERIOD_SECONDS {
        add_again(changes, count)?;
        end += PERIOD_SECONDS;
    }
    Ok(end)
}

// Adds the last `count` changes again, a period later.
fn add_again(changes: &mut Vec<(i64, i32)>, count: usize) -> Result<(), AllocError>
    requires some { count ≤ vec_len changes.old }
    requires held { All (λ c. c.0 ≤ℤ last_timestamp) (drop (vec_len changes.old - count) changes.old.items) }
    ensures { IfOk result (λ u. changes.new.items ≡ changes.old.items ++ map again (drop (vec_len changes.old - count) changes.old.items)) }
{
    let first = changes.len() - count;
    for place in first..first + count {
        let (second, ahead) = changes[place];
        changes.push((second + PERIOD_SECONDS, ahead))?;
    }
    Ok(())
}

// The next second at which the zone may show another offset, and at most the last of the window: that of the next
// transition, or the first of the next UTC year, since a rule may begin there without a transition.
fn next_question(zone: jiff_tz::TimeZone<'_>, second: i64, last: i64) -> i64
    requires held { IsHeld second }
    requires order { second <ℤ last }
    requires held_last { IsHeld last }
    ensures { IsNextQuestion zone.entry second last result }
{
    let instant = instant_of(second);
    let end = year_end(instant).min(last);
    match zone.next_transition(instant) {
        Some(transition) => first_second(transition.timestamp).max(second + 1).min(end),
        None => end,
    }
}

// The first second of the UTC year after the year of an instant.
fn year_end(instant: Timestamp) -> i64
    ensures { IsYearEnd instant.nanosecond result }
{
    let year = Offset::UTC.to_datetime(instant).date.year;
    let days = civil::days_in_year(year) as i64;
    (Date::constrain(year, 1, 1).to_unix_epoch_day() as i64 + days) * SECONDS_PER_DAY as i64
}

// The first whole second that is not before an instant.
fn first_second(instant: Timestamp) -> i64
    ensures { IsFirstSecond instant.nanosecond result }
{
    let second = instant.floor_second();
    if second as i128 * NANOS_PER_SECOND < instant.nanosecond {
        second + 1
    } else {
        second
    }
}

// The instant of a second.
fn instant_of(second: i64) -> Timestamp
    requires { IsHeld second }
    ensures { result.nanosecond ≡ nanos_of_seconds second }
{
    Timestamp {
        nanosecond: second as i128 * NANOS_PER_SECOND,
    }
}
