//! The clock on which runs are listed: that of a zone, from some days before the start to the end of the searched years.
ghost use Rattle.std.specs.Prelude.{◌≡◌, ◌≤◌, not, IfOk, IfErr, IfSome, pos, ◌+ℤ◌, ◌-ℤ◌, ◌<ℤ◌, ◌≤ℤ◌};
ghost use Rattle.std.specs.Bool.{OnTrue, OnFalse};
ghost use Rattle.jiff.specs.ZoneView.{plain_zone};
ghost use Rattle.jiff_core.specs.Timestamp.{nanos_of_seconds};
ghost use Rattle.croner_base.specs.Limits.{most_gap_seconds};
ghost use Rattle.croner_base.specs.Table.{is_offset, met_gaps};
ghost use Rattle.croner_base.specs.TableZone.{table_zone};
ghost use Rattle.croner_base.specs.ZoneTable.{IsWindow, IsCalmWindow, ahead_at, window_changes};
ghost use Rattle.croner_base.specs.ZonedZone.{first_timestamp};
ghost use Rattle.croner.specs.laws.Zones.{IsClockOf, IsWellIn};
ghost use Rattle.croncheck_runs.specs.Clock.{last_second, first_of, last_of, last_before, two_days_before, start_after, IsHeldSecond, IsStop, HasStop, IsStopOf, IsReason, IsReasonBy, IsFollowed, IsStartFrom, IsNextStop, IsNext, IsRefusalBy, IsNoClock};

mod skipped;
pub mod stop;

use crate::clock::skipped::{skipped_at, skipped_in};
use crate::clock::stop::{Reason, Stop};
use croner::errors::CronError;
use croner::time::table::ClockTable;
use croner_base::limits::{GAP_LIMIT_SECONDS, SECONDS_PER_DAY};
use jiff::tz::TimeZone;
use jiff_core::Timestamp;
use std::alloc::{AllocError, Global};

/// How many seconds before the start the window begins.
pub(crate) const SECONDS_BEFORE: i64 = 259_200;

/// The first start whose window `jiff` holds.
pub(crate) const FIRST_START: i64 = -377_704_764_001;

/// The last second of the window: 5001-01-01T23:59:59 UTC. A clock that is a day behind UTC at most shows none of year 5000 after it.
pub const LAST_SECOND: i64 = 95_649_206_399;

const NANOS_PER_SECOND: i128 = 1_000_000_000;

/// The most seconds that a clock on which searches are made is ahead of UTC, or behind it: a day.
const MOST_AHEAD: i32 = SECONDS_PER_DAY as i32;

/// The most seconds by which a change that searches go over puts the clock forward.
const SECONDS_FORWARD: i64 = GAP_LIMIT_SECONDS as i64;

/// The most seconds by which a change that searches go over puts the clock back.
const SECONDS_BACK: i64 = 7_200;

/// Two changes have to lie more than this many seconds apart for searches to go over them.
const SECONDS_APART: i64 = 172_800;

/// The most seconds that a clock may skip in all for searches to go over its changes.
const MOST_SKIPPED: u64 = 20_000_000;

/// The clock of a zone in a window: from three days before a start to the end of 5001-01-01 in UTC, after which no run comes, or to the
/// second before the stop, if there is one.
///
/// In this window it shows what the zone shows. The start lies far enough inside that a listing from there on is the zone's own.
pub struct Clock {
    table: ClockTable,
    stop: Option<Stop>,
}

// By hand, so that a function that lets one go calls this one: its proof doesn't go through the fields at each exit.
impl Drop for Clock {
    fn drop(self) {
        let Clock { table: _, stop: _ } = self;
    }
}

/// Why a zone has no clock from a start on.
#[derive(Clone, Copy, Drop)]
pub enum NoClock {
    /// The window of the start stops at the start or before it.
    Change {
        stop: Stop,
        /// A start after the stop that has a clock, if one was found; in seconds since 1970-01-01T00:00:00 UTC.
        next: Option<i64>,
    },
    /// The start lies outside -377,704,764,001 to 95,649,206,399 seconds since 1970-01-01T00:00:00 UTC.
    Outside,
    /// Memory was asked for and not found.
    OutOfMemory,
}

impl Clock {
    /// The clock of a zone from a start on, which is given in seconds since 1970-01-01T00:00:00 UTC. The error says why there is none.
    pub fn of(alloc: Global, zone: &TimeZone<'_>, start: i64) -> Result<Clock, NoClock>
        ensures clock { IfOk result (λ c. IsClockOf (plain_zone zone.now) (first_of start) (last_of c.stop) (table_zone c.table)) }
        ensures start { IfOk result (λ c. IsWellIn (plain_zone zone.now) (first_of start) (last_of c.stop) start) }
        ensures stop { IfOk result (λ c. HasStop (plain_zone zone.now) (first_of start) c.stop) }
        ensures err { IfErr result (IsNoClock (plain_zone zone.now) start) }
        ensures followed { IsFollowed (plain_zone zone.now) start → IfErr result (λ e. e ≡ NoClock.OutOfMemory) }
    {
        if start < FIRST_START || LAST_SECOND < start {
            return Err(NoClock::Outside);
        }
        let first = first_of(start);
        match ClockTable::of_zone(alloc, zone, first, LAST_SECOND) {
            Ok(table) => Ok(Clock { table, stop: None }),
            Err(CronError::InvalidTime) => clock_up_to_stop(alloc, zone, start, first),
            Err(_) => Err(NoClock::OutOfMemory),
        }
    }

    /// Its table, with which times on the clock are made.
    pub fn table(&self) -> &ClockTable
        ensures { result.now ≡ self.now.table }
    {
        &self.table
    }

    /// Where and why its window ends early, if it ends before year 5000 does.
    pub fn stop(&self) -> Option<Stop>
        ensures { result ≡ self.now.stop }
    {
        self.stop
    }

    /// The last second of its window, if that ends before year 5000 does.
    pub fn last(&self) -> Option<i64>
        ensures { result ≡ last_before self.now.stop }
    {
        match self.stop {
            Some(stop) => Some(stop.second - 1),
            None => None,
        }
    }
}

// The first second of the window of a start.
fn first_of(start: i64) -> i64
    requires { first_timestamp ≤ℤ first_of start }
    ensures { result ≡ first_of start }
{
    start - SECONDS_BEFORE
}

// The clock of a start whose window isn't calm to its end: up to the second before its stop, if the start lies before that.
fn clock_up_to_stop(
    alloc: Global,
    zone: &TimeZone<'_>,
    start: i64,
    first: i64,
) -> Result<Clock, NoClock>
    requires first_is { first ≡ first_of start }
    requires window { IsWindow first last_second }
    requires not_calm { ¬ (IsCalmWindow (plain_zone zone.now) first last_second) }
    ensures clock { IfOk result (λ c. IsClockOf (plain_zone zone.now) first (last_of c.stop) (table_zone c.table)) }
    ensures start { IfOk result (λ c. IsWellIn (plain_zone zone.now) first (last_of c.stop) start) }
    ensures stop { IfOk result (λ c. HasStop (plain_zone zone.now) first c.stop) }
    ensures err { IfErr result (IsNoClock (plain_zone zone.now) start) }
    ensures followed { IsFollowed (plain_zone zone.now) start → IfErr result (λ e. e ≡ NoClock.OutOfMemory) }
{
    let Ok(stop) = stop_of(alloc, zone, first) else {
        return Err(NoClock::OutOfMemory);
    };
    if stop.second <= start {
        return Err(refusal_by(alloc, zone, stop));
    }
    match ClockTable::of_zone(alloc, zone, first, stop.second - 1) {
        Ok(table) => Ok(Clock {
            table,
            stop: Some(stop),
        }),
        Err(_) => Err(NoClock::OutOfMemory),
    }
}

// Why there is no clock if its window stops here, at the start or before it.
fn refusal_by(alloc: Global, zone: &TimeZone<'_>, stop: Stop) -> NoClock
    ensures { IsRefusalBy (plain_zone zone.now) stop result }
{
    match start_after(alloc, zone, stop.second) {
        Ok(next) => NoClock::Change { stop, next },
        Err(_) => NoClock::OutOfMemory,
    }
}

// A start that has a clock: three days after a stop, or after the next stop in these days.
fn start_after(alloc: Global, zone: &TimeZone<'_>, stop: i64) -> Result<Option<i64>, AllocError>
    requires { IsHeldSecond stop }
    ensures { IfOk result (IsNext (plain_zone zone.now) stop) }
{
    if let Some(start) = start_from(alloc, zone, stop)? {
        return Ok(Some(start));
    }
    match stop_after(alloc, zone, stop)? {
        Some(again) => start_from(alloc, zone, again),
        None => Ok(None),
    }
}

// The start three days after a second, if its window, which begins there, is calm up to it.
fn start_from(alloc: Global, zone: &TimeZone<'_>, first: i64) -> Result<Option<i64>, AllocError>
    requires { IsHeldSecond first }
    ensures { IfOk result (IsStartFrom (plain_zone zone.now) first) }
{
    if LAST_SECOND - SECONDS_BEFORE < first {
        return Ok(None);
    }
    if is_calm(alloc, zone, first, SECONDS_BEFORE as u64)? {
        Ok(Some(first + SECONDS_BEFORE))
    } else {
        Ok(None)
    }
}

// Where the three days after a second, which aren't calm, stop to be it, if they do so after it.
fn stop_after(alloc: Global, zone: &TimeZone<'_>, first: i64) -> Result<Option<i64>, AllocError>
    requires held { IsHeldSecond first }
    requires not_followed { ¬ (IsFollowed (plain_zone zone.now) (start_after first)) }
    ensures { IfOk result (IsNextStop (plain_zone zone.now) first) }
{
    if LAST_SECOND - SECONDS_BEFORE < first {
        return Ok(None);
    }
    if !is_calm(alloc, zone, first, 0)? {
        return Ok(None);
    }
    let seconds = first_stop(alloc, zone, first, SECONDS_BEFORE as u64)?;
    Ok(Some(second_after(first, seconds)))
}

// Where a window up to the last second stops, and why.
fn stop_of(alloc: Global, zone: &TimeZone<'_>, first: i64) -> Result<Stop, AllocError>
    requires window { IsWindow first last_second }
    requires not_calm { ¬ (IsCalmWindow (plain_zone zone.now) first last_second) }
    ensures { IfOk result (IsStopOf (plain_zone zone.now) first) }
{
    let second = stop_second_of(alloc, zone, first)?;
    let reason = reason_of(alloc, zone, first, second)?;
    Ok(Stop { second, reason })
}

/// How many seconds a zone's clock is ahead of UTC at a second; a negative number is behind it.
pub fn ahead_at(zone: &TimeZone<'_>, second: i64) -> i32
    requires { IsHeldSecond second }
    ensures { result ≡ ahead_at (plain_zone zone.now) second }
{
    zone.to_plain().to_offset(instant_of(second)).seconds
}

// The instant of a second.
fn instant_of(second: i64) -> Timestamp
    requires { IsHeldSecond second }
    ensures { result.nanosecond ≡ nanos_of_seconds second }
{
    Timestamp {
        nanosecond: second as i128 * NANOS_PER_SECOND,
    }
}

// Why a window stops at a second.
fn reason_of(
    alloc: Global,
    zone: &TimeZone<'_>,
    first: i64,
    second: i64,
) -> Result<Reason, AllocError>
    requires { IsStop (plain_zone zone.now) first last_second second }
    ensures { IfOk result (IsReason (plain_zone zone.now) first second) }
{
    let there = ahead_at(zone, second);
    if is_far(there) {
        return Ok(Reason::Far(there));
    }
    if second == first {
        return Ok(Reason::Many);
    }
    let before = ahead_at(zone, second - 1);
    let earlier = ahead_at(zone, two_days_before(first, second));
    let skipped = skipped_up_to(alloc, zone, first, second - 1)?;
    let skipped = skipped + skipped_at(before, (second, there));
    Ok(reason_by(earlier, before, there, skipped))
}

// How many seconds a zone's clock skips in a calm window, in the years that a pattern can name.
fn skipped_up_to(
    alloc: Global,
    zone: &TimeZone<'_>,
    first: i64,
    last: i64,
) -> Result<u64, AllocError>
    requires { IsCalmWindow (plain_zone zone.now) first last }
    ensures value { IfOk result (λ n. n ≡ met_gaps (ahead_at (plain_zone zone.now) first) (window_changes (plain_zone zone.now) first last)) }
    ensures bound { IfOk result (λ n. n ≤ most_gap_seconds) }
{
    match ClockTable::of_zone(alloc, zone, first, last) {
        Ok(table) => Ok(skipped_in(&table)),
        Err(_) => Err(AllocError),
    }
}

// Whether a clock is more than a day ahead of UTC, or behind it.
fn is_far(ahead: i32) -> bool
    ensures { result ≡ not (is_offset ahead) }
{
    ahead < -MOST_AHEAD || MOST_AHEAD < ahead
}

// Two days before the second in front of another one, but no second before the first.
fn two_days_before(first: i64, second: i64) -> i64
    requires first { IsHeldSecond first }
    requires second { IsHeldSecond second }
    ensures value { result ≡ two_days_before first second }
    ensures held { IsHeldSecond result }
{
    let earlier = second - 1 - SECONDS_APART;
    if earlier < first { first } else { earlier }
}

// Why searches don't go over a change, by how far the clock is ahead of UTC there, in the second before, and two days before that, and by
// how many seconds it has skipped in all with the change.
fn reason_by(earlier: i32, before: i32, there: i32, skipped: u64) -> Reason
    ensures { IsReasonBy earlier before there skipped result }
{
    let forward = there as i64 - before as i64;
    if forward > SECONDS_FORWARD {
        Reason::Forward(forward)
    } else if -forward > SECONDS_BACK {
        Reason::Back(-forward)
    } else if earlier != before {
        Reason::Soon
    } else if skipped > MOST_SKIPPED {
        Reason::Skipped
    } else {
        Reason::Many
    }
}

// The first second with which a window up to the last one is no longer calm.
fn stop_second_of(alloc: Global, zone: &TimeZone<'_>, first: i64) -> Result<i64, AllocError>
    requires window { IsWindow first last_second }
    requires not_calm { ¬ (IsCalmWindow (plain_zone zone.now) first last_second) }
    ensures { IfOk result (IsStop (plain_zone zone.now) first last_second) }
{
    let to_last = seconds_to_last(first);
    if !is_calm(alloc, zone, first, 0)? {
        return Ok(first);
    }
    let seconds = first_stop(alloc, zone, first, to_last)?;
    Ok(second_after(first, seconds))
}

// How many seconds the last one lies after a first one.
fn seconds_to_last(first: i64) -> u64
    requires { IsWindow first last_second }
    ensures { last_second ≡ first +ℤ pos result }
{
    (LAST_SECOND - first) as u64
}

// The second so many after a first one.
fn second_after(first: i64, seconds: u64) -> i64
    requires { IsWindow first (first +ℤ pos seconds) }
    ensures { result ≡ first +ℤ pos seconds }
{
    first + seconds as i64
}

// Whether the window up to so many seconds after a first one is calm.
fn is_calm(alloc: Global, zone: &TimeZone<'_>, first: i64, seconds: u64) -> Result<bool, AllocError>
    requires { IsWindow first (first +ℤ pos seconds) }
    ensures calm { IfOk result (λ b. OnTrue b (IsCalmWindow (plain_zone zone.now) first (first +ℤ pos seconds))) }
    ensures not_calm { IfOk result (λ b. OnFalse b (¬ (IsCalmWindow (plain_zone zone.now) first (first +ℤ pos seconds)))) }
{
    match ClockTable::of_zone(alloc, zone, first, second_after(first, seconds)) {
        Ok(_) => Ok(true),
        Err(CronError::InvalidTime) => Ok(false),
        Err(_) => Err(AllocError),
    }
}

// How many seconds after a first one, which is calm by itself, a window is no longer calm, given that it isn't calm at `to_last` seconds.
fn first_stop(
    alloc: Global,
    zone: &TimeZone<'_>,
    first: i64,
    to_last: u64,
) -> Result<u64, AllocError>
    requires window { IsWindow first (first +ℤ pos to_last) }
    requires calm { IsCalmWindow (plain_zone zone.now) first (first +ℤ pos 0) }
    requires not_calm { ¬ (IsCalmWindow (plain_zone zone.now) first (first +ℤ pos to_last)) }
    ensures { IfOk result (λ n. IsStop (plain_zone zone.now) first (first +ℤ pos to_last) (first +ℤ pos n)) }
{
    let mut calm: u64 = 0;
    let mut gap = to_last;
    while 1 < gap {
        let half = gap / 2;
        if is_calm(alloc, zone, first, calm + half)? {
            calm += half;
            gap -= half;
        } else {
            gap = half;
        }
    }
    Ok(calm + 1)
}
