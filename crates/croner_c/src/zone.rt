//! The clock of a time zone in a window.
ghost use Rattle.std.specs.Prelude.{◌≡◌, true, pos, nat_le, if◌then◌else◌, map, IfOk, IsUtf8};
ghost use Rattle.jiff.specs.ZoneView.{plain_zone};
ghost use Rattle.croner_c.specs.Answers.{After, Tells, seen};
ghost use Rattle.croner_c.specs.Clocks.{is_window};
ghost use Rattle.croner_c.specs.Zones as Spec;

use crate::clock::{Change, is_window};
use crate::put::put;
use crate::status::{OK, Reason};
use croner_base::errors::CronError;
use croner_base::time::table::ClockTable;
use jiff::Error;
use jiff::tz::{TimeZone, Tzif};
use std::alloc::{AllocError, Global};

/// The most bytes of a time zone file.
const MOST_FILE_BYTES: usize = 1_000_000;

/// The most bytes of a rule.
const MOST_RULE_BYTES: usize = 1_000;

/// How long before its window a clock begins.
const MARGIN_SECONDS: i64 = 180_000;

/// Writes the clock of a time zone file: the changes that fit, how far it is ahead of UTC before them, and how many they are.
#[unsafe(no_mangle)]
pub extern "C" fn croner_c_clock_of_tzif(
    alloc: Global,
    bytes: &[u8],
    first: i64,
    last: i64,
    changes: &mut [Change],
    ahead: &mut i32,
    count: &mut usize,
) -> i32
    ensures { Tells (Spec.IsClockOfFile bytes.now first last) Spec.tell_clock (changes.old, (ahead.old, count.old))
        (result, (changes.new, (ahead.new, count.new))) }
{
    match clock_of_tzif(alloc, bytes, first, last) {
        Ok((before, found)) => put_clock(before, found.as_slice(), changes, ahead, count),
        Err(reason) => reason.status(),
    }
}

/// Writes the clock of a POSIX rule.
#[unsafe(no_mangle)]
pub extern "C" fn croner_c_clock_of_posix(
    alloc: Global,
    rule: &[u8],
    first: i64,
    last: i64,
    changes: &mut [Change],
    ahead: &mut i32,
    count: &mut usize,
) -> i32
    ensures { Tells (Spec.IsClockOfRule rule.now first last) Spec.tell_clock (changes.old, (ahead.old, count.old))
        (result, (changes.new, (ahead.new, count.new))) }
{
    match clock_of_posix(alloc, rule, first, last) {
        Ok((before, found)) => put_clock(before, found.as_slice(), changes, ahead, count),
        Err(reason) => reason.status(),
    }
}

/// The clock of a time zone file.
fn clock_of_tzif(
    alloc: Global,
    bytes: &[u8],
    first: i64,
    last: i64,
) -> Result<(i32, Vec<Change>), Reason>
    ensures { Spec.IsClockOfFile bytes.now first last (seen (λ r. (r.0, r.1.items)) result) }
{
    if bytes.len() <= MOST_FILE_BYTES && is_window(first, last) {
        clock_of_file(alloc, bytes, first, last)
    } else {
        Err(Reason::BadArgument)
    }
}

/// The clock of a file's bytes in a window.
fn clock_of_file(
    alloc: Global,
    bytes: &[u8],
    first: i64,
    last: i64,
) -> Result<(i32, Vec<Change>), Reason>
    requires { is_window first last ≡ true }
    ensures { After (Spec.IsZoneOfFile bytes.now) (Spec.IsClockIn first last) (seen (λ r. (r.0, r.1.items)) result) }
{
    match Tzif::parse(alloc, None, bytes) {
        Ok(tzif) => clock_of_zone(alloc, &TimeZone::tzif(&tzif), first, last),
        Err(Error::Tzif(_)) => Err(Reason::BadZone),
        Err(_) => Err(Reason::OutOfMemory),
    }
}

/// The clock of a POSIX rule.
fn clock_of_posix(
    alloc: Global,
    rule: &[u8],
    first: i64,
    last: i64,
) -> Result<(i32, Vec<Change>), Reason>
    ensures { Spec.IsClockOfRule rule.now first last (seen (λ r. (r.0, r.1.items)) result) }
{
    if rule.len() <= MOST_RULE_BYTES && is_window(first, last) {
        clock_of_bytes(alloc, rule, first, last)
    } else {
        Err(Reason::BadArgument)
    }
}

/// The clock of a rule's bytes in a window.
fn clock_of_bytes(
    alloc: Global,
    rule: &[u8],
    first: i64,
    last: i64,
) -> Result<(i32, Vec<Change>), Reason>
    requires { is_window first last ≡ true }
    ensures { After (Spec.IsZoneOfRule rule.now) (Spec.IsClockIn first last) (seen (λ r. (r.0, r.1.items)) result) }
{
    match std::str::from_utf8(rule) {
        Ok(rule) => clock_of_rule(alloc, rule, first, last),
        Err(_) => Err(Reason::BadZone),
    }
}

/// The clock of a rule's text in a window.
fn clock_of_rule(
    alloc: Global,
    rule: &str,
    first: i64,
    last: i64,
) -> Result<(i32, Vec<Change>), Reason>
    requires { is_window first last ≡ true }
    ensures { IsUtf8 rule.now → After (Spec.IsZoneOfRule rule.now) (Spec.IsClockIn first last) (seen (λ r. (r.0, r.1.items)) result) }
{
    match TimeZone::posix(rule) {
        Ok(zone) => clock_of_zone(alloc, &zone, first, last),
        Err(_) => Err(Reason::BadZone),
    }
}

/// The clock of a zone in a window.
fn clock_of_zone(
    alloc: Global,
    zone: &TimeZone<'_>,
    first: i64,
    last: i64,
) -> Result<(i32, Vec<Change>), Reason>
    requires { is_window first last ≡ true }
    ensures { Spec.IsClockIn first last (plain_zone zone.now) (seen (λ r. (r.0, r.1.items)) result) }
{
    match ClockTable::of_zone(alloc, zone, first - MARGIN_SECONDS, last) {
        Ok(table) => clock_of_table(alloc, &table),
        Err(CronError::InvalidTime) => Err(Reason::NotCalm),
        Err(_) => Err(Reason::OutOfMemory),
    }
}

/// The parts of a table.
fn clock_of_table(alloc: Global, table: &ClockTable) -> Result<(i32, Vec<Change>), Reason>
    ensures { Spec.HasClock (Spec.clock_of table.now) (seen (λ r. (r.0, r.1.items)) result) }
{
    match changes_of(alloc, table.changes()) {
        Ok(changes) => Ok((table.first_offset(), changes)),
        Err(_) => Err(Reason::OutOfMemory),
    }
}

/// Writes a clock.
fn put_clock(
    before: i32,
    found: &[Change],
    room: &mut [Change],
    ahead: &mut i32,
    count: &mut usize,
) -> i32
    ensures { (result, (room.new, (ahead.new, count.new))) ≡ Spec.tell_clock (before, found.now) (room.old, (ahead.old, count.old)) }
{
    let status = status_of_room(found.len(), room.len());
    *ahead = before;
    *count = put(found, room);
    status
}

/// Whether so many fit.
fn status_of_room(count: usize, room: usize) -> i32
    ensures { result ≡ (if nat_le count room then pos 0 else pos 7) }
{
    if count <= room {
        OK
    } else {
        Reason::TooSmall.status()
    }
}

/// The rows of a table as changes.
fn changes_of(alloc: Global, rows: &[(i64, i32)]) -> Result<Vec<Change>, AllocError>
    ensures { IfOk result (λ v. v.items ≡ map Spec.change_of rows.now) }
{
    rows.iter()
        .map(
            |row: &(i64, i32)| -> Change
                ensures { result ≡ Spec.change_of row.now }
            {
                Change {
                    second: row.0,
                    ahead: row.1,
                    reserved: 0,
                }
            },
        )
        .collect(alloc)
}
