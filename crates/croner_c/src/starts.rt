//! When Debian's cron starts the job of a line.
ghost use Rattle.std.specs.Prelude.{◌≡◌, ◌≤◌, true, IfOk, length, map};
ghost use Rattle.crontab.specs.Entries.{entry_seen, job_seen};
ghost use Rattle.crontab.specs.Line.{entry_of, job as a_job};
ghost use Rattle.crontab.specs.Parsed.{crontab_settings};
ghost use Rattle.croner_c.specs.Answers.{Tells, seen};
ghost use Rattle.croner_c.specs.Clocks.{is_accepted, zone_of, IsTableOf, IsTimeOn};
ghost use Rattle.croner_c.specs.Starts as Spec;

use crate::clock::Clock;
use crate::line::dialect_of;
use crate::listing::{MOST_ITEMS, bound, end_status, reason_past};
use crate::put::put;
use crate::status::Reason;
use croner::parser::{CronParser, ParseOutcome, Seconds, Year};
use croner::time::table::{ClockTable, TableTime};
use crontab::line::{Dialect, Entry, Job, Times, entry_of};
use crontab::star::has_clock_star;
use crontab_runs::{CrontabJob, Start, StartsEnd, next_starts_until};
use std::alloc::{AllocError, Global};

/// The starts of a job at one second.
#[repr(C)]
#[derive(Drop, Clone, Copy)]
pub struct Starts {
    pub second: i64,
    /// How many they are.
    pub times: u32,
    /// 0.
    pub reserved: u32,
}

/// Writes the starts of a line's job after a start, up to a second; and at how many seconds they are.
#[unsafe(no_mangle)]
pub extern "C" fn croner_c_crontab_starts(
    alloc: Global,
    line: &[u8],
    table: u32,
    clock: &Clock<'_>,
    start: i64,
    until: i64,
    starts: &mut [Starts],
    count: &mut usize,
) -> i32
    ensures { Tells (Spec.AreStarts line.now table clock.now start until (length starts.old)) Spec.tell_starts (starts.old, count.old)
        (result, (starts.new, count.new)) }
{
    let room = starts.len();
    match started(alloc, line, table, clock, start, until, room) {
        Ok((items, end)) => {
            *count = put(items.as_slice(), starts);
            end_status(end)
        }
        Err(reason) => reason.status(),
    }
}

/// The starts of a line's job, and what ended the listing before room did.
fn started(
    alloc: Global,
    line: &[u8],
    table: u32,
    clock: &Clock<'_>,
    start: i64,
    until: i64,
    room: usize,
) -> Result<(Vec<Starts>, Option<Reason>), Reason>
    ensures { Spec.AreStarts line.now table clock.now start until room (seen (λ r. (r.0.items, r.1)) result) }
{
    match asked_starts(room, table, clock) {
        Ok(dialect) => started_by_line(alloc, dialect, line, clock, start, until, room),
        Err(reason) => Err(reason),
    }
}

/// Whose crontab a call means, if the call is accepted.
fn asked_starts(room: usize, table: u32, clock: &Clock<'_>) -> Result<Dialect, Reason>
    ensures value { result ≡ Spec.asked_starts room table clock.now }
    ensures accepted { IfOk result (λ a. is_accepted clock.now ≡ true) }
    ensures room { IfOk result (λ a. room ≤ 1_000_000) }
{
    if room <= MOST_ITEMS && clock.is_accepted() {
        dialect_of(table)
    } else {
        Err(Reason::BadArgument)
    }
}

/// The starts of a line's job.
fn started_by_line(
    alloc: Global,
    dialect: Dialect,
    line: &[u8],
    clock: &Clock<'_>,
    start: i64,
    until: i64,
    room: usize,
) -> Result<(Vec<Starts>, Option<Reason>), Reason>
    requires accepted { is_accepted clock.now ≡ true }
    requires room { room ≤ 1_000_000 }
    ensures { Spec.AreStartsOf dialect line.now clock.now start until room (seen (λ r. (r.0.items, r.1)) result) }
{
    match job_of_line(alloc, dialect, line) {
        Ok(job) => started_on(alloc, &job, clock, start, until, room),
        Err(reason) => Err(reason),
    }
}

/// The job of a line, if it has times.
fn job_of_line(alloc: Global, dialect: Dialect, line: &[u8]) -> Result<CrontabJob, Reason>
    ensures { Spec.IsJobOf (entry_of dialect line.now) result }
{
    match entry_of(alloc, dialect, line) {
        Ok(entry) => job_of(alloc, &entry),
        Err(_) => Err(Reason::OutOfMemory),
    }
}

/// The job of an entry, if it has times.
fn job_of(alloc: Global, entry: &Entry<'_>) -> Result<CrontabJob, Reason>
    ensures { Spec.IsJobOf (entry_seen entry.now) result }
{
    match entry {
        Entry::Job(job) => job_with_times(alloc, job),
        Entry::Blank
        | Entry::Comment
        | Entry::Setting { .. }
        | Entry::Pattern(_)
        | Entry::Refused { .. } => Err(Reason::Refused),
    }
}

/// The job of a line that is one, if it has times. No message is made of a text that is refused, as `CrontabJob::of_line` would.
fn job_with_times(alloc: Global, entry: &Job<'_>) -> Result<CrontabJob, Reason>
    ensures { Spec.IsJobOf (a_job (job_seen entry.now)) result }
{
    match &entry.times {
        Times::Reboot | Times::Never => Err(Reason::Refused),
        Times::Named { text, both_days } => {
            match parser_of_lines(*both_days).parse_or_explain(alloc, text.as_str()) {
                Ok(ParseOutcome::Accepted(cron)) => Ok(CrontabJob {
                    cron,
                    is_starred: has_clock_star(entry.schedule),
                }),
                Ok(ParseOutcome::Refused(_)) => Err(Reason::Refused),
                Err(_) => Err(Reason::OutOfMemory),
            }
        }
    }
}

/// The parser of a job's text: five fields, where a day has to match both day fields, or either.
fn parser_of_lines(both_days: bool) -> CronParser
    ensures { result ≡ crontab_settings both_days }
{
    CronParser::builder()
        .seconds(Seconds::Disallowed)
        .year(Year::Disallowed)
        .dom_and_dow(both_days)
        .build()
}

/// The starts of a job on a clock.
fn started_on(
    alloc: Global,
    job: &CrontabJob,
    clock: &Clock<'_>,
    start: i64,
    until: i64,
    room: usize,
) -> Result<(Vec<Starts>, Option<Reason>), Reason>
    requires accepted { is_accepted clock.now ≡ true }
    requires room { room ≤ 1_000_000 }
    ensures { Spec.AreStartsOn job.now clock.now start until room (seen (λ r. (r.0.items, r.1)) result) }
{
    match clock.table(alloc) {
        Ok(table) => started_on_table(alloc, job, clock, &table, start, until, room),
        Err(reason) => Err(reason),
    }
}

/// The starts of a job on a clock's table.
fn started_on_table(
    alloc: Global,
    job: &CrontabJob,
    clock: &Clock<'_>,
    table: &ClockTable,
    start: i64,
    until: i64,
    room: usize,
) -> Result<(Vec<Starts>, Option<Reason>), Reason>
    requires accepted { is_accepted clock.now ≡ true }
    requires table { IsTableOf clock.now table.now }
    requires room { room ≤ 1_000_000 }
    ensures { Spec.AreStartsOn job.now clock.now start until room (seen (λ r. (r.0.items, r.1)) result) }
{
    match clock.time(table, start) {
        Ok(time) => started_from(alloc, job, clock, time, until, room as u32),
        Err(reason) => Err(reason),
    }
}

/// The starts of a job from a time of the window.
fn started_from(
    alloc: Global,
    job: &CrontabJob,
    clock: &Clock<'_>,
    start: TableTime<'_>,
    until: i64,
    room: u32,
) -> Result<(Vec<Starts>, Option<Reason>), Reason>
    requires { IsTimeOn clock.now start }
    ensures { Spec.AreStartsIn job.now clock.now start.entry.second until room (zone_of clock.now) (seen (λ r. (r.0.items, r.1)) result) }
{
    match next_starts_until(alloc, job, start, Some(bound(until, clock.last)), room) {
        Ok((items, end)) => match starts_of(alloc, items.as_slice()) {
            Ok(starts) => Ok((starts, end_of(end, until, clock.last))),
            Err(_) => Err(Reason::OutOfMemory),
        },
        Err(_) => Err(Reason::OutOfMemory),
    }
}

/// Starts for C.
fn starts_of(alloc: Global, items: &[Start]) -> Result<Vec<Starts>, AllocError>
    ensures { IfOk result (λ v. v.items ≡ map Spec.starts_of items.now) }
{
    items
        .iter()
        .map(
            |start: &Start| -> Starts
                ensures { result ≡ Spec.starts_of start.now }
            {
                Starts {
                    second: start.second,
                    times: start.count,
                    reserved: 0,
                }
            },
        )
        .collect(alloc)
}

/// Why there is no start after those of a listing, where the listing isn't full.
fn end_of(end: StartsEnd, until: i64, last: i64) -> Option<Reason>
    ensures { result ≡ Spec.end_of until last end }
{
    match end {
        StartsEnd::Full => None,
        StartsEnd::Past(_) => reason_past(until, last),
        StartsEnd::Over => Some(Reason::Limit),
    }
}
