//! A listing of a pattern's runs.
ghost use Rattle.std.specs.Prelude.{◌≡◌, ◌≤◌, true, IfOk, length, map};
ghost use Rattle.croner.specs.Views.{job_of};
ghost use Rattle.croner_c.specs.Answers.{Tells, seen};
ghost use Rattle.croner_c.specs.Clocks.{is_accepted, zone_of, IsTableOf, IsTimeOn};
ghost use Rattle.croner_c.specs.Listings as Spec;
ghost use Rattle.croner_c.specs.Status.{status_of_end};

use crate::clock::Clock;
use crate::job::{asked, job_of_text};
use crate::put::put;
use crate::status::{OK, Reason, memory_of};
use croner::laws::listing::{ListingEnd, next_runs_until};
use croner::parser::CronParser;
use croner::time::table::{ClockTable, TableTime};
use croner::{Cron, CronIterator, Direction};
use std::alloc::{AllocError, Global};

/// A second at which a pattern runs.
#[repr(C)]
#[derive(Drop, Clone, Copy)]
pub struct Run {
    pub second: i64,
}

/// The most items of a listing.
pub(crate) const MOST_ITEMS: usize = 1_000_000;

/// Writes the runs of a pattern after a start, or from it on, up to a second; and how many they are.
#[unsafe(no_mangle)]
pub extern "C" fn croner_c_runs(
    alloc: Global,
    text: &[u8],
    settings: u32,
    clock: &Clock<'_>,
    start: i64,
    inclusive: i32,
    until: i64,
    runs: &mut [Run],
    count: &mut usize,
) -> i32
    ensures { Tells (Spec.AreRuns text.now settings clock.now start inclusive until (length runs.old)) Spec.tell_runs (runs.old, count.old)
        (result, (runs.new, count.new)) }
{
    let room = runs.len();
    match listed(alloc, text, settings, clock, start, inclusive, until, room) {
        Ok((found, end)) => {
            *count = put(found.as_slice(), runs);
            end_status(end)
        }
        Err(reason) => reason.status(),
    }
}

/// The status of a listing that ended so.
pub(crate) fn end_status(end: Option<Reason>) -> i32
    ensures { result ≡ status_of_end end }
{
    match end {
        None => OK,
        Some(reason) => reason.status(),
    }
}

/// The runs of a pattern, and what ended the listing before room did.
fn listed(
    alloc: Global,
    text: &[u8],
    settings: u32,
    clock: &Clock<'_>,
    start: i64,
    inclusive: i32,
    until: i64,
    room: usize,
) -> Result<(Vec<Run>, Option<Reason>), Reason>
    ensures { Spec.AreRuns text.now settings clock.now start inclusive until room (seen (λ r. (r.0.items, r.1)) result) }
{
    match asked_listing(room, settings, inclusive, clock) {
        Ok((parser, inclusive)) => listed_of_text(
            alloc, parser, text, clock, start, inclusive, until, room,
        ),
        Err(reason) => Err(reason),
    }
}

/// The parser and the mark of a listing with so much room, if it is accepted.
fn asked_listing(
    room: usize,
    settings: u32,
    mark: i32,
    clock: &Clock<'_>,
) -> Result<(CronParser, bool), Reason>
    ensures value { result ≡ Spec.asked_with room settings mark clock.now }
    ensures accepted { IfOk result (λ a. is_accepted clock.now ≡ true) }
    ensures room { IfOk result (λ a. room ≤ 1_000_000) }
{
    if room <= MOST_ITEMS {
        asked(settings, mark, clock)
    } else {
        Err(Reason::BadArgument)
    }
}

/// The runs of a text's pattern.
fn listed_of_text(
    alloc: Global,
    parser: CronParser,
    text: &[u8],
    clock: &Clock<'_>,
    start: i64,
    inclusive: bool,
    until: i64,
    room: usize,
) -> Result<(Vec<Run>, Option<Reason>), Reason>
    requires accepted { is_accepted clock.now ≡ true }
    requires room { room ≤ 1_000_000 }
    ensures { Spec.AreRunsOf parser inclusive text.now clock.now start until room (seen (λ r. (r.0.items, r.1)) result) }
{
    match job_of_text(alloc, parser, text) {
        Ok(job) => listed_on(alloc, job, clock, start, inclusive, until, room),
        Err(reason) => Err(reason),
    }
}

/// The runs of a job on a clock.
fn listed_on(
    alloc: Global,
    job: Cron,
    clock: &Clock<'_>,
    start: i64,
    inclusive: bool,
    until: i64,
    room: usize,
) -> Result<(Vec<Run>, Option<Reason>), Reason>
    requires accepted { is_accepted clock.now ≡ true }
    requires room { room ≤ 1_000_000 }
    ensures { Spec.AreRunsOn inclusive (job_of job) clock.now start until room (seen (λ r. (r.0.items, r.1)) result) }
{
    match clock.table(alloc) {
        Ok(table) => listed_on_table(alloc, job, clock, &table, start, inclusive, until, room),
        Err(reason) => Err(reason),
    }
}

/// The runs of a job on a clock's table.
fn listed_on_table(
    alloc: Global,
    job: Cron,
    clock: &Clock<'_>,
    table: &ClockTable,
    start: i64,
    inclusive: bool,
    until: i64,
    room: usize,
) -> Result<(Vec<Run>, Option<Reason>), Reason>
    requires accepted { is_accepted clock.now ≡ true }
    requires table { IsTableOf clock.now table.now }
    requires room { room ≤ 1_000_000 }
    ensures { Spec.AreRunsOn inclusive (job_of job) clock.now start until room (seen (λ r. (r.0.items, r.1)) result) }
{
    match clock.time(table, start) {
        Ok(time) => listed_from(alloc, job, clock, time, inclusive, until, room as u32),
        Err(reason) => Err(reason),
    }
}

/// The runs of a job from a time of the window.
fn listed_from(
    alloc: Global,
    job: Cron,
    clock: &Clock<'_>,
    start: TableTime<'_>,
    inclusive: bool,
    until: i64,
    room: u32,
) -> Result<(Vec<Run>, Option<Reason>), Reason>
    requires { IsTimeOn clock.now start }
    ensures { Spec.AreRunsIn inclusive (job_of job) clock.now start.entry.second until room (zone_of clock.now) (seen (λ r. (r.0.items, r.1)) result) }
{
    let mut left = CronIterator::new(job, start, inclusive, Direction::Forward);
    match next_runs_until(alloc, &mut left, Some(bound(until, clock.last)), room) {
        Ok((times, end)) => match runs_of(alloc, times.as_slice()) {
            Ok(runs) => Ok((runs, end_of(end, until, clock.last))),
            Err(_) => Err(Reason::OutOfMemory),
        },
        Err(error) => Err(memory_of(error)),
    }
}

/// The last second of a listing: the window's last one, if the caller's lies after it.
pub(crate) fn bound(until: i64, last: i64) -> i64
    ensures { result ≡ Spec.bound_of until last }
{
    if last < until { last } else { until }
}

/// The seconds of times.
fn runs_of(alloc: Global, times: &[TableTime<'_>]) -> Result<Vec<Run>, AllocError>
    ensures { IfOk result (λ v. v.items ≡ map Spec.run_at times.now) }
{
    times
        .iter()
        .map(
            |time: &TableTime<'_>| -> Run
                ensures { result ≡ Spec.run_at time.now }
            {
                Run {
                    second: time.second(),
                }
            },
        )
        .collect(alloc)
}

/// Why there is no item after those of a listing, where the listing isn't full.
fn end_of(end: ListingEnd, until: i64, last: i64) -> Option<Reason>
    ensures { result ≡ Spec.end_of until last end }
{
    match end {
        ListingEnd::Full => None,
        ListingEnd::Past(_) => reason_past(until, last),
        ListingEnd::Over | ListingEnd::Refused => Some(Reason::Limit),
    }
}

/// Why the item after a listing isn't in it: none where it comes after the second that the caller gave.
pub(crate) fn reason_past(until: i64, last: i64) -> Option<Reason>
    ensures { result ≡ Spec.reason_past until last }
{
    if last < until {
        Some(Reason::Outside)
    } else {
        None
    }
}
