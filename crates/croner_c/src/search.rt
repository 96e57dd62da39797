//! The nearest run of a pattern, and whether a second is a scheduled one.
ghost use Rattle.std.specs.Prelude.{◌≡◌, true, false, IfOk, IfErr};
ghost use Rattle.croner_base.specs.TableZone.{table_moment, table_zone};
ghost use Rattle.croner.specs.Views.{job_of};
ghost use Rattle.croner.specs.search.PatternJob.{timetable_of};
ghost use Rattle.croner.specs.search.Searches.{IsFound, IsRefused};
ghost use Rattle.croner_c.specs.Answers.{Tells};
ghost use Rattle.croner_c.specs.Clocks.{is_accepted, zone_of, IsTableOf, IsTimeOn};
ghost use Rattle.croner_c.specs.Searches as Spec;

use crate::clock::Clock;
use crate::job::{asked, job_of_text};
use crate::status::{OK, Reason, limit_of, memory_of};
use croner::errors::CronError;
use croner::parser::CronParser;
use croner::time::table::{ClockTable, TableTime};
use croner::{Cron, Direction};
use std::alloc::Global;

/// Writes the next run of a pattern after a start, or from it on.
#[unsafe(no_mangle)]
pub extern "C" fn croner_c_next(
    alloc: Global,
    text: &[u8],
    settings: u32,
    clock: &Clock<'_>,
    start: i64,
    inclusive: i32,
    run: &mut i64,
) -> i32
    ensures { Tells (Spec.IsNearestRun Direction.Forward text.now settings clock.now start inclusive) Spec.tell_run run.old (result, run.new) }
{
    match nearest_run(
        alloc,
        Direction::Forward,
        text,
        settings,
        clock,
        start,
        inclusive,
    ) {
        Ok(second) => {
            *run = second;
            OK
        }
        Err(reason) => reason.status(),
    }
}

/// Writes the last run of a pattern before a start, or up to it.
#[unsafe(no_mangle)]
pub extern "C" fn croner_c_previous(
    alloc: Global,
    text: &[u8],
    settings: u32,
    clock: &Clock<'_>,
    start: i64,
    inclusive: i32,
    run: &mut i64,
) -> i32
    ensures { Tells (Spec.IsNearestRun Direction.Backward text.now settings clock.now start inclusive) Spec.tell_run run.old (result, run.new) }
{
    match nearest_run(
        alloc,
        Direction::Backward,
        text,
        settings,
        clock,
        start,
        inclusive,
    ) {
        Ok(second) => {
            *run = second;
            OK
        }
        Err(reason) => reason.status(),
    }
}

/// The nearest run of a pattern.
fn nearest_run(
    alloc: Global,
    direction: Direction,
    text: &[u8],
    settings: u32,
    clock: &Clock<'_>,
    start: i64,
    inclusive: i32,
) -> Result<i64, Reason>
    ensures { Spec.IsNearestRun direction text.now settings clock.now start inclusive result }
{
    match asked(settings, inclusive, clock) {
        Ok((parser, inclusive)) => {
            run_of_text(alloc, direction, parser, text, clock, start, inclusive)
        }
        Err(reason) => Err(reason),
    }
}

/// The nearest run of a text's pattern.
fn run_of_text(
    alloc: Global,
    direction: Direction,
    parser: CronParser,
    text: &[u8],
    clock: &Clock<'_>,
    start: i64,
    inclusive: bool,
) -> Result<i64, Reason>
    requires { is_accepted clock.now ≡ true }
    ensures { Spec.IsRunOf direction parser inclusive text.now clock.now start result }
{
    match job_of_text(alloc, parser, text) {
        Ok(job) => run_on(alloc, direction, &job, clock, start, inclusive),
        Err(reason) => Err(reason),
    }
}

/// The nearest run of a job on a clock.
fn run_on(
    alloc: Global,
    direction: Direction,
    job: &Cron,
    clock: &Clock<'_>,
    start: i64,
    inclusive: bool,
) -> Result<i64, Reason>
    requires { is_accepted clock.now ≡ true }
    ensures { Spec.IsRunOn direction inclusive (job_of job.now) clock.now start result }
{
    match clock.table(alloc) {
        Ok(table) => run_on_table(direction, job, clock, &table, start, inclusive),
        Err(reason) => Err(reason),
    }
}

/// The nearest run of a job on a clock's table.
fn run_on_table(
    direction: Direction,
    job: &Cron,
    clock: &Clock<'_>,
    table: &ClockTable,
    start: i64,
    inclusive: bool,
) -> Result<i64, Reason>
    requires accepted { is_accepted clock.now ≡ true }
    requires table { IsTableOf clock.now table.now }
    ensures { Spec.IsRunOn direction inclusive (job_of job.now) clock.now start result }
{
    match clock.time(table, start) {
        Ok(time) => run_from(direction, job, clock, &time, inclusive),
        Err(reason) => Err(reason),
    }
}

/// The nearest run of a job from a time of the window.
fn run_from(
    direction: Direction,
    job: &Cron,
    clock: &Clock<'_>,
    start: &TableTime<'_>,
    inclusive: bool,
) -> Result<i64, Reason>
    requires { IsTimeOn clock.now start.now }
    ensures { Spec.IsRunIn direction inclusive (job_of job.now) clock.now start.now.second (zone_of clock.now) result }
{
    match nearest(job, start, inclusive, direction) {
        Ok(run) => clock.within(run.second()),
        Err(error) => Err(limit_of(error)),
    }
}

/// The nearest run of a job from a time.
fn nearest<'t>(
    job: &Cron,
    start: &TableTime<'t>,
    inclusive: bool,
    direction: Direction,
) -> Result<TableTime<'t>, CronError>
    ensures found { IfOk result (λ t. IsFound direction inclusive (timetable_of (job_of job.now)) (table_moment start.now) (table_moment t)) }
    ensures refused { IfErr result (IsRefused false direction inclusive (timetable_of (job_of job.now)) (table_moment start.now)) }
{
    match direction {
        Direction::Forward => job.find_next_occurrence(start, inclusive),
        Direction::Backward => job.find_previous_occurrence(start, inclusive),
    }
}

/// Writes whether the clock shows a scheduled second: 1 or 0.
#[unsafe(no_mangle)]
pub extern "C" fn croner_c_matches(
    alloc: Global,
    text: &[u8],
    settings: u32,
    clock: &Clock<'_>,
    second: i64,
    is_match: &mut i32,
) -> i32
    ensures { Tells (Spec.IsMatch text.now settings clock.now second) Spec.tell_mark is_match.old (result, is_match.new) }
{
    match is_scheduled(alloc, text, settings, clock, second) {
        Ok(held) => {
            *is_match = number_of(held);
            OK
        }
        Err(reason) => reason.status(),
    }
}

/// A mark as a number.
fn number_of(held: bool) -> i32
    ensures { result ≡ Spec.number_of held }
{
    if held { 1 } else { 0 }
}

/// Whether the clock shows a scheduled second of a pattern.
fn is_scheduled(
    alloc: Global,
    text: &[u8],
    settings: u32,
    clock: &Clock<'_>,
    second: i64,
) -> Result<bool, Reason>
    ensures { Spec.IsMatch text.now settings clock.now second result }
{
    match asked(settings, 0, clock) {
        Ok((parser, _)) => is_scheduled_of_text(alloc, parser, text, clock, second),
        Err(reason) => Err(reason),
    }
}

/// Whether the clock shows a scheduled second of a text's pattern.
fn is_scheduled_of_text(
    alloc: Global,
    parser: CronParser,
    text: &[u8],
    clock: &Clock<'_>,
    second: i64,
) -> Result<bool, Reason>
    requires { is_accepted clock.now ≡ true }
    ensures { Spec.IsMatchOf parser text.now clock.now second result }
{
    match job_of_text(alloc, parser, text) {
        Ok(job) => is_scheduled_on(alloc, &job, clock, second),
        Err(reason) => Err(reason),
    }
}

/// Whether a clock shows a scheduled second of a job.
fn is_scheduled_on(
    alloc: Global,
    job: &Cron,
    clock: &Clock<'_>,
    second: i64,
) -> Result<bool, Reason>
    requires { is_accepted clock.now ≡ true }
    ensures { Spec.IsMatchOn (job_of job.now) clock.now second result }
{
    match clock.table(alloc) {
        Ok(table) => is_scheduled_on_table(job, clock, &table, second),
        Err(reason) => Err(reason),
    }
}

/// Whether a clock's table shows a scheduled second of a job.
fn is_scheduled_on_table(
    job: &Cron,
    clock: &Clock<'_>,
    table: &ClockTable,
    second: i64,
) -> Result<bool, Reason>
    requires accepted { is_accepted clock.now ≡ true }
    requires table { IsTableOf clock.now table.now }
    ensures { Spec.IsMatchOn (job_of job.now) clock.now second result }
{
    match clock.time(table, second) {
        Ok(time) => is_scheduled_at(job, &time),
        Err(reason) => Err(reason),
    }
}

/// Whether a table's clock shows a scheduled second of a job at a time.
fn is_scheduled_at(job: &Cron, time: &TableTime<'_>) -> Result<bool, Reason>
    ensures { Spec.IsMatchIn (job_of job.now) time.now.second (table_zone time.now.table.now) result }
{
    match job.is_time_matching(time) {
        Ok(held) => Ok(held),
        Err(error) => Err(memory_of(error)),
    }
}
