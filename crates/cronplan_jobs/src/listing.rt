//! The starts of one job in a span.
ghost use Rattle.std.specs.Prelude.{◌≡◌, ◌≤ℤ◌, ◌-ℤ◌, pos, false, true, IfErr, IfOk, map};
ghost use Rattle.std.specs.List.{All};
ghost use Rattle.croner_base.specs.Table.{is_table_second};
ghost use Rattle.croner_base.specs.TableZone.{table_zone, table_moment};
ghost use Rattle.croner_base.specs.Zone.{reading};
ghost use Rattle.croner_base.specs.declared.time.Direction.{Direction};
ghost use Rattle.croner_base.specs.declared.time.table.TableTime.{TableTime};
ghost use Rattle.croner.specs.declared.job.Cron.{Cron};
ghost use Rattle.croner.specs.iterator.Listing.{standing_of, new_standing};
ghost use Rattle.croner.specs.Views.{job_of};
ghost use Rattle.croner.specs.search.Premises.{IsSearchable};
ghost use Rattle.cronplan_jobs.specs.Listed.{IsNotListed, IsServed, ListsJob};
ghost use Rattle.cronplan_jobs.specs.Private.Placed.{placed, placed_run, IsCronEnd, IsPatternEnd};

use croner::errors::CronError;
use croner::laws::listing::{ListingEnd, next_runs_until};
use croner::time::table::{ClockTable, TableTime};
use croner::{Cron, CronIterator};
use cronplan::{JobStart, MOST_STARTS, Span, wall_of};
use crontab_runs::{CrontabJob, Start, StartsEnd, next_starts_until};
use std::alloc::{AllocError, Global};

/// When a job of a plan starts.
#[derive(Drop)]
pub enum Schedule {
    /// The job of a crontab, as Debian's cron starts it.
    Crontab(CrontabJob),
    /// A pattern: it starts once at each of its runs.
    Pattern(Cron),
}

/// The most starts that are listed for one job: one more than a plan keeps.
const MOST_LISTED: u32 = MOST_STARTS as u32 + 1;

/// The starts of a job in a span, in order, and the second up to which none is left out. That is the end of the span; or, if there are more
/// starts than a plan keeps, the second of the first start too many, which is the last one here.
///
/// It takes memory for `MOST_STARTS` + 1 starts. The error is `OutOfMemory`. From a span on at whose begin the clock shows a year before -9997
/// or after 9997 it can also be `InvalidTime` or `InvalidDate`: the clock refuses a second or a date of the search.
pub(crate) fn starts_in(
    alloc: Global,
    schedule: &Schedule,
    table: &ClockTable,
    span: Span,
    place: usize,
) -> Result<(Vec<JobStart>, i64), CronError>
    ensures lists { IfOk result (λ r. ListsJob schedule.now (table_zone table.now) span place r.0.items r.1) }
    ensures err { IfErr result IsNotListed }
    ensures memory { IsServed (table_zone table.now) span → IfErr result (λ e. e ≡ CronError.OutOfMemory) }
{
    let after = second_before(table, span);
    match schedule {
        Schedule::Crontab(job) => cron_starts(alloc, job, after, span, place),
        Schedule::Pattern(cron) => pattern_starts(alloc, cron, after, span, place),
    }
}

// The second before a span, on the clock of a table.
fn second_before<'t>(table: &'t ClockTable, span: Span) -> TableTime<'t>
    ensures second { result.second ≡ span.first -ℤ pos 1 }
    ensures table { result.table.now ≡ table.now }
{
    match TableTime::new(table, span.first - 1) {
        Ok(time) => time,
        Err(_) => unreachable!(),
    }
}

// The starts of a crontab's job.
fn cron_starts(
    alloc: Global,
    job: &CrontabJob,
    after: TableTime<'_>,
    span: Span,
    place: usize,
) -> Result<(Vec<JobStart>, i64), CronError>
    requires { after.second ≡ span.first -ℤ pos 1 }
    ensures lists { IfOk result (λ r. ListsJob (Schedule.Crontab job.now) (table_zone after.entry.table.now) span place r.0.items r.1) }
    ensures err { IfErr result (λ e. e ≡ CronError.OutOfMemory) }
{
    let (starts, ending) = next_starts_until(alloc, job, after, span.until(), MOST_LISTED)?;
    let end = cron_end(starts.as_slice(), ending, span);
    let starts = placed_starts(alloc, after, starts.as_slice(), place)?;
    Ok((starts, end))
}

// The second up to which no start of a job in a span is left out, given how the listing ended.
fn cron_end(starts: &[Start], ending: StartsEnd, span: Span) -> i64
    ensures { IsCronEnd starts.now ending span result }
{
    match (ending, starts.last()) {
        (StartsEnd::Full, Some(last)) => last.second,
        (StartsEnd::Full, None) | (StartsEnd::Past(_) | StartsEnd::Over, _) => span.end,
    }
}

// Starts of a job at a place, on the clock of a time.
fn placed_starts(
    alloc: Global,
    time: TableTime<'_>,
    starts: &[Start],
    place: usize,
) -> Result<Vec<JobStart>, AllocError>
    requires { All (λ s. is_table_second s.second ≡ true) starts.now }
    ensures { IfOk result (λ placed_ones. placed_ones.items ≡ map (placed (table_zone time.entry.table.now) place) starts.now) }
{
    let mut placed_ones = Vec::new(alloc);
    for start in starts {
        placed_ones.push(placed_start(time, *start, place))?;
    }
    Ok(placed_ones)
}

// A start of a job at a place, on the clock of a time.
fn placed_start(time: TableTime<'_>, start: Start, place: usize) -> JobStart
    requires { is_table_second start.second ≡ true }
    ensures { result ≡ placed (table_zone time.entry.table.now) place start }
{
    match TableTime::new(time.table(), start.second) {
        Ok(at) => JobStart {
            second: start.second,
            job: place,
            count: start.count,
            wall: wall_of(&at),
        },
        Err(_) => unreachable!(),
    }
}

// The runs of a pattern.
#[tactic(auto, using(crate::proofs::ServedSpans::served))]
fn pattern_starts(
    alloc: Global,
    cron: &Cron,
    after: TableTime<'_>,
    span: Span,
    place: usize,
) -> Result<(Vec<JobStart>, i64), CronError>
    requires { after.second ≡ span.first -ℤ pos 1 }
    ensures lists { IfOk result (λ r. ListsJob (Schedule.Pattern cron.now) (table_zone after.entry.table.now) span place r.0.items r.1) }
    ensures err { IfErr result IsNotListed }
    ensures memory { IsServed (table_zone after.entry.table.now) span → IfErr result (λ e. e ≡ CronError.OutOfMemory) }
{
    let mut runs = cron.iter_after(after)?;
    runs_from(alloc, &mut runs, span, place)
}

// The runs of a pattern that a new iterator from the second before the span gives.
fn runs_from(
    alloc: Global,
    runs: &mut CronIterator<TableTime<'_>>,
    span: Span,
    place: usize,
) -> Result<(Vec<JobStart>, i64), CronError>
    ensures lists { (cron : Cron) (after : TableTime) → after.second ≡ span.first -ℤ pos 1
        → standing_of table_moment runs.old ≡ new_standing (job_of cron) (table_moment after) false Direction.Forward
        → IfOk result (λ r. ListsJob (Schedule.Pattern cron) (table_zone after.table.now) span place r.0.items r.1) }
    ensures err { IfErr result IsNotListed }
    ensures memory { IsSearchable (standing_of table_moment runs.old).position → IfErr result (λ e. e ≡ CronError.OutOfMemory) }
{
    let (times, ending) = next_runs_until(alloc, runs, span.until(), MOST_LISTED)?;
    if let ListingEnd::Refused = ending {
        return Err(fault_of(runs.fault()));
    }
    let end = pattern_end(times.as_slice(), ending, span);
    let starts = placed_runs(alloc, times.as_slice(), place)?;
    Ok((starts, end))
}

// What ended a search: a second or a date that the clock refuses, or lack of memory. No search has another fault.
fn fault_of(fault: Option<&CronError>) -> CronError
    ensures { IsNotListed result }
{
    match fault {
        Some(CronError::InvalidDate) => CronError::InvalidDate,
        Some(CronError::InvalidTime) => CronError::InvalidTime,
        Some(
            CronError::EmptyPattern
            | CronError::TimeSearchLimitExceeded
            | CronError::InvalidPattern(_)
            | CronError::IllegalCharacters(_)
            | CronError::ComponentError(_)
            | CronError::OutOfMemory,
        )
        | None => CronError::OutOfMemory,
    }
}

// The second up to which no run of a pattern in a span is left out, given how the listing ended.
fn pattern_end(times: &[TableTime<'_>], ending: ListingEnd, span: Span) -> i64
    ensures { IsPatternEnd times.now ending span result }
{
    match (ending, times.last()) {
        (ListingEnd::Full, Some(last)) => last.second(),
        (ListingEnd::Full, None)
        | (ListingEnd::Past(_) | ListingEnd::Over | ListingEnd::Refused, _) => span.end,
    }
}

// Runs of the pattern at a place.
fn placed_runs(
    alloc: Global,
    times: &[TableTime<'_>],
    place: usize,
) -> Result<Vec<JobStart>, AllocError>
    ensures { IfOk result (λ starts. starts.items ≡ map (placed_run place) times.now) }
{
    let mut starts = Vec::new(alloc);
    for time in times {
        starts.push(JobStart {
            second: time.second(),
            job: place,
            count: 1,
            wall: wall_of(time),
        })?;
    }
    Ok(starts)
}
