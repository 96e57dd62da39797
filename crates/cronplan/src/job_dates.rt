//! The jobs of a plan by the dates on which they start.
ghost use Rattle.std.specs.Prelude.{◌≡◌, ◌+◌, ◌≤◌, ◌^◌, ◌++◌, ◌∷◌, [], if◌then◌else◌, not, ℕ, IfOk, OnOk, filter, map, unwrap_or};
ghost use Rattle.std.specs.BTreeMap.{get};
ghost use Rattle.std.specs.Ordering.{nat_cmp};
ghost use Rattle.croner_base.specs.TableZone.{table_zone};
ghost use Rattle.cronplan.specs.Counts.{date_of};
ghost use Rattle.cronplan.specs.JobDates.{AreJobDates, AreShownJobDates, are_all, count_of_dates, dates_of, first_ones, has_date, is_of_job, whole_dates, with_new};
ghost use Rattle.cronplan.specs.Private.CountedPlan.{IsDateNumber};
ghost use Rattle.cronplan.specs.Private.Once.{is_like, key_of, AreSeen, AreJobCounts};

use crate::changes::wall_at;
use crate::counts::date_of;
use crate::days::{date_count, first_date, last_date};
use crate::other_clock::shown_starts;
use crate::plan::Plan;
use crate::span::Span;
use crate::start::JobStart;
use croner_base::time::table::ClockTable;
use std::alloc::{AllocError, Global};
use std::collections::{BTreeMap, BTreeSet};

/// Dates one after the other, each counted from 1970-01-01. There is none where `last` comes before `first`.
#[derive(Debug, Clone, Copy)]
pub struct DateRange {
    pub first: i64,
    pub last: i64,
}

impl DateRange {
    /// Whether a date is one of them.
    pub fn has(self, date: i64) -> bool
        ensures { result ≡ has_date self date }
    {
        self.first <= date && date <= self.last
    }
}

/// The jobs of a plan by the dates of a clock.
///
/// A job is daily if it starts on every date that lies wholly in the span, and there are two such dates or more. A date lies wholly in the
/// span if it comes after the one that the clock shows the second before the span, and before the one that the clock shows at the span's
/// end.
#[derive(Debug, Drop)]
pub struct JobDates {
    /// The dates of the plan, as `Days` has them.
    pub dates: DateRange,
    /// The places of the daily jobs, in the order of their first starts.
    pub daily: Vec<usize>,
    /// The first start of each other job on each date, in order.
    pub rarer: Vec<JobStart>,
}

// What a job is to be found once in.
#[derive(Clone, Copy)]
enum Per {
    // Each date.
    Date,
    // All of the plan.
    Plan,
}

/// The least number of dates on which a daily job starts.
const LEAST_DATES: u64 = 2;

impl Plan {
    /// The jobs of the plan by the dates on which they start, on the clock of a table, whatever clock the plan is on.
    ///
    /// The only error is lack of memory.
    pub fn job_dates(&self, alloc: Global, table: &ClockTable) -> Result<JobDates, AllocError>
        ensures { IfOk result (AreJobDates (table_zone table.now) self.now.span self.now.starts.items) }
    {
        let starts = shown_starts(alloc, self.starts.as_slice(), table)?;
        job_dates_of(alloc, starts.as_slice(), self.span, table)
    }
}

// The jobs of starts in a span by the dates, on the clock of a table, which shows their walls.
fn job_dates_of(
    alloc: Global,
    starts: &[JobStart],
    span: Span,
    table: &ClockTable,
) -> Result<JobDates, AllocError>
    ensures { IfOk result (AreShownJobDates (table_zone table.now) span starts.now) }
{
    let dates = dates_of(table, span, starts);
    let whole = whole_dates(table, span);
    let firsts = first_ones(alloc, starts, Per::Date)?;
    let jobs = first_ones(alloc, starts, Per::Plan)?;
    let counts = job_counts(alloc, firsts.as_slice(), whole)?;
    let daily = daily_jobs(alloc, jobs.as_slice(), &counts, count_of_dates(whole))?;
    let rarer = rarer_starts(alloc, firsts.as_slice(), &counts, count_of_dates(whole))?;
    Ok(JobDates {
        dates,
        daily,
        rarer,
    })
}

// The dates of a plan of these starts.
fn dates_of(table: &ClockTable, span: Span, starts: &[JobStart]) -> DateRange
    ensures { result ≡ dates_of (table_zone table.now) span starts.now }
{
    DateRange {
        first: first_date(table, span, starts),
        last: last_date(table, span, starts),
    }
}

// The dates that lie wholly in a span.
#[tactic(auto, using(crate::proofs::SpanSeconds::span_ends))]
fn whole_dates(table: &ClockTable, span: Span) -> DateRange
    ensures dates { result ≡ whole_dates (table_zone table.now) span }
    ensures first { IsDateNumber result.first }
    ensures last { IsDateNumber result.last }
{
    DateRange {
        first: date_of(wall_at(table, span.first - 1)) + 1,
        last: date_of(wall_at(table, span.end)) - 1,
    }
}

// How many dates these are.
fn count_of_dates(dates: DateRange) -> u64
    requires first { IsDateNumber dates.first }
    requires last { IsDateNumber dates.last }
    ensures { result ≡ count_of_dates dates }
{
    date_count(dates.first, dates.last)
}

// Of starts, in their order, the first ones of each job: on each date, or in all of the plan.
fn first_ones(alloc: Global, starts: &[JobStart], per: Per) -> Result<Vec<JobStart>, AllocError>
    ensures { IfOk result (λ found. found.items ≡ first_ones (is_like per) starts.now) }
{
    let mut found = Vec::new(alloc);
    let mut seen = BTreeSet::new(alloc);
    for start in starts {
        push_new(&mut found, &mut seen, start, per)?;
    }
    Ok(found)
}

// Puts a start after those that were found, if none of these is like it.
fn push_new(
    found: &mut Vec<JobStart>,
    seen: &mut BTreeSet<(i64, usize)>,
    start: &JobStart,
    per: Per,
) -> Result<(), AllocError>
    ensures { AreSeen per seen.old found.old.items → OnOk result ((found.new.items ≡ with_new (is_like per) found.old.items start.now) × AreSeen per seen.new found.new.items) }
{
    if seen.insert(key_of(start, per))? {
        found.push(*start)?;
    }
    Ok(())
}

// What a start has to have in common with another to be like it.
fn key_of(start: &JobStart, per: Per) -> (i64, usize)
    ensures { result ≡ key_of per start.now }
{
    match per {
        Per::Date => (date_of(start.wall), start.job),
        Per::Plan => (0, start.job),
    }
}

// For each job, how many of these starts are its own and lie on one of these dates.
fn job_counts(
    alloc: Global,
    firsts: &[JobStart],
    dates: DateRange,
) -> Result<BTreeMap<usize, u64>, AllocError>
    ensures { IfOk result (AreJobCounts dates firsts.now) }
{
    let mut counts = BTreeMap::new(alloc);
    for start in firsts {
        count_start(&mut counts, start, dates)?;
    }
    Ok(counts)
}

// Counts a start for its job, if it lies on one of these dates.
fn count_start(
    counts: &mut BTreeMap<usize, u64>,
    start: &JobStart,
    dates: DateRange,
) -> Result<(), AllocError>
    requires { (job : ℕ) → unwrap_or (get nat_cmp counts.old job) 0 ≤ 2 ^ 63 }
    ensures { OnOk result ((job : ℕ) → unwrap_or (get nat_cmp counts.new job) 0 ≡ unwrap_or (get nat_cmp counts.old job) 0 + (if is_of_job dates job start.now then 1 else 0)) }
{
    if dates.has(date_of(start.wall)) {
        let had = counts.get(&start.job).copied().unwrap_or(0);
        counts.insert(start.job, had + 1)?;
    }
    Ok(())
}

// Whether a job with these counts starts on each of so many dates.
fn is_daily(counts: &BTreeMap<usize, u64>, job: usize, dates: u64) -> bool
    ensures { result ≡ are_all dates (unwrap_or (get nat_cmp counts.now job) 0) }
{
    dates >= LEAST_DATES && counts.get(&job).copied().unwrap_or(0) == dates
}

// The jobs of these starts that start on each of so many dates.
fn daily_jobs(
    alloc: Global,
    starts: &[JobStart],
    counts: &BTreeMap<usize, u64>,
    dates: u64,
) -> Result<Vec<usize>, AllocError>
    ensures { IfOk result (λ jobs. jobs.items ≡ map (λ s. s.job) (filter (λ s. are_all dates (unwrap_or (get nat_cmp counts.now s.job) 0)) starts.now)) }
{
    let mut jobs = Vec::new(alloc);
    for start in starts {
        let daily = is_daily(counts, start.job, dates);
        push_job(&mut jobs, start.job, daily)?;
    }
    Ok(jobs)
}

// Puts a job after the others, if it is daily.
fn push_job(jobs: &mut Vec<usize>, job: usize, is_daily: bool) -> Result<(), AllocError>
    ensures { OnOk result (jobs.new.items ≡ jobs.old.items ++ (if is_daily then job ∷ [] else [])) }
{
    if is_daily {
        jobs.push(job)?;
    }
    Ok(())
}

// Those of these starts whose job doesn't start on each of so many dates.
fn rarer_starts(
    alloc: Global,
    starts: &[JobStart],
    counts: &BTreeMap<usize, u64>,
    dates: u64,
) -> Result<Vec<JobStart>, AllocError>
    ensures { IfOk result (λ rarer. rarer.items ≡ filter (λ s. not (are_all dates (unwrap_or (get nat_cmp counts.now s.job) 0))) starts.now) }
{
    let mut rarer = Vec::new(alloc);
    for start in starts {
        let daily = is_daily(counts, start.job, dates);
        push_start(&mut rarer, *start, daily)?;
    }
    Ok(rarer)
}

// Puts a start after the others, if its job isn't daily.
fn push_start(starts: &mut Vec<JobStart>, start: JobStart, is_daily: bool) -> Result<(), AllocError>
    ensures { OnOk result (starts.new.items ≡ starts.old.items ++ (if not is_daily then start ∷ [] else [])) }
{
    if !is_daily {
        starts.push(start)?;
    }
    Ok(())
}
