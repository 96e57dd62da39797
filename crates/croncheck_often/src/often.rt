//! How often a job starts in a span after a start.
ghost use Rattle.std.specs.Prelude.{◌≡◌, ◌+◌, ◌≤◌, ◌^◌, ℤ, length, unwrap_or, None, IsTrue, IfOk, IfErr, OnOk};
ghost use Rattle.std.specs.BTreeMap.{get};
ghost use Rattle.std.specs.Ordering.{int_cmp};
ghost use Rattle.croner_base.specs.Table.{is_table_second};
ghost use Rattle.croner.specs.Views.{job_of};
ghost use Rattle.crontab_runs.specs.Views.{cron_job_of};
ghost use Rattle.croncheck_often.specs.Often.{span_end, starts_in, date_of_run, added_on, IsMostADay, distances, IsShortest, ends_before, reach_of, last_of, last_counted, Counts, IsOften, AreOften};
ghost use Rattle.croncheck_often.specs.Private.Often.{greater_of, shorter_of, distance_of};
ghost use Rattle.croncheck_runs.specs.Runs.{runs_listed, starts_listed};

use croncheck_runs::runs::{End, Listing, Run, Runs, runs_of, starts_of};
use croner::Cron;
use croner::errors::CronError;
use croner::time::CronDateTime;
use croner::time::table::TableTime;
use croner_base::limits::SECONDS_PER_DAY;
use crontab_runs::CrontabJob;
use std::alloc::{AllocError, Global};
use std::collections::BTreeMap;

/// How many days of 86,400 seconds the span has if its end isn't given.
pub const SPAN_DAYS: i64 = 7;

const SPAN_SECONDS: i64 = SPAN_DAYS * DAY;

/// The seconds of a day, as wall seconds are counted.
const DAY: i64 = SECONDS_PER_DAY as i64;

/// How often a job starts in a span after a start. A start of the job at that second itself doesn't count.
#[derive(Clone, Copy, Drop)]
pub struct Often {
    /// The second of the start, counted from 1970-01-01T00:00:00 UTC.
    pub from: i64,
    /// The last second whose starts are counted: each start after `from` and up to this second counts, and none after it.
    pub until: i64,
    /// Whether that is the end of the span, and if not, why.
    pub reach: Reach,
    /// How many starts these are. Where cron starts the job several times at one second, each of them counts.
    pub starts: u64,
    /// The most of these starts on one date that the zone's clock shows.
    pub most_a_day: u64,
    /// The shortest distance in seconds from one start to the next: 0 if two are at one second. `None` if there are fewer than two starts.
    pub shortest: Option<u64>,
}

/// How far the starts of a span are counted.
#[derive(Clone, Copy, Drop)]
pub enum Reach {
    /// To the end of the span.
    Whole,
    /// To the last of `MOST_RUNS` runs, the most that are listed.
    Cut,
    /// To the end of the clock's window, which comes before the end of the span.
    Window,
    /// To the last run before a search that was refused.
    Failed,
}

/// The last second of the span after a start: the one up to which runs are listed, or, if a number of runs is listed, the one seven days
/// after the start.
pub fn span_end(start: i64, listing: Listing) -> i64
    requires { IsTrue (is_table_second start) }
    ensures { result ≡ span_end start listing }
{
    match listing {
        Listing::Count(_) => start + SPAN_SECONDS,
        Listing::Until(until) => until,
    }
}

/// How often a pattern runs after `start` and up to `until`. `None` if there is no `until`: then it isn't asked. If the window of the
/// clock ends early, `last` is its last second.
///
/// It takes memory for a listing of `MOST_RUNS` runs. The only error is `OutOfMemory`.
pub fn often_of_pattern(
    alloc: Global,
    job: &Cron,
    start: TableTime<'_>,
    last: Option<i64>,
    until: Option<i64>,
) -> Result<Option<Often>, CronError>
    ensures told { IfOk result (AreOften (runs_listed (job_of job.now) start.entry) last until) }
    ensures err { IfErr result (λ e. e ≡ CronError.OutOfMemory) }
{
    match until {
        Some(until) => {
            let often = often_of_pattern_until(alloc, job, start, last, until)?;
            Ok(Some(often))
        }
        None => Ok(None),
    }
}

/// How often cron starts a crontab's job, told as `often_of_pattern` tells it of a pattern. The only error is `OutOfMemory`.
pub fn often_of_crontab(
    alloc: Global,
    job: &CrontabJob,
    start: TableTime<'_>,
    last: Option<i64>,
    until: Option<i64>,
) -> Result<Option<Often>, CronError>
    ensures told { IfOk result (AreOften (starts_listed (cron_job_of job.now) start.entry) last until) }
    ensures err { IfErr result (λ e. e ≡ CronError.OutOfMemory) }
{
    match until {
        Some(until) => {
            let often = often_of_crontab_until(alloc, job, start, last, until)?;
            Ok(Some(often))
        }
        None => Ok(None),
    }
}

// How often a pattern runs up to a second.
#[tactic(auto, using(crate::proofs::OftenTold::few_listed))]
fn often_of_pattern_until(
    alloc: Global,
    job: &Cron,
    start: TableTime<'_>,
    last: Option<i64>,
    until: i64,
) -> Result<Often, CronError>
    ensures told { IfOk result (IsOften (runs_listed (job_of job.now) start.entry) last until) }
    ensures err { IfErr result (λ e. e ≡ CronError.OutOfMemory) }
{
    let runs = runs_of(alloc, job, start, last, Listing::Until(until))?;
    let often = often_of(alloc, &runs, start.second(), last, until)?;
    Ok(often)
}

// How often cron starts a crontab's job up to a second.
#[tactic(auto, using(crate::proofs::OftenTold::few_listed))]
fn often_of_crontab_until(
    alloc: Global,
    job: &CrontabJob,
    start: TableTime<'_>,
    last: Option<i64>,
    until: i64,
) -> Result<Often, CronError>
    ensures told { IfOk result (IsOften (starts_listed (cron_job_of job.now) start.entry) last until) }
    ensures err { IfErr result (λ e. e ≡ CronError.OutOfMemory) }
{
    let runs = starts_of(alloc, job, start, last, Listing::Until(until))?;
    let often = often_of(alloc, &runs, start.second(), last, until)?;
    Ok(often)
}

// What is counted of a listing of the runs after a start, up to a second.
fn often_of(
    alloc: Global,
    runs: &Runs<'_>,
    from: i64,
    last: Option<i64>,
    until: i64,
) -> Result<Often, AllocError>
    requires { length runs.now.items.items ≤ 2 ^ 31 }
    ensures { IfOk result (Counts last from until runs.now) }
{
    let items = runs.items.as_slice();
    let reach = reach_of(&runs.end, last, until);
    let most_a_day = most_a_day(alloc, items)?;
    Ok(Often {
        from,
        until: last_counted(items, from, last, until, reach),
        reach,
        starts: starts_in(items),
        most_a_day,
        shortest: shortest_of(items),
    })
}

// ---- how far is counted

// How far the starts up to a second are counted, by how their listing ended.
fn reach_of(end: &End, last: Option<i64>, until: i64) -> Reach
    ensures { result ≡ reach_of last until end.now }
{
    match end {
        End::More | End::Over => Reach::Whole,
        End::Cut => Reach::Cut,
        End::Window if ends_before(last, until) => Reach::Window,
        End::Window => Reach::Whole,
        End::Failed(_) => Reach::Failed,
    }
}

// Whether the clock's window ends before a second.
fn ends_before(last: Option<i64>, until: i64) -> bool
    ensures { result ≡ ends_before last until }
{
    match last {
        Some(last) => last < until,
        None => false,
    }
}

// The last second whose starts are counted.
fn last_counted(runs: &[Run<'_>], from: i64, last: Option<i64>, until: i64, reach: Reach) -> i64
    ensures { result ≡ last_counted last from until runs.now reach }
{
    match reach {
        Reach::Whole => until,
        Reach::Window => last.unwrap_or(until),
        Reach::Cut | Reach::Failed => last_of(runs, from),
    }
}

// The second of the last of some runs, and that of the start where there are none.
fn last_of(runs: &[Run<'_>], from: i64) -> i64
    ensures { result ≡ last_of from runs.now }
{
    match runs.last() {
        Some(run) => run.time.second(),
        None => from,
    }
}

// ---- counts

// How many starts some runs are.
fn starts_in(runs: &[Run<'_>]) -> u64
    requires { length runs.now ≤ 2 ^ 31 }
    ensures { result ≡ starts_in runs.now }
{
    let mut starts = 0;
    for run in runs {
        starts += u64::from(run.count);
    }
    starts
}

// The most starts of some runs on one date that the clock shows.
#[tactic(auto, using(crate::proofs::CountedRuns::counted))]
fn most_a_day(alloc: Global, runs: &[Run<'_>]) -> Result<u64, AllocError>
    requires { length runs.now ≤ 2 ^ 31 }
    ensures { IfOk result (IsMostADay runs.now) }
{
    let mut counts = BTreeMap::new(alloc);
    let mut most = 0;
    for run in runs {
        let count = add_run(&mut counts, run)?;
        most = greater_of(most, count);
    }
    Ok(most)
}

// Counts the starts of a run on its date, and answers how many are counted there now.
#[tactic(auto, using(crate::proofs::CountedRuns::counted))]
fn add_run(counts: &mut BTreeMap<i64, u64>, run: &Run<'_>) -> Result<u64, AllocError>
    requires { (date : ℤ) → unwrap_or (get int_cmp counts.old date) 0 ≤ 2 ^ 63 }
    ensures added { OnOk result ((date : ℤ) → unwrap_or (get int_cmp counts.new date) 0 ≡ unwrap_or (get int_cmp counts.old date) 0 + added_on date run.now) }
    ensures few { OnOk result ((date : ℤ) → unwrap_or (get int_cmp counts.new date) 0 ≤ unwrap_or (get int_cmp counts.old date) 0 + 2 ^ 32) }
    ensures count { IfOk result (λ n. n ≡ unwrap_or (get int_cmp counts.new (date_of_run run.now)) 0) }
{
    let date = date_of_run(run);
    let had = counts.get(&date).copied().unwrap_or(0);
    let count = had + u64::from(run.count);
    counts.insert(date, count)?;
    Ok(count)
}

// The date that the clock shows at a run, in days from 1970-01-01.
fn date_of_run(run: &Run<'_>) -> i64
    ensures { result ≡ date_of_run run.now }
{
    let wall = run.time.to_civil().wall_second();
    wall.div_euclid(DAY)
}

fn greater_of(a: u64, b: u64) -> u64
    ensures { result ≡ greater_of a b }
{
    if a < b { b } else { a }
}

// ---- distances

// The shortest distance between two starts of some runs that follow one another, if there are two.
#[tactic(auto, using(crate::proofs::CountedRuns::seen))]
fn shortest_of(runs: &[Run<'_>]) -> Option<u64>
    ensures { IsShortest (distances None runs.now) result }
{
    let mut before = None;
    let mut shortest = None;
    for run in runs {
        shortest = shorter_of(shortest, distance_of(before, run));
        before = Some(run.time.second());
    }
    shortest
}

// The shortest distance of a start of a run from the start before it. The run before is at the second `before`, if there is one.
fn distance_of(before: Option<i64>, run: &Run<'_>) -> Option<u64>
    ensures { result ≡ distance_of before run.now }
{
    match before {
        _ if 1 < run.count => Some(0),
        Some(before) => Some(before.abs_diff(run.time.second())),
        None => None,
    }
}

// The shorter of two distances that there may be.
fn shorter_of(distance: Option<u64>, other: Option<u64>) -> Option<u64>
    ensures { result ≡ shorter_of distance other }
{
    match (distance, other) {
        (Some(distance), Some(other)) if other < distance => Some(other),
        (None, other) => other,
        (distance, _) => distance,
    }
}
