//! A clock on which each wall second is its own instant, and a job's scheduled seconds on it.
ghost use Rattle.std.specs.Prelude.{◌≡◌, MatchOption, pos, ◌≤ℤ◌, []};
ghost use Rattle.croner_base.specs.Calm.{IsInReach, IsSearched};
ghost use Rattle.croner_base.specs.TableZone.{HasParts};
ghost use Rattle.croner.specs.search.Limit.{year_5000};
ghost use Rattle.croner.specs.Views.{job_of};
ghost use Rattle.croncheck_changes.specs.Private.Level.{IsNoneFrom, IsLeastFrom, IsNoneWithin, IsLeastWithin, HasRoom, TellsDue, TellsDueAround, second_found, if_before};

use croner::Cron;
use croner::errors::CronError;
use croner::time::table::{ClockTable, TableTime};
use std::alloc::Global;

/// How many seconds before and after a range a job is looked at: three hours.
const SECONDS_BESIDE: i64 = 10_800;

/// A clock on which each wall second is its own instant.
pub struct Level {
    table: ClockTable,
    pub ghost parts: { HasParts (pos 0) [] table },
}

// By hand, so that a function that lets one go calls this one: its proof doesn't go through the fields at each exit.
impl Drop for Level {
    fn drop(self) {
        let Level { table: _ } = self;
    }
}

impl Level {
    #[tactic(auto, using(crate::proofs::LevelClock::level_calm))]
    pub fn new(alloc: Global) -> Level {
        match ClockTable::new(0, Vec::new(alloc)) {
            Ok(table) => Level { table },
            Err(_) => unreachable!(),
        }
    }

    // A wall second.
    fn time_at(&self, wall: i64) -> TableTime<'_>
        requires { IsInReach wall }
        ensures second { result.second ≡ wall }
        ensures parts { HasParts (pos 0) [] result.table.now }
    {
        match TableTime::new(&self.table, wall) {
            Ok(time) => time,
            Err(_) => unreachable!(),
        }
    }

    // The first scheduled second from a wall second on, if there is one before year 5000.
    #[tactic(auto, using(crate::proofs::LevelClock::seconds_from))]
    fn next_scheduled(&self, job: &Cron, from: i64) -> Option<i64>
        requires { IsSearched from }
        ensures { MatchOption result (IsNoneFrom (job_of job.now) from) (IsLeastFrom (job_of job.now) from) }
    {
        next_from(job, &self.time_at(from))
    }

    /// The first scheduled second from the wall second `from` on, and before `end`. `None` if there is none.
    #[tactic(auto, using(crate::proofs::LevelClock::seconds_within))]
    pub fn scheduled_within(&self, job: &Cron, from: i64, end: i64) -> Option<i64>
        requires from { IsSearched from }
        requires end { end ≤ℤ year_5000 }
        ensures { MatchOption result (IsNoneWithin (job_of job.now) from end) (IsLeastWithin (job_of job.now) from end) }
    {
        if end <= from {
            return None;
        }
        second_if_before(self.next_scheduled(job, from), end)
    }

    // Whether a second is scheduled from a wall second on, before another.
    #[tactic(auto, using(crate::proofs::LevelClock::due_seconds))]
    fn is_due_within(&self, job: &Cron, from: i64, end: i64) -> bool
        requires from { IsSearched from }
        requires end { end ≤ℤ year_5000 }
        ensures { TellsDue (job_of job.now) from end result }
    {
        self.scheduled_within(job, from, end).is_some()
    }

    /// Whether a second is scheduled within three hours before a range of wall seconds, or within three hours after it.
    #[tactic(auto, using(crate::proofs::LevelClock::due_around))]
    pub fn is_due_around(&self, job: &Cron, first: i64, end: i64) -> bool
        requires { HasRoom first end }
        ensures { TellsDueAround (job_of job.now) first end result }
    {
        self.is_due_within(job, first - SECONDS_BESIDE, first)
            || self.is_due_within(job, end, end + SECONDS_BESIDE)
    }
}

// The first scheduled second from a second of a level clock on, if there is one before year 5000.
#[tactic(auto, using(crate::proofs::LevelClock::found_from))]
fn next_from(job: &Cron, start: &TableTime<'_>) -> Option<i64>
    requires parts { HasParts (pos 0) [] start.now.table.now }
    requires searched { IsSearched start.now.second }
    ensures { MatchOption result (IsNoneFrom (job_of job.now) start.now.second) (IsLeastFrom (job_of job.now) start.now.second) }
{
    second_found(job.find_next_occurrence(start, true))
}

// The second of a run, if a search found one.
fn second_found(answer: Result<TableTime<'_>, CronError>) -> Option<i64>
    ensures { result ≡ second_found answer.entry }
{
    match answer {
        Ok(run) => Some(run.second()),
        Err(_) => None,
    }
}

// A second, if it comes before another.
fn second_if_before(second: Option<i64>, end: i64) -> Option<i64>
    ensures { result ≡ if_before second end }
{
    match second {
        Some(second) if second < end => Some(second),
        _ => None,
    }
}
