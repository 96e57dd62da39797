//! What changes of the clock do to a job: which of its seconds are skipped, or shown twice.
ghost use Rattle.std.specs.Prelude.{◌≡◌, true, IfOk, IfErr, MatchOption, ℤ, pos, ◌-ℤ◌};
ghost use Rattle.croner_base.specs.TableZone.{table_moment};
ghost use Rattle.croner_base.specs.Zone.{at_instant};
ghost use Rattle.croner_pattern.specs.Schedule.{is_fixed_time};
ghost use Rattle.croner.specs.Views.{job_of};
ghost use Rattle.croncheck_changes.specs.Changes.{AreChangesFrom, IsNoStart, names_all_hours, is_starless, is_never_met, Meets, IsMeeting, IsFate, IsFateBy, fate_with_all_hours};
ghost use Rattle.croncheck_changes.specs.Private.Met.{IsToldOf, IsInYears, IsNoneIn, IsFirstIn};

mod cron;
mod found;
mod level;
pub mod meetings;
pub mod told;

use crate::changes::cron::fate_in_cron;
use crate::changes::found::changes_after;
use crate::changes::level::Level;
use croncheck_runs::clock::Clock;
use croncheck_runs::runs::Runner;
use croner::component::ALL_BIT;
use croner::errors::CronError;
use croner::time::table::TableTime;
use croner::{Cron, JobType};
use std::alloc::Global;

const HOURS_PER_DAY: usize = 24;

/// A change of a clock. Wall seconds are counted from 1970-01-01T00:00:00 on a clock that never changes, with days of 24 hours.
#[derive(Clone, Copy, Drop)]
pub struct Change {
    /// Its instant, in seconds since 1970-01-01T00:00:00 UTC.
    pub instant: i64,
    /// The wall second that the clock would show there without the change.
    pub before: i64,
    /// The wall second that it shows there.
    pub after: i64,
}

/// Which wall seconds of a change are meant.
#[derive(Clone, Copy, Drop)]
pub enum Range {
    /// The seconds that it skips: from `before` up to the one before `after`.
    Gap,
    /// The seconds that it shows twice: from `after` up to the one before `before`.
    Repeated,
}

/// What becomes of a scheduled second in such a range.
#[derive(Clone, Copy, PartialEq, Eq, Drop)]
pub enum Fate {
    /// It is skipped, and there is no run for it.
    LeftOut,
    /// It is skipped, and the run is made at the change's instant.
    Moved,
    /// It is shown twice, and the run is made at the earlier instant alone.
    Once,
    /// It is shown twice, and a run is made at both instants.
    Twice,
    /// It is shown twice, and the run is made at the earlier instant alone, though the job names all hours: while the clock shows minutes
    /// for the second time, the job isn't started.
    Paused,
}

/// A change that meets a job.
#[derive(Clone, Copy, Drop)]
pub struct Meeting {
    pub change: Change,
    pub range: Range,
    /// The first wall second in the range that is scheduled.
    pub second: i64,
    /// What becomes of that second, which depends on what runs the line.
    pub fate: Fate,
}

/// The changes of a clock after a start, up to 372 days after it: a change on a certain Sunday comes again after 364 or 371.
///
/// Only changes from 0001-01-03T00:00:00 UTC on and before 4999-12-30T00:00:00 UTC count.
#[derive(Drop)]
pub struct Changes<'t> {
    /// The clock.
    pub clock: &'t Clock,
    /// The start, after which they lie: a second of that clock.
    pub start: TableTime<'t>,
    level: Level,
    items: Vec<Change>,
    pub ghost on_clock: { start.table.now ≡ clock.now.table },
    pub ghost all: { AreChangesFrom start items.items },
}

impl<'t> Changes<'t> {
    /// The changes of a clock after a start, which is given in seconds since 1970-01-01T00:00:00 UTC.
    ///
    /// The error is `InvalidTime` where no clock has this second, or `OutOfMemory`.
    pub fn of(alloc: Global, clock: &'t Clock, start: i64) -> Result<Changes<'t>, CronError>
        ensures clock { IfOk result (λ changes. changes.clock.now ≡ clock.now) }
        ensures start { IfOk result (λ changes. changes.start.second ≡ start) }
        ensures err { IfErr result (IsNoStart start) }
    {
        let time = TableTime::new(clock.table(), start)?;
        let level = Level::new(alloc);
        let items = changes_after(alloc, time)?;
        Ok(Changes {
            clock,
            start: time,
            level,
            items,
        })
    }

    /// The first change that meets a job: one of the job's scheduled seconds lies in this range of the change. `None` if there is none. A
    /// job that names all hours is met by no change, unless cron runs it and it isn't starred.
    pub fn first_meeting(&self, job: &Cron, runner: Runner, range: Range) -> Option<Meeting>
        ensures { MatchOption result
            ((c : Change) (w : ℤ) → ¬ (Meets (table_moment self.now.start).zone (table_moment self.now.start).instant runner (job_of job.now) range c w))
            (IsMeeting (table_moment self.now.start).zone (table_moment self.now.start).instant runner (job_of job.now) range) }
    {
        if is_never_met(job, runner) {
            return None;
        }
        for change in self.items.iter() {
            if let Some(second) = self.second_in(job, range, *change) {
                return Some(Meeting {
                    change: *change,
                    range,
                    second,
                    fate: self.fate_of(job, runner, range, *change, second),
                });
            }
        }
        None
    }

    // The first scheduled second in a range of a change.
    #[tactic(auto, using(crate::proofs::Meetings::seconds_in_range))]
    fn second_in(&self, job: &Cron, range: Range, change: Change) -> Option<i64>
        requires { IsInYears change }
        ensures { MatchOption result (IsNoneIn (job_of job.now) range change) (IsFirstIn (job_of job.now) range change) }
    {
        match range {
            Range::Gap => self
                .level
                .scheduled_within(job, change.before, change.after),
            Range::Repeated => self
                .level
                .scheduled_within(job, change.after, change.before),
        }
    }

    // What becomes of a scheduled second in a range of a change, by what runs the line.
    fn fate_of(&self, job: &Cron, runner: Runner, range: Range, change: Change, second: i64) -> Fate
        requires told { IsToldOf self.now.start change }
        requires years { IsInYears change }
        requires first { IsFirstIn (job_of job.now) range change second }
        ensures { IsFateBy runner (table_moment self.now.start).zone (job_of job.now) range change second result }
    {
        match runner {
            Runner::Croner => self.fate_in_croner(job, range, change, second),
            Runner::Cron { is_starred } => {
                fate_with_all_hours(
                    names_all_hours(job),
                    fate_in_cron(is_starred, range, change, second),
                )
            }
        }
    }

    // What becomes of a scheduled second of a pattern, which croner runs.
    fn fate_in_croner(&self, job: &Cron, range: Range, change: Change, second: i64) -> Fate
        requires told { IsToldOf self.now.start change }
        requires first { IsFirstIn (job_of job.now) range change second }
        ensures { IsFate (table_moment self.now.start).zone (job_of job.now) range change result }
    {
        match (range, job.determine_job_type()) {
            (Range::Gap, JobType::FixedTime) => self.fate_in_gap(job, change, second),
            (Range::Gap, JobType::IntervalWildcard) => Fate::LeftOut,
            (Range::Repeated, JobType::FixedTime) => Fate::Once,
            (Range::Repeated, JobType::IntervalWildcard) => Fate::Twice,
        }
    }

    // What becomes of a fixed-time job's second in the gap.
    fn fate_in_gap(&self, job: &Cron, change: Change, second: i64) -> Fate
        requires told { IsToldOf self.now.start change }
        requires first { IsFirstIn (job_of job.now) Range.Gap change second }
        requires fixed { is_fixed_time (job_of job.now) ≡ true }
        ensures { IsFate (table_moment self.now.start).zone (job_of job.now) Range.Gap change result }
    {
        match job.find_next_occurrence(&self.second_before(change), false) {
            Ok(run) => fate_by(run, change),
            Err(_) => Fate::LeftOut,
        }
    }

    // The second before a change.
    fn second_before(&self, change: Change) -> TableTime<'t>
        requires { IsToldOf self.now.start change }
        ensures { table_moment result ≡ at_instant (table_moment self.now.start).zone (change.instant -ℤ pos 1) }
    {
        match TableTime::new(self.start.table(), change.instant - 1) {
            Ok(time) => time,
            Err(_) => unreachable!(),
        }
    }
}

// What becomes of a second of the gap, by the next run after the second before the change.
fn fate_by(run: TableTime<'_>, change: Change) -> Fate
    ensures moved { run.entry.second ≡ change.instant → result ≡ Fate.Moved }
    ensures left_out { ¬ (run.entry.second ≡ change.instant) → result ≡ Fate.LeftOut }
{
    if run.second() == change.instant {
        Fate::Moved
    } else {
        Fate::LeftOut
    }
}

// Whether changes don't meet a job: all hours are named, and it isn't starless.
fn is_never_met(job: &Cron, runner: Runner) -> bool
    ensures { result ≡ is_never_met runner (job_of job.now) }
{
    names_all_hours(job) && !is_starless(runner)
}

// Whether cron runs the job, and it isn't starred: then cron makes up for what a change skips, and waits where minutes are shown again.
fn is_starless(runner: Runner) -> bool
    ensures { result ≡ is_starless runner }
{
    match runner {
        Runner::Cron { is_starred } => !is_starred,
        Runner::Croner => false,
    }
}

// What becomes of a second of a job, given whether the job names all hours.
fn fate_with_all_hours(names_all: bool, fate: Fate) -> Fate
    ensures { result ≡ fate_with_all_hours names_all fate }
{
    match fate {
        Fate::Once if names_all => Fate::Paused,
        Fate::LeftOut | Fate::Moved | Fate::Once | Fate::Twice | Fate::Paused => fate,
    }
}

// Whether all hours are named.
fn names_all_hours(job: &Cron) -> bool
    ensures { result ≡ names_all_hours (job_of job.now) }
{
    job.pattern.hours.count_set_values(ALL_BIT) == HOURS_PER_DAY
}
