//! The search for a job's nearest start on the clock of a table.
ghost use Rattle.std.specs.Prelude.{◌≡◌, ◌↔◌, ◌≤◌, ◌+ℤ◌, ◌≤ℤ◌, ◌<ℤ◌, pos, neg_ℤ, length, IsTrue, MatchOption, int_le};
ghost use Rattle.croner_base.specs.TableZone.{table_moment};
ghost use Rattle.crontab_runs.specs.Searches.{IsStartFound, NoStartLeft};
ghost use Rattle.crontab_runs.specs.Views.{cron_job_of};
ghost use Rattle.croner.specs.search.Limit.{IsWithin};
ghost use Rattle.crontab_runs.specs.Private.Steps.{ComesTo, far_wall, SameFrom, StepsTo};
ghost use Rattle.croner.specs.Views.{job_of};
ghost use Rattle.crontab_runs.specs.Private.Known.{IsKnown};

use crate::job::{CrontabJob, Start};
use crate::minutes::{NearestMinute, is_within};
use crate::stretch::{Stretch, changes_until};
use crate::stretch_search::StretchSearch;
use croner::Direction;
use croner::time::table::TableTime;

/// What a step of a search comes to.
#[derive(Clone, Copy)]
pub(crate) enum Step {
    /// The nearest start.
    Found(Start),
    /// None is left in the searched years.
    Over,
    /// None in this stretch; and what is known of the job's minutes.
    GoOn(NearestMinute),
}

// The second of a stretch at which a search that comes from another second begins there.
fn first_in(stretch: &Stretch<'_>, from: i64, direction: Direction) -> i64
    requires { ComesTo direction stretch.now from }
    ensures low { stretch.now.begin ≤ℤ result }
    ensures high { result <ℤ stretch.now.end }
    ensures same { SameFrom direction stretch.now from result }
{
    match direction {
        Direction::Forward => from.max(stretch.begin),
        Direction::Backward => from.min(stretch.end - 1),
    }
}

// Whether the searched years go on beyond a stretch.
fn goes_on(stretch: &Stretch<'_>, direction: Direction) -> bool
    ensures { IsTrue result ↔ IsWithin direction (far_wall direction stretch.now) }
{
    match direction {
        Direction::Forward => is_within(stretch.end - 1 + stretch.offset, direction),
        Direction::Backward => is_within(stretch.begin + stretch.offset, direction),
    }
}

impl CrontabJob {
    // The search in a stretch, from a second on.
    fn step(
        &self,
        stretch: Stretch<'_>,
        from: i64,
        direction: Direction,
        known: &NearestMinute,
    ) -> Step
        requires comes { ComesTo direction stretch from }
        requires known { IsKnown (job_of self.now.cron) known.now }
        requires same { known.now.direction ≡ direction }
        ensures { StepsTo direction (cron_job_of self.now) (job_of self.now.cron) stretch.entry from result }
    {
        let part = StretchSearch {
            job: self,
            stretch,
            from: first_in(&stretch, from, direction),
            direction,
        };
        let minutes = known.known_from(&self.cron, part.first_minute());
        match part.nearest_start(&minutes) {
            Some(start) => Step::Found(start),
            None => {
                if goes_on(&stretch, direction) {
                    Step::GoOn(minutes)
                } else {
                    Step::Over
                }
            }
        }
    }

    /// The first start after a time.
    ///
    /// `None` where none is left in the searched years, which end when the clock first shows year 5000.
    ///
    /// On 2027-03-28 the clock in Paris skips half past two, and cron starts the job at three, which is 01:00 UTC. `paris`
    /// is the table of that clock.
    ///
    /// ```
    /// let job = CrontabJob { cron: Cron::from_str(alloc, "30 2 * * *")?, is_starred: false };
    /// let midnight = TableTime::new(&paris, 1_806_188_400)?; // 2027-03-28T00:00:00
    /// let start = job.next_after(&midnight); // Some: the second 1806195600, once
    /// ```
    pub fn next_after(&self, after: &TableTime<'_>) -> Option<Start>
        ensures { MatchOption result
            (NoStartLeft Direction.Forward (cron_job_of self.now) (table_moment after.now))
            (IsStartFound Direction.Forward (cron_job_of self.now) (table_moment after.now)) }
    {
        let table = after.table();
        let from = after.second() + 1;
        let mut changes = changes_until(table, from);
        let mut known = NearestMinute::before_any_search(Direction::Forward);
        let end = table.changes().len() + 1;
        for _step in 0..end {
            match self.step(
                Stretch::after_changes(table, changes),
                from,
                Direction::Forward,
                &known,
            ) {
                Step::Found(start) => return Some(start),
                Step::Over => return None,
                Step::GoOn(on) => {
                    changes = self.next_stretch(table, changes + 1, &on);
                    known = on;
                }
            }
        }
        None
    }

    /// The last start up to and including a time.
    ///
    /// `None` where none is left in the searched years, which begin when the clock last shows year 1.
    ///
    /// ```
    /// let job = CrontabJob { cron: Cron::from_str(alloc, "30 2 * * *")?, is_starred: false };
    /// let noon = TableTime::new(&paris, 1_806_228_000)?; // 2027-03-28T12:00:00
    /// let start = job.last_until(&noon); // Some: the second 1806195600, once
    /// ```
    pub fn last_until(&self, until: &TableTime<'_>) -> Option<Start>
        ensures { MatchOption result
            (NoStartLeft Direction.Backward (cron_job_of self.now) (table_moment until.now))
            (IsStartFound Direction.Backward (cron_job_of self.now) (table_moment until.now)) }
    {
        let table = until.table();
        let from = until.second();
        let count = changes_until(table, from);
        let mut changes = count;
        let mut known = NearestMinute::before_any_search(Direction::Backward);
        for _step in 0..count + 1 {
            match self.step(
                Stretch::after_changes(table, changes),
                from,
                Direction::Backward,
                &known,
            ) {
                Step::Found(start) => return Some(start),
                Step::Over => return None,
                Step::GoOn(on) => {
                    changes = self.stretch_before(table, changes, &on);
                    known = on;
                }
            }
        }
        None
    }
}
