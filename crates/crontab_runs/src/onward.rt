//! Which stretch of a clock a search goes to next: it skips those whose clock shows nothing for which the job can be started.
ghost use Rattle.std.specs.Prelude.{◌≡◌, ◌≤◌, ◌<◌, length};
ghost use Rattle.croner_base.specs.declared.time.Direction.{Direction};
ghost use Rattle.croner.specs.Views.{job_of};
ghost use Rattle.crontab_runs.specs.Views.{cron_job_of};
ghost use Rattle.crontab_runs.specs.Private.Known.{IsKnown};
ghost use Rattle.crontab_runs.specs.Private.Onward.{IsNextStretch, IsStretchBefore};

use crate::due::MOST_CHANGED;
use crate::job::CrontabJob;
use crate::minutes::{NearestMinute, SECONDS_PER_MINUTE, minute_of};
use crate::stretch::{Stretch, changes_until};
use croner::time::table::ClockTable;

/// The most seconds that the clock of a table is ahead of UTC or behind it.
const MOST_OFFSET: i64 = 86_400;

impl CrontabJob {
    /// The next stretch of a search forward, from the one after `next` changes on. A stretch is given by the number of changes before it.
    pub(crate) fn next_stretch(
        &self,
        table: &ClockTable,
        next: usize,
        known: &NearestMinute,
    ) -> usize
        requires known { IsKnown (job_of self.now.cron) known.now }
        requires forward { known.now.direction ≡ Direction.Forward }
        requires within { next ≤ length table.now.changes.items }
        ensures { IsNextStretch (cron_job_of self.now) table.now next result }
    {
        if known.from > Stretch::after_changes(table, next).least_after_begin() {
            return next;
        }
        let minute = known.first(&self.cron);
        changes_until(table, minute * SECONDS_PER_MINUTE - MOST_OFFSET).max(next)
    }

    /// The next stretch of a search backward from the one after so many changes.
    pub(crate) fn stretch_before(
        &self,
        table: &ClockTable,
        changes: usize,
        known: &NearestMinute,
    ) -> usize
        requires known { IsKnown (job_of self.now.cron) known.now }
        requires backward { known.now.direction ≡ Direction.Backward }
        requires some { 0 < changes }
        requires within { changes ≤ length table.now.changes.items }
        ensures { IsStretchBefore (cron_job_of self.now) table.now changes result }
    {
        if known.from < minute_of(Stretch::after_changes(table, changes).before) {
            return changes - 1;
        }
        let minute = known.first(&self.cron) + MOST_CHANGED;
        changes_until(table, minute * SECONDS_PER_MINUTE + MOST_OFFSET).min(changes - 1)
    }
}
