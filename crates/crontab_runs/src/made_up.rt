//! What cron makes up for where the clock has skipped minutes.
ghost use Rattle.std.specs.Prelude.{MatchOption, ◌≤ℤ◌, pos, neg_ℤ};
ghost use Rattle.croner_base.specs.TableZone.{table_zone};
ghost use Rattle.croner.specs.Views.{job_of};
ghost use Rattle.crontab_runs.specs.MadeUp.{MakesUpForNone, MakesUpFrom};
ghost use Rattle.crontab_runs.specs.Starts.{NamesMinute};
ghost use Rattle.crontab_runs.specs.Private.Named.{NoneNamedBetween, IsFirstNamedBetween};
ghost use Rattle.crontab_runs.specs.Private.Stretches.{far};
ghost use Rattle.crontab_runs.specs.Views.{cron_job_of};

use crate::due::due_at_begin;
use crate::job::CrontabJob;
use crate::minutes::SECONDS_PER_MINUTE;
use crate::stretch::{Stretch, changes_until};
use croner::time::table::TableTime;

impl CrontabJob {
    /// The first skipped minute for which cron starts the job at a time: the clock shows a later minute then, and cron makes up for this
    /// one. `None` where cron starts the job for the shown minute alone, or not at all.
    ///
    /// The answer is the wall second at which that minute begins, counted from 1970-01-01T00:00:00 as if the wall clock never changed.
    pub fn first_made_up(&self, time: &TableTime<'_>) -> Option<i64>
        ensures { MatchOption result (MakesUpForNone (cron_job_of self.now) (table_zone time.now.table.now) time.now.second)
            (MakesUpFrom (cron_job_of self.now) (table_zone time.now.table.now) time.now.second) }
    {
        let (table, second) = (time.table(), time.second());
        let stretch = Stretch::after_changes(table, changes_until(table, second));
        if second == stretch.begin {
            self.first_at_begin(&stretch)
        } else {
            None
        }
    }

    // The same of the first second of a stretch.
    fn first_at_begin(&self, stretch: &Stretch<'_>) -> Option<i64>
        ensures { MatchOption result (MakesUpForNone (cron_job_of self.now) (table_zone stretch.now.table.now) stretch.now.begin)
            (MakesUpFrom (cron_job_of self.now) (table_zone stretch.now.table.now) stretch.now.begin) }
    {
        match due_at_begin(self.is_starred, stretch) {
            Some(due) => self.first_named_between(due.after, due.shown),
            None => None,
        }
    }

    // The wall second at which the first minute begins that the job names after one minute and before another.
    fn first_named_between(&self, after: i64, before: i64) -> Option<i64>
        requires low { neg_ℤ (pos far) ≤ℤ after }
        requires order { after ≤ℤ before }
        requires high { before ≤ℤ pos far }
        ensures { MatchOption result (NoneNamedBetween (NamesMinute (job_of self.now.cron)) after before)
            (IsFirstNamedBetween (NamesMinute (job_of self.now.cron)) after before) }
    {
        for minute in after + 1..before {
            if self.names(minute) {
                return Some(minute * SECONDS_PER_MINUTE);
            }
        }
        None
    }
}
