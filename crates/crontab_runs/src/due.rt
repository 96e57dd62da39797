//! For which minutes a job is due when the clock shows another minute.
ghost use Rattle.std.specs.Prelude.{MatchOption, ◌≡◌, ◌↔◌, ◌≤◌, IsTrue, pos, neg_ℤ, ◌+ℤ◌, ◌-ℤ◌, ◌*ℤ◌, ◌≤ℤ◌};
ghost use Rattle.croner_base.specs.TableZone.{table_zone};
ghost use Rattle.croner.specs.Views.{job_of};
ghost use Rattle.croner.specs.search.Limit.{IsWithin};
ghost use Rattle.crontab_runs.specs.Starts.{NamesMinute, due_after as first_due, most_changed, far_minute};
ghost use Rattle.crontab_runs.specs.Views.{cron_job_of};
ghost use Rattle.crontab_runs.specs.Private.Due.{IsNamedCount, AreStarts, GoesOnWithinMinute, IsDueAtBegin};
ghost use Rattle.crontab_runs.specs.Private.Known.{IsKnown};
ghost use Rattle.crontab_runs.specs.Private.Stretches.{far};

use crate::job::CrontabJob;
use crate::minutes::{NearestMinute, minute_of, nearest_named};
use crate::stretch::Stretch;
use croner::Direction;

/// Where the clock shows at most this many minutes more than before, cron makes up for each of them, as if it had woken late.
const MOST_LATE: i64 = 5;

/// Where the clock goes forward by at most this many minutes, or back by fewer, cron takes that for a change of the clock, and makes up for
/// it.
pub(crate) const MOST_CHANGED: i64 = 180;

// The direction from a minute to the year 1970.
fn towards_1970(minute: i64) -> Direction
    ensures { IsWithin result (minute *ℤ pos 60) }
{
    if minute < 0 {
        Direction::Forward
    } else {
        Direction::Backward
    }
}

/// The minute after which cron starts a job for each minute that the job names, up to `minute`, which the clock shows now. `shown` is the
/// greatest minute that the clock has shown before. Minutes are counted from 1970-01-01T00:00 on the wall clock.
///
/// Where the answer is `minute`, cron starts nothing.
pub fn due_after(is_starred: bool, shown: i64, minute: i64) -> i64
    requires shown_low { neg_ℤ (pos far_minute) ≤ℤ shown }
    requires shown_high { shown ≤ℤ pos far_minute }
    requires low { neg_ℤ (pos far_minute) ≤ℤ minute }
    requires high { minute ≤ℤ pos far_minute }
    ensures { result ≡ first_due is_starred shown minute }
{
    let late = minute - shown;
    if late <= -MOST_CHANGED {
        return minute - 1;
    }
    if late <= 0 {
        return if is_starred { minute - 1 } else { minute };
    }
    if late <= MOST_LATE {
        return shown;
    }
    if late <= MOST_CHANGED {
        return if is_starred { minute - 1 } else { shown };
    }
    minute - 1
}

/// The minutes for which cron starts a job at the first second of a stretch, if the job names them.
#[derive(Clone, Copy)]
pub(crate) struct Due {
    /// The minute before the first of them.
    pub(crate) after: i64,
    /// The last of them, which the clock shows there.
    pub(crate) shown: i64,
}

/// The minutes for which cron starts a job at the first second of a stretch, if the job names them: none where the clock goes on within a
/// minute.
pub(crate) fn due_at_begin(is_starred: bool, stretch: &Stretch<'_>) -> Option<Due>
    ensures { MatchOption result (GoesOnWithinMinute stretch.now) (IsDueAtBegin is_starred stretch.now) }
{
    let shown = minute_of(stretch.before);
    let minute = minute_of(stretch.begin + stretch.offset);
    if minute == shown {
        return None;
    }
    Some(Due {
        after: due_after(is_starred, shown, minute),
        shown: minute,
    })
}

impl CrontabJob {
    /// Whether the job names a minute, which is so where the nearest named minute from it on is itself.
    pub(crate) fn names(&self, minute: i64) -> bool
        ensures { IsTrue result ↔ NamesMinute (job_of self.now.cron) minute }
    {
        match nearest_named(&self.cron, minute, towards_1970(minute)) {
            Some(nearest) => nearest == minute,
            None => false,
        }
    }

    // Whether what is known, or a single search, shows that the job names no minute after one and up to another.
    fn names_none(&self, known: &NearestMinute, after: i64, upto: i64) -> bool
        requires known { IsKnown (job_of self.now.cron) known.now }
        requires low { neg_ℤ (pos far) ≤ℤ after }
        requires order { after ≤ℤ upto }
        requires high { upto ≤ℤ pos far }
        ensures { IsTrue result → IsNamedCount (NamesMinute (job_of self.now.cron)) after upto 0 }
    {
        match known.direction {
            Direction::Forward => known.known_from(&self.cron, after + 1).first(&self.cron) > upto,
            Direction::Backward => known.known_from(&self.cron, upto).first(&self.cron) <= after,
        }
    }

    // How many minutes the job names, after one and up to another.
    fn named_count(&self, known: &NearestMinute, after: i64, upto: i64) -> u32
        requires known { IsKnown (job_of self.now.cron) known.now }
        requires low { neg_ℤ (pos far) ≤ℤ after }
        requires order { after ≤ℤ upto }
        requires near { upto ≤ℤ (after +ℤ pos most_changed) }
        requires high { upto ≤ℤ pos far }
        ensures { IsNamedCount (NamesMinute (job_of self.now.cron)) after upto result }
    {
        if self.names_none(known, after, upto) {
            return 0;
        }
        let mut count = 0;
        for minute in after + 1..upto + 1 {
            if self.names(minute) {
                count += 1;
            }
        }
        count
    }

    /// How many times the job is started at the first second of a stretch.
    pub(crate) fn count_at_begin(&self, known: &NearestMinute, stretch: &Stretch<'_>) -> u32
        requires { IsKnown (job_of self.now.cron) known.now }
        ensures { AreStarts (cron_job_of self.now) (table_zone stretch.now.table.now) stretch.now.begin result }
    {
        match due_at_begin(self.is_starred, stretch) {
            Some(due) => self.named_count(known, due.after, due.shown),
            None => 0,
        }
    }
}
