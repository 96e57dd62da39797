//! What cron makes of a scheduled second of a change.
ghost use Rattle.std.specs.Prelude.{◌≡◌};
ghost use Rattle.crontab_runs.specs.Starts.{minute_of};
ghost use Rattle.croncheck_changes.specs.Changes.{LiesIn, turns_at, minute_there, is_due_there, is_started_there, fate_in_cron};
ghost use Rattle.croncheck_changes.specs.Private.Met.{IsInYears};

use crate::changes::{Change, Fate, Range};
use crontab_runs::due_after;

const SECONDS_PER_MINUTE: i64 = 60;

// The minute in which a wall second lies.
fn minute_of(wall: i64) -> i64
    ensures { result ≡ minute_of wall }
{
    wall.div_euclid(SECONDS_PER_MINUTE)
}

// The minute that the clock shows when cron looks at the job for a second of the range: at the end
// of the gap, or when the second is shown again.
fn minute_there(range: Range, change: Change, second: i64) -> i64
    ensures { result ≡ minute_there range change second }
{
    match range {
        Range::Gap => minute_of(change.after),
        Range::Repeated => minute_of(second),
    }
}

// Whether the clock shows another minute at the change than a second before.
fn turns_at(change: Change) -> bool
    requires { IsInYears change }
    ensures { result ≡ turns_at change }
{
    minute_of(change.after) != minute_of(change.before - 1)
}

// Whether the minute of the second, with which it begins, is due when cron looks at the job.
fn is_due_there(is_starred: bool, range: Range, change: Change, second: i64) -> bool
    requires years { IsInYears change }
    requires lies { LiesIn range change second }
    ensures { result ≡ is_due_there is_starred range change second }
{
    let shown = minute_of(change.before - 1);
    let minute = minute_there(range, change, second);
    due_after(is_starred, shown, minute) < minute_of(second)
}

// Whether cron looks at the job there, and starts it for the minute of the second.
fn is_started_there(is_starred: bool, range: Range, change: Change, second: i64) -> bool
    requires years { IsInYears change }
    requires lies { LiesIn range change second }
    ensures { result ≡ is_started_there is_starred range change second }
{
    turns_at(change) && is_due_there(is_starred, range, change, second)
}

/// What becomes of a scheduled second of the range.
pub(crate) fn fate_in_cron(is_starred: bool, range: Range, change: Change, second: i64) -> Fate
    requires years { IsInYears change }
    requires lies { LiesIn range change second }
    ensures { result ≡ fate_in_cron is_starred range change second }
{
    match (range, is_started_there(is_starred, range, change, second)) {
        (Range::Gap, true) => Fate::Moved,
        (Range::Gap, false) => Fate::LeftOut,
        (Range::Repeated, true) => Fate::Twice,
        (Range::Repeated, false) => Fate::Once,
    }
}
