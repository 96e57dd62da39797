//! What is told of the first changes that meet a job.
ghost use Rattle.std.specs.Prelude.{◌≡◌, ◌↔◌, IsTrue};
ghost use Rattle.croner_base.specs.TableZone.{table_moment};
ghost use Rattle.croner.specs.Views.{job_of};
ghost use Rattle.croncheck_changes.specs.Changes.{IsDueBeside, is_within_a_date, is_harmed, is_pause, is_warned, has_warning, are_warned, TellsFirst, AreMeetings, none_met};
ghost use Rattle.croncheck_changes.specs.Private.Level.{TellsDueBeside};
ghost use Rattle.croncheck_changes.specs.Private.Met.{IsInYears};

use crate::changes::{Change, Changes, Fate, Meeting, Range};
use croncheck_runs::runs::Runner;
use croner::Cron;

/// A change by this many seconds or more isn't warned of: it goes to another date, and is no daylight saving.
const SECONDS_PER_HALF_DAY: u64 = 43_200;

/// The first change that meets a job in a range.
#[derive(Clone, Copy, Drop)]
pub struct Met {
    pub meeting: Meeting,
    /// The job is due beside the range too: within three hours before it, or within three hours after it.
    pub is_due_beside: bool,
}

/// What is told of a job at changes of the clock after a start.
#[derive(Clone, Copy, Drop)]
pub struct Meetings {
    /// The first change that skips one of its scheduled seconds.
    pub gap: Option<Met>,
    /// The first change that shows one of them twice.
    pub repeated: Option<Met>,
}

impl Meetings {
    /// Nothing is told.
    pub fn none() -> Meetings
        ensures { result ≡ none_met }
    {
        Meetings {
            gap: None,
            repeated: None,
        }
    }

    /// Whether one of the two is warned of.
    pub fn are_warned(&self) -> bool
        ensures { result ≡ are_warned self.now }
    {
        has_warning(&self.gap) || has_warning(&self.repeated)
    }
}

// Whether a change, if one meets the job, is warned of.
fn has_warning(met: &Option<Met>) -> bool
    ensures { result ≡ has_warning met.now }
{
    match met {
        Some(met) => met.is_warned(),
        None => false,
    }
}

impl Met {
    /// Whether it is warned of: the clock is moved by less than twelve hours; and either the job pauses, or a run is left out or made twice
    /// and the job isn't due beside the range.
    pub fn is_warned(&self) -> bool
        ensures { result ≡ is_warned self.now }
    {
        let fate = self.meeting.fate;
        is_within_a_date(self.meeting.change)
            && (fate.is_pause() || is_harmed(fate) && !self.is_due_beside)
    }
}

impl Changes<'_> {
    /// The first of these changes that skips a scheduled second of a job, and the first that shows one twice, with what becomes of that
    /// second, which depends on what runs the job. A job that names all hours has none of them, unless cron runs it and it isn't starred.
    pub fn meetings_of(&self, job: &Cron, runner: Runner) -> Meetings
        ensures { AreMeetings self.now.start runner (job_of job.now) result }
    {
        Meetings {
            gap: self.first_met(job, runner, Range::Gap),
            repeated: self.first_met(job, runner, Range::Repeated),
        }
    }

    // The first change that meets a job in a range.
    fn first_met(&self, job: &Cron, runner: Runner, range: Range) -> Option<Met>
        ensures { TellsFirst (table_moment self.now.start).zone (table_moment self.now.start).instant runner (job_of job.now) range result }
    {
        match self.first_meeting(job, runner, range) {
            Some(meeting) => Some(self.met(job, meeting)),
            None => None,
        }
    }

    // A meeting, and whether the job is due beside it.
    #[tactic(auto, using(crate::proofs::LevelClock::due_as_told))]
    fn met(&self, job: &Cron, meeting: Meeting) -> Met
        requires { IsInYears meeting.change }
        ensures meeting { result.meeting ≡ meeting }
        ensures beside { IsTrue result.is_due_beside ↔ IsDueBeside (job_of job.now) meeting.range meeting.change }
    {
        Met {
            meeting,
            is_due_beside: self.is_due_beside(job, meeting.range, meeting.change),
        }
    }

    // Whether a job is due beside the range of a change.
    #[tactic(auto, using(crate::proofs::LevelClock::ranges_beside))]
    fn is_due_beside(&self, job: &Cron, range: Range, change: Change) -> bool
        requires { IsInYears change }
        ensures { TellsDueBeside (job_of job.now) range change result }
    {
        match range {
            Range::Gap => self.level.is_due_around(job, change.before, change.after),
            Range::Repeated => self.level.is_due_around(job, change.after, change.before),
        }
    }
}

fn is_within_a_date(change: Change) -> bool
    ensures { result ≡ is_within_a_date change }
{
    change.before.abs_diff(change.after) < SECONDS_PER_HALF_DAY
}

impl Fate {
    /// Whether the job pauses: all its hours are named, so that it makes no difference that it is due beside the range.
    pub(crate) fn is_pause(self) -> bool
        ensures { result ≡ is_pause self }
    {
        match self {
            Fate::Paused => true,
            Fate::LeftOut | Fate::Moved | Fate::Once | Fate::Twice => false,
        }
    }
}

// Whether a run is left out or made twice, or the job pauses.
fn is_harmed(fate: Fate) -> bool
    ensures { result ≡ is_harmed fate }
{
    match fate {
        Fate::LeftOut | Fate::Twice | Fate::Paused => true,
        Fate::Moved | Fate::Once => false,
    }
}
