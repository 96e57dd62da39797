//! What the forms of a plan show.
ghost use Rattle.std.specs.Prelude.{◌≡◌};
ghost use Rattle.cronplan_forms.specs.Answers.{shows_all};
ghost use Rattle.cronplan_forms.specs.Frequents.{frequent_count};

use crate::beside::OtherClock;
use crate::job::Job;
use croner_base::time::table::ClockTable;
use cronplan::{Frequent, Plan};

/// A plan, and what is shown with it.
#[derive(Clone, Copy)]
pub struct View<'v> {
    pub plan: &'v Plan,
    /// The clock whose dates and hours are shown.
    pub table: &'v ClockTable,
    /// The name of that clock's zone.
    pub zone: &'v str,
    /// The jobs, by their places in the plan.
    pub jobs: &'v [Job<'v>],
    /// Those of them that start too often to be shown.
    pub frequent: &'v [Frequent],
    /// Whether the plan ends earlier than was asked for, because it keeps no more starts.
    pub is_cut: bool,
    /// The jobs that lack a start where the clock is put forward.
    pub dropped: &'v [Dropped],
    /// The clock of a second zone that is shown beside the first, if there is one. Answers don't show
    /// it.
    pub other: Option<OtherClock<'v>>,
}

/// A job that lacks a start where the clock is put forward: its time is skipped, and not made up for.
#[derive(Clone, Copy)]
pub struct Dropped {
    /// Its place among the jobs, from 0.
    pub job: usize,
    /// The second of that change, counted from 1970-01-01T00:00:00 UTC.
    pub second: i64,
}

impl View<'_> {
    // Whether all jobs are shown: none starts too often.
    pub(crate) fn shows_all(&self) -> bool
        ensures { result ≡ shows_all self.now }
    {
        self.frequent.is_empty()
    }
}

/// How many starts the job at a place has, if it is one of these, which start too often.
#[tactic(auto, using(crate::proofs::Frequents::frequent_count_step))]
pub fn frequent_count(frequent: &[Frequent], place: usize) -> Option<u64>
    ensures { result ≡ frequent_count frequent.now place }
{
    for job in frequent {
        if job.job == place {
            return Some(job.starts);
        }
    }
    None
}
