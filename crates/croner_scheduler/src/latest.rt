//! The last due run of a job.
ghost use Rattle.std.specs.Prelude.{◌≡◌, IfOk, OnErr, IsTrue};
ghost use Rattle.croner_scheduler.specs.Private.Latest.{last_of_run, last_of_refusal, FitsLast};

use crate::waiting::{Refusal, refusal_of};
use croner::errors::CronError;
use croner::{Clocked, Recurring};
use std::alloc::AllocError;

/// The result of a call for the last due run of a job ([`Scheduler::take_latest_due`](crate::Scheduler::take_latest_due)).
#[derive(Debug, Drop)]
pub enum Latest {
    /// The last due run. It is the job's position from now on.
    Given {
        /// The run's whole second.
        second: i64,
        /// Whether the job is stopped.
        is_stopped: bool,
    },
    /// No run of the job is due.
    NothingDue,
    /// No job has the id.
    NoJob,
    /// A run is due, but the job's zone doesn't hold the second `now`.
    NotHeld,
    /// The search backward from `now` was refused by its backend.
    Refused(Refusal),
}

// What a search backward finds as the last run of a job.
#[derive(Debug, Drop)]
pub(crate) enum Last<T> {
    // It is this one, later than the next run.
    Later(T),
    // It is the next run.
    Known,
    // The backend refused the search.
    Refused(Refusal),
}

// The last run of a job up to a moment, where its next run, at that second, lies no later.
#[tactic(auto, using(crate::proofs::LastRuns::last_refused, crate::proofs::LastRuns::lacks_refused))]
pub(crate) fn last_of<J: Recurring<T>, T: Clocked>(
    job: &J,
    next: i64,
    until: &T,
) -> Result<Last<T>, AllocError>
    ensures fits { IfOk result (FitsLast (J.runs job.now) T.moment next (T.moment until.now)) }
    ensures lacks { OnErr result (IsTrue T.can_lack_memory) }
{
    match job.last_until(until) {
        Ok(found) => Ok(last_of_run(next, until, found)),
        Err(refusal) => last_of_refusal(refusal),
    }
}

// How a run that was found compares with the next run.
fn last_of_run<T: Clocked>(next: i64, until: &T, found: T) -> Last<T>
    ensures { result ≡ last_of_run T.moment next until.now found }
{
    if next < found.second() && found.second() <= until.second() {
        Last::Later(found)
    } else {
        Last::Known
    }
}

// What a refusal is, where a next run is known.
fn last_of_refusal<T>(refusal: CronError) -> Result<Last<T>, AllocError>
    ensures { result ≡ last_of_refusal refusal }
{
    match refusal {
        CronError::TimeSearchLimitExceeded => Ok(Last::Known),
        CronError::OutOfMemory => Err(AllocError),
        error => Ok(Last::Refused(refusal_of(error))),
    }
}
