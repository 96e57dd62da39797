//! A job with its position and its next run.
ghost use Rattle.std.specs.Prelude.{◌≡◌, true, is_some, option_map, IfOk, IfErr, IfSome, OnErr, IsTrue};
ghost use Rattle.croner_base.specs.Zone.{at_instant};
ghost use Rattle.croner_scheduler.specs.Kept.{standing_of, stop_of, is_paused, second_of, StopsAt, FitsNext, Fits};
ghost use Rattle.croner_scheduler.specs.Private.Latest.{due_second};
ghost use Rattle.croner_scheduler.specs.Private.Steps.{next_of_run, next_of_refusal, IsSecondBefore, job_at_position, job_standing_at, is_next_at, is_next_after, job_with_next, again_of, refusal_of};

use crate::Again;
use croner::errors::CronError;
use croner::{Clocked, Recurring};
use std::alloc::AllocError;

/// How a backend refused a search: it doesn't hold a moment that the search needs. [`CronError`] is made of it by `From`.
#[derive(Debug, Clone, Copy)]
pub enum Refusal {
    /// As [`CronError::InvalidDate`].
    InvalidDate,
    /// As [`CronError::InvalidTime`].
    InvalidTime,
}

/// Why a job is stopped. A search stops it only where its zone isn't calm, or the backend doesn't hold what a search from its position
/// needs.
#[derive(Debug, Clone, Copy)]
pub enum Stop {
    /// Its backend refused the search after its position.
    Refused(Refusal),
    /// The run that the search found isn't later than the position. That never happens in a calm zone.
    NotLater,
    /// It was paused ([`Scheduler::pause`](crate::Scheduler::pause)), and goes on when it is resumed.
    Paused,
}

/// The next run of a job, or why there is none.
#[derive(Debug, Clone, Copy)]
pub(crate) enum Next {
    // A run, at this second, which the clock of the job's position holds.
    Run(i64),
    // No run in the searched years.
    Over,
    // Nothing, since no run could be found.
    Stopped(Stop),
}

impl Next {
    // Whether the job is stopped.
    pub(crate) fn is_stopped(&self) -> bool
        ensures { result ≡ is_some (stop_of self.now) }
    {
        match self {
            Next::Stopped(_) => true,
            Next::Run(_) | Next::Over => false,
        }
    }

    // The result of searching a stopped job again, if it has this next from now on.
    pub(crate) fn again_result(&self) -> Again
        ensures { result ≡ again_of (is_some (stop_of self.now)) }
    {
        if self.is_stopped() {
            Again::StillStopped
        } else {
            Again::GoesOn
        }
    }
}

/// A job in a scheduler, with its position and its next run.
#[derive(Drop)]
pub struct Waiting<J, T> {
    pub(crate) job: J,
    pub(crate) position: T,
    pub(crate) next: Next,
}

impl<J, T> Waiting<J, T> {
    /// The job.
    pub fn job(&self) -> &J
        ensures { result.now ≡ self.now.job }
    {
        &self.job
    }

    /// The moment up to which its runs are done, a whole second in its zone. At first it is the position given to `add` or `replace`,
    /// or the second before the start given to `add_from`. From then on it is the last run that was given, or the second to which it
    /// skipped.
    pub fn position(&self) -> &T
        ensures { result.now ≡ self.now.position }
    {
        &self.position
    }

    /// The second of the run that is given next, which the clock of the position holds: [`Clocked::at_second`] gives the time of the run.
    /// `None` where no run is left in the searched years, or the job is stopped.
    pub fn next_second(&self) -> Option<i64>
        ensures { result ≡ second_of self.now.next }
    {
        match self.next {
            Next::Run(second) => Some(second),
            Next::Over | Next::Stopped(_) => None,
        }
    }

    /// Why it is stopped; `None` where it isn't. A stopped job gives no run.
    pub fn stop(&self) -> Option<&Stop>
        ensures { option_map (λ stop. stop.now) result ≡ stop_of self.now.next }
    {
        match &self.next {
            Next::Stopped(stop) => Some(stop),
            Next::Run(_) | Next::Over => None,
        }
    }

    // Moves to another position.
    pub(crate) fn move_to(&mut self, position: T, next: Next)
    where
        T: Drop,
        ensures { self.new ≡ job_at_position position next self.old }
    {
        self.position = position;
        self.next = next;
    }

    // Moves to another position, with the same run next.
    pub(crate) fn move_before_next(&mut self, position: T)
    where
        T: Drop,
        ensures { self.new ≡ job_standing_at position self.old }
    {
        self.position = position;
    }

    // Has another run next.
    pub(crate) fn renew(&mut self, next: Next)
        ensures { self.new ≡ job_with_next next self.old }
    {
        self.next = next;
    }

    // Whether it is stopped.
    pub(crate) fn is_stopped(&self) -> bool
        ensures { result ≡ is_some (stop_of self.now.next) }
    {
        self.next.is_stopped()
    }

    // Whether it is paused.
    pub(crate) fn is_paused(&self) -> bool
        ensures { result ≡ is_paused (stop_of self.now.next) }
    {
        match self.next {
            Next::Stopped(Stop::Paused) => true,
            Next::Stopped(Stop::Refused(_) | Stop::NotLater) | Next::Run(_) | Next::Over => false,
        }
    }

    // Whether its next run is at a second.
    pub(crate) fn runs_at(&self, second: i64) -> bool
        ensures { result ≡ is_next_at second self.now.next }
    {
        match self.next {
            Next::Run(run) => run == second,
            Next::Over | Next::Stopped(_) => false,
        }
    }

    // The job and its position.
    pub(crate) fn into_parts(self) -> (J, T)
    where
        T: Drop,
        ensures job { result.0 ≡ self.job }
        ensures position { result.1 ≡ self.position }
    {
        let Waiting {
            job,
            position,
            next: _,
        } = self;
        (job, position)
    }
}

impl<J: Recurring<T>, T: Clocked> Waiting<J, T> {
    // A job with a whole second as its position; or, for lack of memory, the job back.
    pub(crate) fn new(job: J, position: T) -> Result<Waiting<J, T>, J>
        requires { (T.moment position).fraction ≡ 0 }
        ensures job { IfOk result (λ w. w.job ≡ job) }
        ensures position { IfOk result (λ w. w.position ≡ position) }
        ensures fits { IfOk result (Fits J.runs T.moment) }
        ensures stop { IfOk result (λ w. IfSome (stop_of w.next) (StopsAt (T.moment w.position))) }
        ensures returned { IfErr result (λ returned. returned ≡ job) }
        ensures lacks { OnErr result (IsTrue T.can_lack_memory) }
    {
        match next_of(&job, &position) {
            Ok(next) => Ok(Waiting {
                job,
                position,
                next,
            }),
            Err(_) => Err(job),
        }
    }

    // Whether its next run is later than a second.
    pub(crate) fn runs_after(&self, second: i64) -> bool
        ensures { result ≡ is_next_after second self.now.next }
    {
        match self.next {
            Next::Run(run) => second < run,
            Next::Over | Next::Stopped(_) => false,
        }
    }

    // The second of its next run, if that is no later than now.
    pub(crate) fn due_second(&self, now: i64) -> Option<i64>
        ensures { result ≡ due_second now self.now.next }
    {
        match self.next {
            Next::Run(run) if run <= now => Some(run),
            Next::Run(_) | Next::Over | Next::Stopped(_) => None,
        }
    }
}

// The whole second in which a time lies, on its clock, which holds it.
pub(crate) fn whole_second<T: Clocked>(time: &T) -> T
    ensures moment { T.moment result ≡ at_instant (T.moment time.now).zone (T.moment time.now).instant }
    ensures held { (T.moment time.now).zone.holds (T.moment time.now).instant ≡ true }
{
    match time.at_second(time.second()) {
        Some(whole) => whole,
        None => unreachable!(),
    }
}

// The second before that in which a time lies, on its clock.
pub(crate) fn second_before<T: Clocked>(time: &T) -> Option<T>
    ensures { IsSecondBefore T.moment (T.moment time.now) result }
{
    let second = time.second();
    if second == i64::MIN {
        return None;
    }
    time.at_second(second - 1)
}

// What comes next of a job from a position.
#[tactic(auto, using(crate::proofs::NextRuns::fits_refused, crate::proofs::NextRuns::lacks_refused))]
pub(crate) fn next_of<J: Recurring<T>, T: Clocked>(
    job: &J,
    position: &T,
) -> Result<Next, AllocError>
    ensures fits { IfOk result (FitsNext (J.runs job.now) (T.moment position.now)) }
    ensures lacks { OnErr result (IsTrue T.can_lack_memory) }
{
    match job.next_after(position) {
        Ok(found) => Ok(next_of_run(position, &found)),
        Err(refusal) => next_of_refusal(refusal),
    }
}

// What a run that was found is.
fn next_of_run<T: Clocked>(position: &T, found: &T) -> Next
    ensures { result ≡ next_of_run (T.moment position.now).instant (T.moment found.now).instant }
{
    let second = found.second();
    if position.second() < second {
        Next::Run(second)
    } else {
        Next::Stopped(Stop::NotLater)
    }
}

/// The error of the same name.
impl From<Refusal> for CronError {
    ghost use Rattle.std.specs.Prelude.{◌≡◌};
    ghost use Rattle.croner_scheduler.specs.Kept.{error_of};

    ghost from_gives = { λ refusal e. e ≡ error_of refusal };

    fn from(refusal: Refusal) -> CronError {
        match refusal {
            Refusal::InvalidDate => CronError::InvalidDate,
            Refusal::InvalidTime => CronError::InvalidTime,
        }
    }
}

// How a search was refused whose error is neither the limit nor lack of memory. A search has no errors but these and `InvalidDate` and
// `InvalidTime`.
pub(crate) fn refusal_of(error: CronError) -> Refusal
    ensures { result ≡ refusal_of error }
{
    match error {
        CronError::InvalidDate => Refusal::InvalidDate,
        CronError::InvalidTime
        | CronError::EmptyPattern
        | CronError::TimeSearchLimitExceeded
        | CronError::InvalidPattern(_)
        | CronError::IllegalCharacters(_)
        | CronError::ComponentError(_)
        | CronError::OutOfMemory => Refusal::InvalidTime,
    }
}

// What a refusal is.
fn next_of_refusal(refusal: CronError) -> Result<Next, AllocError>
    ensures { result ≡ next_of_refusal refusal }
{
    match refusal {
        CronError::TimeSearchLimitExceeded => Ok(Next::Over),
        CronError::OutOfMemory => Err(AllocError),
        error => Ok(Next::Stopped(Stop::Refused(refusal_of(error)))),
    }
}
