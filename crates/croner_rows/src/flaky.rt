//! Jobs whose first searches are refused.
ghost use Rattle.std.specs.Prelude.{◌≡◌, ◌≤ℤ◌, ◌-ℤ◌, IsTrue, false, pos};
ghost use Rattle.croner.specs.Calm.{IsNear};
ghost use Rattle.croner.specs.search.Premises.{IsSearchable};

use crate::{Job, Result, number};
use croner::errors::CronError;
use croner::{Clocked, Cron, Recurring};
use serde_json::Value;
use std::alloc::Global;
use std::cell::Cell;

/// How far a second that isn't held lies from a time at which a search may be refused.
const SECONDS_PER_DAY: i64 = 86_400;

/// A job whose first searches near an end of what its zone's backend holds are refused, as by a backend that is reachable only
/// at times. A search is near an end if the second a day before or after isn't held.
pub struct FlakyJob {
    cron: Cron,
    refusals: Cell<u32>,
}

// By hand, so that a function that drops a job calls this one: its proof doesn't go through the fields at each exit.
impl Drop for FlakyJob {
    fn drop(self) {
        let FlakyJob {
            cron: _,
            refusals: _,
        } = self;
    }
}

impl FlakyJob {
    /// The job of a question: its text, read by the parser of its settings, and how many of its searches forward are refused, its member
    /// `refusals`, or 0.
    pub fn read(alloc: Global, question: &Value) -> Result<FlakyJob> {
        let refusals = match question.get("refusals") {
            None => 0,
            Some(refusals) => number(refusals)?,
        };
        Ok(FlakyJob {
            cron: Job::read(alloc, question)?.into_cron(),
            refusals: Cell::new(refusals),
        })
    }

    /// The text of its pattern.
    pub fn as_str(&self) -> &str {
        self.cron.as_str()
    }

    // Whether one more search is refused; it counts down.
    fn refuses(&self) -> bool {
        match self.refusals.get().checked_sub(1) {
            Some(left) => {
                self.refusals.set(left);
                true
            }
            None => false,
        }
    }
}

impl<T: Clocked> Recurring<T> for FlakyJob {
    ghost use Rattle.croner.specs.Recurring.{runs_of};
    ghost use Rattle.croner.specs.Views.{job_of};

    ghost runs = { λ job. runs_of (job_of job.cron) };

    fn next_after(&self, after: &T) -> Result<T, CronError> {
        if is_near_an_end(after) && self.refuses() {
            return Err(CronError::InvalidTime);
        }
        self.cron.next_after(after)
    }

    fn last_until(&self, until: &T) -> Result<T, CronError> {
        self.cron.last_until(until)
    }
}

// Whether the second a day before or after a time isn't held.
fn is_near_an_end<T: Clocked>(time: &T) -> bool
    ensures { IsTrue result → ¬ (IsSearchable (T.moment time.now)) }
{
    is_end(time, -SECONDS_PER_DAY) || is_end(time, SECONDS_PER_DAY)
}

// Whether a second so many seconds after a time isn't held.
fn is_end<T: Clocked>(time: &T, seconds: i64) -> bool
    requires after { (pos 0 -ℤ pos 86_400) ≤ℤ seconds }
    requires before { seconds ≤ℤ pos 86_400 }
    ensures { IsTrue result → ¬ (IsSearchable (T.moment time.now)) }
{
    match time.second().checked_add(seconds) {
        Some(second) => lacks_near(time, second),
        None => false,
    }
}

// Whether a second near a time isn't held.
#[tactic(auto, using(crate::proofs::Ends::not_searchable))]
fn lacks_near<T: Clocked>(time: &T, second: i64) -> bool
    requires { IsNear (T.moment time.now).instant second }
    ensures { IsTrue result → ¬ (IsSearchable (T.moment time.now)) }
{
    lacks(time, second)
}

// Whether a second isn't held.
fn lacks<T: Clocked>(time: &T, second: i64) -> bool
    ensures { IsTrue result → (T.moment time.now).zone.holds second ≡ false }
{
    match time.at_second(second) {
        Some(_) => false,
        None => true,
    }
}
