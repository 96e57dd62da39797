//! What recurs in time, as a pattern does: the trait through which a scheduler uses its jobs.
ghost use Rattle.std.specs.Prelude.{ℤ, IfOk, IfErr};
ghost use Rattle.croner_base.specs.declared.time.Direction.{Direction};

use crate::Cron;
use croner_base::errors::CronError;
use croner_base::time::{Clocked, Direction};

/// Something that has runs in each zone, and finds them on clocks of the type `T`. A [`Cron`] is one on every clock. An enum of your
/// own can be one too, on the clocks on which all its variants are.
///
/// An implementation states once which runs it has, and its two searches have to agree with that. In a calm zone
/// ([`CronDateTime`](crate::CronDateTime) says when a zone is calm) and from a whole second an answer is the nearest
/// run that counts. In every zone it is a whole second in the start's zone. A search changes nothing. Its errors are
///
/// - `TimeSearchLimitExceeded`: in a calm zone and from a whole second no run that counts is left in the searched
///   years ([`Cron::find_next_occurrence`] says which these are).
/// - `InvalidDate` or `InvalidTime`, by the backend: it doesn't hold a moment that the search needs, and a run may
///   be left. Neither occurs in a calm zone from a whole second if the years 0 to 5001 and two days around the start
///   are held.
/// - `OutOfMemory`, only over a backend that can lack memory.
pub trait Recurring<T: Clocked> {
    ghost use Rattle.croner_base.specs.Zone.{Zone};
    ghost use Rattle.croner.specs.Recurring.{IsRunFound, IsRunRefused};

    /// The instants of a zone at which it runs.
    ghost runs: { Self → Zone → ℤ → Type 0 };

    /// The first run after a time.
    ///
    /// ```
    /// let job = Cron::from_str(alloc, "30 9 * * *")?;
    /// let run = DateTime::new(2024, 7, 1, 9, 30, 0, 0)?;
    /// let next = job.next_after(&run)?; // 2024-07-02T09:30:00
    /// ```
    fn next_after(&self, after: &T) -> Result<T, CronError>
        ensures found { IfOk result (λ t. IsRunFound Direction.Forward (runs self.now) (T.moment after.now) (T.moment t)) }
        ensures refused { IfErr result (IsRunRefused T.can_lack_memory Direction.Forward (runs self.now) (T.moment after.now)) };

    /// The last run up to and including a time.
    ///
    /// ```
    /// let job = Cron::from_str(alloc, "30 9 * * *")?;
    /// let run = DateTime::new(2024, 7, 1, 9, 30, 0, 0)?;
    /// let last = job.last_until(&run)?; // 2024-07-01T09:30:00
    /// ```
    fn last_until(&self, until: &T) -> Result<T, CronError>
        ensures found { IfOk result (λ t. IsRunFound Direction.Backward (runs self.now) (T.moment until.now) (T.moment t)) }
        ensures refused { IfErr result (IsRunRefused T.can_lack_memory Direction.Backward (runs self.now) (T.moment until.now)) };
}

impl<T: Clocked> Recurring<T> for Cron {
    ghost use Rattle.croner.specs.Recurring.{runs_of};
    ghost use Rattle.croner.specs.Views.{job_of};

    ghost runs = { λ cron. runs_of (job_of cron) };

    fn next_after(&self, after: &T) -> Result<T, CronError> {
        self.find_next_occurrence(after, false)
    }

    fn last_until(&self, until: &T) -> Result<T, CronError> {
        self.find_previous_occurrence(until, true)
    }
}
