//! A job with what stands beside it.
use croner::errors::CronError;
use croner::{Clocked, Recurring};

/// A job with a name, or with whatever else its user keeps with it. It runs when the job does.
///
/// ```
/// let backup = Named { name: "backup", job: Cron::from_str(alloc, "0 0 * * *")? };
/// ```
#[derive(Drop)]
pub struct Named<K, J> {
    /// What the job is called, or any other value.
    pub name: K,
    /// The job.
    pub job: J,
}

impl<K, J: Recurring<T>, T: Clocked> Recurring<T> for Named<K, J> {
    ghost runs = { λ named. J.runs named.job };

    fn next_after(&self, after: &T) -> Result<T, CronError> {
        self.job.next_after(after)
    }

    fn last_until(&self, until: &T) -> Result<T, CronError> {
        self.job.last_until(until)
    }
}
