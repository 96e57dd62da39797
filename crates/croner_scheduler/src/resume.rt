//! The result of resuming a job.

/// The result of resuming a job ([`Scheduler::resume`](crate::Scheduler::resume)).
#[derive(Debug, Clone, Copy, PartialEq, Eq)]
pub enum Resume {
    /// It was paused, and no longer is.
    GoesOn {
        /// Whether it is stopped, since its search was refused.
        is_stopped: bool,
    },
    /// The job isn't paused.
    NotPaused,
    /// No job has the id.
    NoJob,
    /// The job is paused still: its zone doesn't hold the second from which it is to go on.
    NotHeld,
}
