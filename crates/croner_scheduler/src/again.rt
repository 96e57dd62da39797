//! The result of searching a job again.

/// The result of searching a job again ([`Scheduler::ask_again`](crate::Scheduler::ask_again)).
#[derive(Debug, Clone, Copy, PartialEq, Eq)]
pub enum Again {
    /// It was stopped, and no longer is.
    GoesOn,
    /// It was stopped and still is, maybe for another reason.
    StillStopped,
    /// No job that a search stopped has the id: there is no such job, or it goes on, or it is paused.
    NotStopped,
}
