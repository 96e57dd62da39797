//! The result of a skip.
ghost use Rattle.std.specs.Prelude.{◌≡◌, ◌||◌};
ghost use Rattle.croner_scheduler.specs.Private.Steps.{is_skip_stopped};

/// The result of a skip ([`Scheduler::skip_to`](crate::Scheduler::skip_to)).
#[derive(Debug, Clone, Copy, PartialEq, Eq)]
pub enum Skip {
    /// The second is the job's position from now on.
    Moved {
        /// Whether it is stopped.
        is_stopped: bool,
    },
    /// The job's position is that second already, or a later one.
    AlreadyThere,
    /// No job has the id.
    NoJob,
    /// The job's position is before that second, but the job is paused, and stays there.
    Paused,
    /// The job's position is before that second, but its zone doesn't hold it.
    NotHeld,
}

impl Skip {
    // Whether the job moved and is stopped, or one before was.
    pub(crate) fn is_stopped_or(&self, before: bool) -> bool
        ensures { result ≡ (before || is_skip_stopped self.now) }
    {
        match self {
            Skip::Moved { is_stopped } => before || *is_stopped,
            Skip::AlreadyThere | Skip::NoJob | Skip::Paused | Skip::NotHeld => before,
        }
    }
}
