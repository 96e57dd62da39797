//! The status of a call.
ghost use Rattle.std.specs.Prelude.{◌≡◌};
ghost use Rattle.croner_c.specs.Status as Spec;
ghost use Rattle.croner_c.specs.declared.status.Reason.TheVariants as reasons;

use croner_base::errors::CronError;
use std::alloc::AllocError;

/// The status of a call that gives an answer.
pub(crate) const OK: i32 = 0;

/// Why a call gives no answer.
#[derive(Debug, Clone, Copy, Drop)]
pub enum Reason {
    /// The text is no pattern, or the line is none that cron accepts.
    Refused,
    /// No run is left in the searched years.
    Limit,
    /// An allocation failed.
    OutOfMemory,
    /// The start, or the run, lies outside the clock's window.
    Outside,
    /// The clock isn't calm.
    NotCalm,
    /// The bytes are no time zone file, or the text is no POSIX rule.
    BadZone,
    /// There are more changes than room for them.
    TooSmall,
    /// An argument has a value that the function doesn't accept.
    BadArgument,
}

impl Reason {
    /// The status of a call without an answer.
    pub(crate) fn status(self) -> i32
        ensures { result ≡ Spec.status_of self }
    {
        match self {
            Reason::Refused => 1,
            Reason::Limit => 2,
            Reason::OutOfMemory => 3,
            Reason::Outside => 4,
            Reason::NotCalm => 5,
            Reason::BadZone => 6,
            Reason::TooSmall => 7,
            Reason::BadArgument => 8,
        }
    }
}

/// The reason of a search that is refused.
pub(crate) fn limit_of(_error: CronError) -> Reason
    ensures { result ≡ reasons.Limit }
{
    Reason::Limit
}

/// The reason of a call whose only error is lack of memory.
pub(crate) fn memory_of(_error: CronError) -> Reason
    ensures { result ≡ reasons.OutOfMemory }
{
    Reason::OutOfMemory
}

/// Lack of memory.
impl From<AllocError> for Reason {
    ghost from_gives = { λ _ reason. reason ≡ reasons.OutOfMemory };

    fn from(_error: AllocError) -> Reason {
        Reason::OutOfMemory
    }
}
