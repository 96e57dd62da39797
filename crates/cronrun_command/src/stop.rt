//! Why a call stops: its answer isn't complete, or couldn't be written.
ghost use Rattle.std.specs.Prelude.{◌≡◌};
ghost use Rattle.cronrun_command.specs.Stop.{stop_of};

use croner::errors::CronError;
use std::{fmt, io};

/// Why a call stops.
#[derive(Debug, Drop)]
pub enum Stop {
    /// The pattern, the start or the search is refused.
    Refused(CronError),
    /// The answer couldn't be written to standard output.
    Unwritten(io::Error),
}

impl fmt::Display for Stop {
    ghost use Rattle.cronrun_command.specs.Stop.{stop_text};

    ghost output = { stop_text };

    fn fmt<W: fmt::Write>(&self, f: &mut fmt::Formatter<W>) -> fmt::Result {
        match self {
            Stop::Refused(error) => write!(f, "{error}"),
            Stop::Unwritten(error) => write!(f, "Cannot write the answer: {error}"),
        }
    }
}

/// Why a call stops, if it does: the refusal that ended its answer, or else the error of the writer in writing it.
pub fn stop_of(refusal: Option<CronError>, delivered: io::Result<()>) -> Option<Stop>
    ensures { result ≡ stop_of refusal delivered }
{
    match (refusal, delivered) {
        (Some(refusal), _) => Some(Stop::Refused(refusal)),
        (None, Err(error)) => Some(Stop::Unwritten(error)),
        (None, Ok(())) => None,
    }
}
