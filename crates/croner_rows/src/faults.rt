//! Why a question has no answer of its own.

use crate::Result;
use crate::shown::refusal;
use croner::errors::CronError;
use std::alloc::{AllocError, AllocFailed};
use std::process::ExitCode;
use std::{fmt, io};

/// Why a question has no answer of its own.
#[derive(Drop)]
pub enum Fault {
    /// The library refuses the question; the refusal is the answer.
    Refused(CronError),
    /// The question lacks a member that its operation needs, or has one of another form.
    Malformed,
    /// The operation is not known.
    Unsupported,
    /// Reading or writing failed.
    Failed(io::Error),
    /// Two passes over the same calls gave different answers.
    Differing(&'static str),
    OutOfMemory,
}

impl fmt::Display for Fault {
    fn fmt<W: fmt::Write>(&self, f: &mut fmt::Formatter<W>) -> fmt::Result {
        match self {
            Fault::Refused(error) => {
                let name = refusal(error);
                write!(f, "refused before the calls: {name}")
            }
            Fault::Malformed => write!(f, "a question of another form"),
            Fault::Unsupported => write!(f, "an operation that is not known"),
            Fault::Failed(error) => write!(f, "{error}"),
            Fault::Differing(calls) => write!(f, "two answers of {calls}"),
            Fault::OutOfMemory => write!(f, "Out of memory."),
        }
    }
}

impl From<CronError> for Fault {
    fn from(error: CronError) -> Fault {
        match error {
            CronError::OutOfMemory => Fault::OutOfMemory,
            refused => Fault::Refused(refused),
        }
    }
}

impl From<io::Error> for Fault {
    fn from(error: io::Error) -> Fault {
        match error.kind() {
            io::ErrorKind::OutOfMemory => Fault::OutOfMemory,
            _ => Fault::Failed(error),
        }
    }
}

impl From<jiff::Error> for Fault {
    fn from(error: jiff::Error) -> Fault {
        match error {
            jiff::Error::OutOfMemory => Fault::OutOfMemory,
            _ => Fault::Malformed,
        }
    }
}

impl From<AllocError> for Fault {
    fn from(_error: AllocError) -> Fault {
        Fault::OutOfMemory
    }
}

impl<T: Drop> From<AllocFailed<T>> for Fault {
    fn from(_error: AllocFailed<T>) -> Fault {
        Fault::OutOfMemory
    }
}

/// The status of a tool: success if it came to its end and all was well. What ended it earlier is written to standard error.
pub fn status(rt: &HostRuntime, ended: Result<bool>) -> io::Result<ExitCode> {
    match ended {
        Ok(true) => Ok(ExitCode::SUCCESS),
        Ok(false) => Ok(ExitCode::FAILURE),
        Err(Fault::Failed(error)) => Err(error),
        Err(fault) => {
            eprintln!(rt; "{fault}")?;
            Ok(ExitCode::FAILURE)
        }
    }
}
