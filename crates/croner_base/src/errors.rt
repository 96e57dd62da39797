//! The one type of error: why a pattern, a date or a search is refused.

ghost use Rattle.std.specs.Prelude.{◌≡◌};
ghost use Rattle.croner_base.specs.declared.errors.CronError.TheVariants.{OutOfMemory};

use std::alloc::{AllocError, AllocFailed};
use std::error::Error;
use std::fmt;

/// Why a pattern, a date, a time or a search is refused. A message inside names what was wrong and what was expected.
///
/// ```
/// let blank = Cron::from_str(alloc, " "); // Err(EmptyPattern)
/// let short = Cron::from_str(alloc, "0 12"); // Err(InvalidPattern): two fields
/// let sign = Cron::from_str(alloc, "0 $ * * *"); // Err(IllegalCharacters)
/// let hour = Cron::from_str(alloc, "0 25 * * *"); // Err(ComponentError): no hour is 25
/// ```
#[derive(Debug, Clone, Drop)]
pub enum CronError {
    /// The pattern is only white space.
    EmptyPattern,
    /// There is no such date, or the time library doesn't hold it.
    InvalidDate,
    /// There is no such time of day, or the time library doesn't hold it; or a table of offsets, or a second on one, is refused.
    InvalidTime,
    /// A search found no run in the searched years. In a zone that isn't calm, or from a start with a fraction of a second, it
    /// may also have given up before their end: it looks at a limited number of scheduled seconds, and no further than a day
    /// for the end of a gap or for the other half of a repeated range.
    TimeSearchLimitExceeded,
    /// The pattern has a number of fields that isn't accepted, or a JSON value that should be a pattern isn't a string.
    InvalidPattern(String),
    /// A field has a character that it can't have.
    IllegalCharacters(String),
    /// A part of a field, a value or a mark is refused.
    ComponentError(String),
    /// An allocation failed.
    OutOfMemory,
}

/// A sentence for a person, with the message where there is one.
impl fmt::Display for CronError {
    ghost use Rattle.std.specs.Prelude.{Some};
    ghost use Rattle.croner_base.specs.Refusal.{text_of};

    ghost output = { λ e. Some (text_of e) };

    fn fmt<W: fmt::Write>(&self, f: &mut fmt::Formatter<W>) -> fmt::Result {
        match self {
            CronError::EmptyPattern => write!(f, "CronPattern cannot be an empty string."),
            CronError::InvalidDate => write!(f, "CronScheduler encountered an invalid date."),
            CronError::InvalidTime => write!(f, "CronScheduler encountered an invalid time."),
            CronError::TimeSearchLimitExceeded => {
                write!(f, "CronScheduler time search limit exceeded.")
            }
            CronError::InvalidPattern(message) => write!(f, "Invalid pattern: {message}"),
            CronError::IllegalCharacters(message) => {
                write!(f, "Pattern contains illegal characters: {message}")
            }
            CronError::ComponentError(message) => write!(f, "Component error: {message}"),
            CronError::OutOfMemory => write!(f, "Out of memory."),
        }
    }
}

impl Error for CronError {}

/// Lack of memory.
impl From<AllocError> for CronError {
    ghost from_gives = { λ _ e. e ≡ OutOfMemory };

    fn from(_e: AllocError) -> CronError {
        CronError::OutOfMemory
    }
}

/// Lack of memory; what could not be stored is dropped.
impl<T: Drop> From<AllocFailed<T>> for CronError {
    ghost from_gives = { λ _ e. e ≡ OutOfMemory };

    fn from(_e: AllocFailed<T>) -> CronError {
        CronError::OutOfMemory
    }
}
