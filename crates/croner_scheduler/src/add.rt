//! The results of adding a job, or of putting a job in another's place.

ghost use Rattle.std.specs.Prelude.{◌≡◌};
ghost use Rattle.croner_scheduler.specs.Calls.{IsHandedBack};
ghost use Rattle.croner_scheduler.specs.declared.add.AddError.TheVariants.{OutOfMemory};

use crate::waiting::Waiting;
use croner::Clocked;
use std::error::Error;
use std::fmt;

/// Why a job isn't added, or put in another's place.
#[derive(Debug, Drop)]
pub enum AddError {
    /// An allocation failed.
    OutOfMemory,
    /// No id is left: the next one would be 18446744073709551615 (2^64 - 1), which is never given.
    NoIdLeft,
    /// The job's zone doesn't hold the second before the start (only from [`Scheduler::add_from`](crate::Scheduler::add_from)).
    SecondBeforeNotHeld,
    /// No job has the id (only from [`Scheduler::replace`](crate::Scheduler::replace) and
    /// [`Scheduler::replace_job`](crate::Scheduler::replace_job)).
    NoJob,
}

/// A job that was added.
#[derive(Debug, Clone, Copy, PartialEq, Eq)]
pub struct Added {
    /// Its id.
    pub id: u64,
    /// Whether it is stopped.
    pub is_stopped: bool,
}

/// The job that was replaced.
#[derive(Drop)]
pub struct Replaced<J, T> {
    /// The job.
    pub job: J,
    /// Its position.
    pub position: T,
    /// Whether the new job is stopped.
    pub is_stopped: bool,
}

/// A job that wasn't added or put in another's place, handed back unchanged.
#[derive(Drop)]
pub struct NotAdded<J, T> {
    /// The job.
    pub job: J,
    /// The position that it was given.
    pub position: T,
    /// The reason.
    pub error: AddError,
}

/// A job that wasn't put in another's place, handed back unchanged ([`Scheduler::replace_job`](crate::Scheduler::replace_job)).
#[derive(Drop)]
pub struct NotReplaced<J> {
    /// The job.
    pub job: J,
    /// The reason.
    pub error: AddError,
}

/// A sentence for a person.
impl fmt::Display for AddError {
    ghost use Rattle.std.specs.Prelude.{Some};
    ghost use Rattle.croner_scheduler.specs.Messages.{text_of};

    ghost output = { λ e. Some (text_of e) };

    fn fmt<W: fmt::Write>(&self, f: &mut fmt::Formatter<W>) -> fmt::Result {
        match self {
            AddError::OutOfMemory => write!(f, "Out of memory."),
            AddError::NoIdLeft => write!(f, "No id is left for another job."),
            AddError::SecondBeforeNotHeld => write!(f, "The second before the start isn't held."),
            AddError::NoJob => write!(f, "No job has the id."),
        }
    }
}

impl Error for AddError {}

// A job that isn't added or put in another's place.
pub(crate) fn not_added<J, T>(job: J, position: T, error: AddError) -> NotAdded<J, T>
    ensures handed_back { IsHandedBack job position result }
    ensures error { result.error ≡ error }
{
    NotAdded {
        job,
        position,
        error,
    }
}

// A job that isn't added for lack of memory, with the position that it was given.
pub(crate) fn not_added_for_memory<J, T: Drop>(
    waiting: Waiting<J, T>,
    position: T,
) -> NotAdded<J, T>
    ensures handed_back { IsHandedBack waiting.job position result }
    ensures error { result.error ≡ OutOfMemory }
{
    let (job, _) = waiting.into_parts();
    not_added(job, position, AddError::OutOfMemory)
}

// A job that isn't put in another's place.
pub(crate) fn not_replaced<J>(job: J, error: AddError) -> NotReplaced<J>
    ensures handed_back { result.job ≡ job }
    ensures error { result.error ≡ error }
{
    NotReplaced { job, error }
}

// A job that isn't put in another's place for lack of memory.
pub(crate) fn not_replaced_for_memory<J, T: Drop>(waiting: Waiting<J, T>) -> NotReplaced<J>
    ensures handed_back { result.job ≡ waiting.job }
    ensures error { result.error ≡ OutOfMemory }
{
    let (job, _) = waiting.into_parts();
    not_replaced(job, AddError::OutOfMemory)
}

/// The sentence of its error.
impl<J, T> fmt::Display for NotAdded<J, T> {
    ghost use Rattle.std.specs.Prelude.{Some};
    ghost use Rattle.croner_scheduler.specs.Messages.{text_of};

    ghost output = { λ e. Some (text_of e.error) };

    fn fmt<W: fmt::Write>(&self, f: &mut fmt::Formatter<W>) -> fmt::Result {
        write!(f, "{}", self.error)
    }
}

/// That of its error.
impl<J, T> fmt::Debug for NotAdded<J, T> {
    fn fmt<W: fmt::Write>(&self, f: &mut fmt::Formatter<W>) -> fmt::Result {
        write!(f, "{:?}", self.error)
    }
}

impl<J: Drop, T: Clocked> Error for NotAdded<J, T> {}

/// Why it wasn't added.
impl<J: Drop, T: Clocked> From<NotAdded<J, T>> for AddError {
    ghost use Rattle.std.specs.Prelude.{◌≡◌};

    ghost from_gives = { λ refused e. e ≡ refused.error };

    fn from(refused: NotAdded<J, T>) -> AddError {
        refused.error
    }
}

/// The sentence of its error.
impl<J> fmt::Display for NotReplaced<J> {
    ghost use Rattle.std.specs.Prelude.{Some};
    ghost use Rattle.croner_scheduler.specs.Messages.{text_of};

    ghost output = { λ e. Some (text_of e.error) };

    fn fmt<W: fmt::Write>(&self, f: &mut fmt::Formatter<W>) -> fmt::Result {
        write!(f, "{}", self.error)
    }
}

/// That of its error.
impl<J> fmt::Debug for NotReplaced<J> {
    fn fmt<W: fmt::Write>(&self, f: &mut fmt::Formatter<W>) -> fmt::Result {
        write!(f, "{:?}", self.error)
    }
}

impl<J: Drop> Error for NotReplaced<J> {}

/// Why it wasn't put there.
impl<J: Drop> From<NotReplaced<J>> for AddError {
    ghost use Rattle.std.specs.Prelude.{◌≡◌};

    ghost from_gives = { λ refused e. e ≡ refused.error };

    fn from(refused: NotReplaced<J>) -> AddError {
        refused.error
    }
}
