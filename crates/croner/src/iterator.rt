//! Iterators over the runs of a pattern.
ghost use Rattle.std.specs.Prelude.{◌≡◌, true, None, IsTrue};
ghost use Rattle.croner_base.specs.declared.time.Direction.{Direction};
ghost use Rattle.croner_pattern.specs.Meaning.{meaning_of};
ghost use Rattle.croner.specs.iterator.Faults.{is_kept, fault_of};

mod compare;

use crate::Cron;
use croner_base::errors::CronError;
use croner_base::time::{CronDateTime, Direction};
use std::alloc::AllocError;

/// The runs of a pattern from a start, in one direction.
///
/// Each item is the position from which the next search starts. A call of `next` without an item leaves the iterator where it is,
/// so a later call can go on; `fault` then says why, unless the searched years have ended.
///
/// In a calm zone ([`CronDateTime`] says when a zone is calm) and from a whole second the items are the runs in order, each
/// once, with none left out between them, over any backend. No item and no fault then means that no run is left in the searched
/// years ([`Cron::find_next_occurrence`] says which these are).
#[derive(Debug, Drop)]
pub struct CronIterator<T> {
    cron: Cron,
    position: T,
    is_first: bool,
    inclusive: bool,
    direction: Direction,
    fault: Option<CronError>,
    ghost kept: { IsTrue (is_kept fault) },
}

impl<T: CronDateTime> CronIterator<T> {
    ghost use Rattle.std.specs.Prelude.{IfSome, IfNone, IfErr, Some, option_map};
    ghost use Rattle.croner.specs.iterator.Listing.{standing_of, new_standing, counts_position, moved, Settles};
    ghost use Rattle.croner.specs.search.Refusal.{IsRefusal};

    /// An iterator from a start. The start itself counts as in a search: only if `inclusive` is true. A forward iterator doesn't
    /// count it even then if the run there is only carried to it across a gap. The iterator keeps the job and the start as they
    /// are: this takes no memory, and no search is made before the first call of `next`.
    ///
    /// ```
    /// let job = Cron::from_str(alloc, "0 0 1 * *")?;
    /// let start = DateTime::new(2024, 7, 1, 0, 0, 0, 0)?;
    /// let mut runs = CronIterator::new(job, start, true, Direction::Forward);
    /// let first = runs.next(); // 2024-07-01T00:00:00
    /// let second = runs.next(); // 2024-08-01T00:00:00
    /// ```
    pub fn new(cron: Cron, start: T, inclusive: bool, direction: Direction) -> Self
        ensures { standing_of T.moment result ≡ new_standing (meaning_of cron.pattern) (T.moment start) inclusive direction }
    {
        CronIterator {
            cron,
            position: start,
            is_first: true,
            inclusive,
            direction,
            fault: None,
        }
    }

    /// The error, other than `TimeSearchLimitExceeded`, that ended the last call of `next`. `None` where that call gave an item
    /// or ended in `TimeSearchLimitExceeded`, and before the first call.
    ///
    /// ```
    /// let job = Cron::from_str(alloc, "0 0 0 1 1 * 2024")?;
    /// let mut runs = job.iter_after(DateTime::new(2024, 1, 1, 0, 0, 0, 0)?)?;
    /// let none = runs.next(); // None: no run is left
    /// let fault = runs.fault(); // None
    /// ```
    pub fn fault(&self) -> Option<&CronError>
        ensures { option_map (λ e. e.now) result ≡ (standing_of T.moment self.now).fault }
    {
        self.fault.as_ref()
    }

    // The direction in which it goes.
    pub(crate) fn direction(&self) -> Direction
        ensures { result ≡ (standing_of T.moment self.now).direction }
    {
        self.direction
    }

    // Whether the next search counts the position.
    fn counts_position(&self) -> bool
        ensures { result ≡ counts_position (standing_of T.moment self.now) }
    {
        self.is_first && self.inclusive
    }

    // Makes the run that was found the position, and returns it; or keeps the lack of memory for its copy as the fault.
    fn step_to(&mut self, found: T) -> Option<T>
        ensures item { IfSome result (λ item. T.moment item ≡ T.moment found) }
        ensures moved { IfSome result
            (λ item. standing_of T.moment self.new ≡ moved (standing_of T.moment self.old) (T.moment item)) }
        ensures kept { IfNone result
            (standing_of T.moment self.new ≡ record (standing_of T.moment self.old) { fault = Some CronError.OutOfMemory }) }
        ensures memory { IfNone result (IsTrue T.can_lack_memory) }
    {
        match found.clone() {
            Ok(item) => {
                self.position = found;
                self.is_first = false;
                self.fault = None;
                Some(item)
            }
            Err(_) => {
                self.fault = Some(CronError::OutOfMemory);
                None
            }
        }
    }

    // What a call gives once its search has answered; also sets the iterator's position.
    fn settle(&mut self, answer: Result<T, CronError>) -> Option<T>
        requires { IfErr answer (IsRefusal T.can_lack_memory) }
        ensures { Settles T.moment T.can_lack_memory (standing_of T.moment self.old) answer result (standing_of T.moment self.new) }
    {
        match answer {
            Ok(found) => self.step_to(found),
            Err(refusal) => {
                self.fault = fault_of(refusal);
                None
            }
        }
    }
}

// The error that a call without an item keeps: none for the limit, else the very error of its search.
pub(crate) fn fault_of(refusal: CronError) -> Option<CronError>
    ensures { result ≡ fault_of refusal }
{
    match refusal {
        CronError::TimeSearchLimitExceeded => None,
        kept => Some(kept),
    }
}

// A copy of a fault, which has no message: it takes no memory.
pub(crate) fn copy_of_fault(fault: &Option<CronError>) -> Option<CronError>
    requires { IsTrue (is_kept fault.now) }
    ensures { result ≡ fault.now }
{
    match fault {
        Some(CronError::InvalidDate) => Some(CronError::InvalidDate),
        Some(CronError::InvalidTime) => Some(CronError::InvalidTime),
        Some(CronError::OutOfMemory) => Some(CronError::OutOfMemory),
        _ => None,
    }
}

/// A copy has the same position, and gives the same runs from there. The only error is lack of memory.
impl<T: CronDateTime> Clone for CronIterator<T> {
    ghost use Rattle.croner.specs.iterator.Listing.{standing_of};

    ghost is_clone = { λ original copy. standing_of T.moment copy ≡ standing_of T.moment original };

    fn clone(&self) -> Result<CronIterator<T>, AllocError> {
        Ok(CronIterator {
            cron: self.cron.clone()?,
            position: self.position.clone()?,
            is_first: self.is_first,
            inclusive: self.inclusive,
            direction: self.direction,
            fault: copy_of_fault(&self.fault),
        })
    }
}

impl<T: CronDateTime> Iterator for CronIterator<T> {
    type Item = T;

    ghost use Rattle.croner.specs.iterator.Listing.{Steps};

    ghost next_gives = { Steps T.moment T.can_lack_memory };

    #[tactic(auto, using(crate::proofs::iterator::Iterating::settles))]
    fn next(&mut self) -> Option<T> {
        let inclusive = self.counts_position();
        let answer = self
            .cron
            .find_occurrence(&self.position, inclusive, self.direction);
        self.settle(answer)
    }
}
