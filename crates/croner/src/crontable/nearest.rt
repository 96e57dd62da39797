//! The nearest of the answers that the searches of a table's jobs give in turn.
ghost use Rattle.std.specs.Prelude.{◌≡◌, Some, ◌<◌, ◌≤◌, ◌+◌, IfOk, IfErr, vec_len, vec_capacity};

use crate::search::fold::is_in_span;
use croner_base::errors::CronError;
use croner_base::time::{CronDateTime, Direction};
use std::alloc::Global;
use std::cmp::Ordering;

/// The answers so far: the nearest run, the places whose searches gave it, and whether one reached the limit.
#[derive(Drop)]
pub(super) struct Met<T> {
    nearest: Option<T>,
    places: Vec<usize>,
    is_limited: bool,
}

impl<T> Met<T> {
    ghost use Rattle.croner.specs.Private.crontable.Met.{met_of, new_met};

    /// No answer yet, with room for so many places; the only error is `OutOfMemory`.
    pub(super) fn new(alloc: Global, places: usize) -> Result<Met<T>, CronError>
        ensures ok { IfOk result (λ met. met_of met ≡ new_met) }
        ensures empty { IfOk result (λ met. vec_len met.places ≡ 0) }
        ensures room { IfOk result (λ met. places ≤ vec_capacity met.places) }
        ensures err { IfErr result (λ e. e ≡ CronError.OutOfMemory) }
    {
        let places = Vec::with_capacity(alloc, places)?;
        Ok(Met {
            nearest: None,
            places,
            is_limited: false,
        })
    }

    /// A run, with the places of all jobs that run then.
    pub(super) fn of_run(run: T, places: Vec<usize>, is_limited: bool) -> Met<T>
        ensures { result ≡ record { nearest = Some run; places = places; is_limited = is_limited } }
    {
        Met {
            nearest: Some(run),
            places,
            is_limited,
        }
    }
}

impl<T: CronDateTime> Met<T> {
    ghost use Rattle.croner.specs.Private.crontable.Met.{met_of, TakesIn, Decides, IsOrdered};

    // How an answer compares with the nearest one so far: `Less` if it comes before it in the direction, or is the first.
    fn order_of(&self, found: &T, direction: Direction) -> Ordering
        ensures { IsOrdered T.moment direction found.now self.now.nearest result }
    {
        let Some(nearest) = &self.nearest else {
            return Ordering::Less;
        };
        match direction {
            Direction::Forward => found.cmp_instant(nearest),
            Direction::Backward => nearest.cmp_instant(found),
        }
    }

    /// Takes the answer of the search of the job at a place. A nearer run replaces the earlier ones, an equal one adds its
    /// place, and the limit is remembered; any other error is returned at once.
    pub(super) fn take(
        &mut self,
        place: usize,
        answer: Result<T, CronError>,
        direction: Direction,
    ) -> Result<(), CronError>
        requires { vec_len self.old.places < vec_capacity self.old.places }
        ensures step { TakesIn T.moment direction place answer (met_of self.old) (met_of self.new) result }
        ensures longer { vec_len self.new.places ≤ vec_len self.old.places + 1 }
        ensures room { vec_capacity self.new.places ≡ vec_capacity self.old.places }
    {
        let found = match answer {
            Ok(found) => found,
            Err(CronError::TimeSearchLimitExceeded) => {
                self.is_limited = true;
                return Ok(());
            }
            Err(refused) => return Err(refused),
        };
        match self.order_of(&found, direction) {
            Ordering::Less => {
                self.nearest = Some(found);
                self.places.clear();
                self.places.push_reserved(place);
            }
            Ordering::Equal => self.places.push_reserved(place),
            Ordering::Greater => {}
        }
        Ok(())
    }

    /// The answer of all searches together: the nearest run with its places, or the limit. It is the limit if no job has a run,
    /// or if one search reached the limit and the nearest run is outside the span, since an unseen run might be nearer. Whether
    /// it is in the span is asked only if a search reached the limit.
    pub(super) fn decide(
        self,
        alloc: Global,
        direction: Direction,
    ) -> Result<(T, Vec<usize>), CronError>
        ensures { Decides T.moment T.can_lack_memory direction (met_of self) self.places result }
    {
        let Met {
            nearest,
            places,
            is_limited,
        } = self;
        let Some(nearest) = nearest else {
            return Err(CronError::TimeSearchLimitExceeded);
        };
        if is_limited && !is_in_span(alloc, &nearest, direction)? {
            return Err(CronError::TimeSearchLimitExceeded);
        }
        Ok((nearest, places))
    }
}
