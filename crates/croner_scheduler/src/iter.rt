//! The jobs of a scheduler with their ids.
ghost use Rattle.std.specs.Iterator.{at_most};
ghost use Rattle.std.specs.Map.Iter.{TakesFirst};
ghost use Rattle.std.specs.Prelude.{length};
ghost use Rattle.croner_scheduler.specs.Ids.{entry_of};

use crate::ids::IdsIter;
use crate::waiting::Waiting;
use std::iter::FusedIterator;
use std::marker::Model;
use std::slice;

/// The jobs of a scheduler with their ids, in the order of the ids ([`Scheduler::iter`](crate::Scheduler::iter)).
#[derive(Drop)]
pub struct Iter<'a, J, T> {
    pub(crate) ids: IdsIter<'a>,
    pub(crate) places: slice::Iter<'a, Option<Waiting<J, T>>>,
}

/// The ids and the jobs that are left.
impl<'a, J, T> Model for Iter<'a, J, T> {
    ghost use Rattle.std.specs.Prelude.{List, ℕ};
    ghost use Rattle.std.specs.Slice.Iter.{iter_rest};
    ghost use Rattle.croner_scheduler.specs.declared.waiting.Waiting.{Waiting};
    ghost use Rattle.croner_scheduler.specs.Private.Places.{entries_in};

    ghost Value = { List (ℕ × Waiting J T) };

    ghost view = { λ a. entries_in a.ids (iter_rest a.places) };
}

impl<'a, J, T> Iterator for Iter<'a, J, T> {
    type Item = (u64, &'a Waiting<J, T>);

    ghost next_gives = { TakesFirst entry_of };

    ghost remaining = { λ s. at_most (length s) };

    fn next(&mut self) -> Option<(u64, &'a Waiting<J, T>)> {
        while let Some(id) = self.ids.next() {
            let place = self.places.next()?;
            if let Some(waiting) = place {
                return Some((id, waiting));
            }
        }
        None
    }
}

impl<'a, J, T> FusedIterator for Iter<'a, J, T> {}
