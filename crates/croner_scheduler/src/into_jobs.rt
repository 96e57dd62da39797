//! The jobs of a scheduler, handed over.
ghost use Rattle.std.specs.Iterator.{at_most};
ghost use Rattle.std.specs.Map.Iter.{TakesFirst};
ghost use Rattle.std.specs.Prelude.{length};

use crate::ids::IdsIntoIter;
use crate::waiting::Waiting;
use std::alloc::Global;
use std::iter::FusedIterator;
use std::marker::Model;
use std::vec;

/// The jobs of a scheduler with their positions, by their ids, in the order of the ids
/// ([`Scheduler::into_jobs`](crate::Scheduler::into_jobs)).
#[derive(Drop)]
pub struct IntoJobs<J, T> {
    pub(crate) ids: IdsIntoIter,
    pub(crate) places: vec::IntoIter<Option<Waiting<J, T>>, Global>,
}

/// The ids that are left, each with its job and position.
impl<J, T> Model for IntoJobs<J, T> {
    ghost use Rattle.std.specs.Prelude.{List, ℕ, map};
    ghost use Rattle.std.specs.Vec.Iter.{into_iter_items};
    ghost use Rattle.croner_scheduler.specs.Ids.{parts_entry};
    ghost use Rattle.croner_scheduler.specs.Private.Places.{entries_in};

    ghost Value = { List (ℕ × (J × T)) };

    ghost view = { λ a. map parts_entry (entries_in a.ids (into_iter_items a.places)) };
}

impl<J: Drop, T: Drop> Iterator for IntoJobs<J, T> {
    type Item = (u64, (J, T));

    ghost next_gives = { TakesFirst (λ item. item) };

    ghost remaining = { λ s. at_most (length s) };

    fn next(&mut self) -> Option<(u64, (J, T))> {
        while let Some(id) = self.ids.next() {
            let place = self.places.next()?;
            if let Some(waiting) = place {
                return Some((id, waiting.into_parts()));
            }
        }
        None
    }
}

impl<J: Drop, T: Drop> FusedIterator for IntoJobs<J, T> {}
