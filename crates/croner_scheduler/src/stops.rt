//! Which jobs are stopped, and why.
ghost use Rattle.std.specs.Iterator.{at_most};
ghost use Rattle.std.specs.Map.Iter.{TakesFirst};
ghost use Rattle.std.specs.Prelude.{length};
ghost use Rattle.croner_scheduler.specs.Stops.{entry_shown};

use crate::iter::Iter;
use crate::waiting::Stop;
use std::iter::FusedIterator;
use std::marker::Model;

/// The ids of the stopped jobs, in order, each with the reason ([`Scheduler::stopped`](crate::Scheduler::stopped)).
#[derive(Drop)]
pub struct Stops<'a, J, T> {
    pub(crate) jobs: Iter<'a, J, T>,
}

/// The ids and the stops that are left.
impl<'a, J, T> Model for Stops<'a, J, T> {
    ghost use Rattle.std.specs.Prelude.{List, ℕ};
    ghost use Rattle.croner_scheduler.specs.declared.waiting.Stop.{Stop};
    ghost use Rattle.croner_scheduler.specs.Stops.{stops_in};

    ghost Value = { List (ℕ × Stop) };

    ghost view = { λ a. stops_in a.jobs };
}

impl<'a, J, T> Iterator for Stops<'a, J, T> {
    type Item = (u64, &'a Stop);

    ghost next_gives = { TakesFirst entry_shown };

    ghost remaining = { λ s. at_most (length s) };

    fn next(&mut self) -> Option<(u64, &'a Stop)> {
        while let Some((id, waiting)) = self.jobs.next() {
            if let Some(stop) = waiting.stop() {
                return Some((id, stop));
            }
        }
        None
    }
}

impl<'a, J, T> FusedIterator for Stops<'a, J, T> {}
