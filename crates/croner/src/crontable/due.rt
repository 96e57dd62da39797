//! A run of one of a table's jobs that is ahead of an iterator, and the order of such runs.

use croner_base::time::{CronDateTime, Direction};
use std::cmp::Ordering;

/// The run that a search in a direction found for the job at a place.
#[derive(Debug, Drop)]
pub(super) struct Due<T> {
    pub(super) run: T,
    pub(super) place: usize,
    pub(super) direction: Direction,
}

impl<T: CronDateTime> PartialEq for Due<T> {
    ghost use Rattle.std.specs.Ordering.{eq_by_cmp};
    ghost use Rattle.std.specs.Cmp.{partial_equiv_from_equiv, eq_by_cmp_equiv};
    ghost use Rattle.croner.specs.Private.crontable.Dues.{due_cmp, due_cmp_total};

    ghost eq = { eq_by_cmp (due_cmp T.moment) };

    ghost laws = { partial_equiv_from_equiv (eq_by_cmp_equiv (due_cmp_total T.moment)) };

    fn eq(&self, other: &Due<T>) -> bool {
        self.cmp(other).is_eq()
    }
}

impl<T: CronDateTime> Eq for Due<T> {
    ghost use Rattle.std.specs.Cmp.{eq_by_cmp_equiv};
    ghost use Rattle.croner.specs.Private.crontable.Dues.{due_cmp_total};

    ghost laws = { eq_by_cmp_equiv (due_cmp_total T.moment) };
}

impl<T: CronDateTime> PartialOrd for Due<T> {
    ghost use Rattle.std.specs.Cmp.{partial_order_from_total};
    ghost use Rattle.std.specs.Ordering.{as_partial_cmp};
    ghost use Rattle.croner.specs.Private.crontable.Dues.{due_cmp, due_cmp_total};

    ghost partial_cmp = { as_partial_cmp (due_cmp T.moment) };

    ghost laws = { partial_order_from_total (due_cmp_total T.moment) };

    fn partial_cmp(&self, other: &Due<T>) -> Option<Ordering> {
        Some(self.cmp(other))
    }
}

/// The nearer run in the direction is the greater; of two at one instant, that of the lower place.
impl<T: CronDateTime> Ord for Due<T> {
    ghost use Rattle.std.proofs.Common.{rules};
    ghost use Rattle.std.specs.Cmp.Rules.{comparing};
    ghost use Rattle.croner.specs.Private.crontable.Dues.{due_cmp, due_cmp_total};

    ghost cmp = { due_cmp T.moment };

    ghost total = { due_cmp_total T.moment };

    ghost matches_partial_cmp = { Prim.search (comparing, rules) };

    ghost matches_eq = { Prim.search (comparing, rules) };

    fn cmp(&self, other: &Due<T>) -> Ordering {
        let order = match (self.direction, other.direction) {
            (Direction::Forward, Direction::Forward) => other.run.cmp_instant(&self.run),
            (Direction::Backward, Direction::Backward) => self.run.cmp_instant(&other.run),
            (Direction::Forward, Direction::Backward) => Ordering::Less,
            (Direction::Backward, Direction::Forward) => Ordering::Greater,
        };
        order.then(other.place.cmp(&self.place))
    }
}
