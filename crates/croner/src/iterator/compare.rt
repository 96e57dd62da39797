//! Equality, order and hash of iterators, if the type of their times has them: by the pattern, the position, whether
//! that is still the start, whether the start counts, and the direction. The kept fault has no part in them.

use super::CronIterator;
use std::cmp::Ordering;
use std::hash::{Hash, Hasher};

impl<T> CronIterator<T> {
    ghost use Rattle.std.specs.Prelude.{◌≡◌};
    ghost use Rattle.croner.specs.iterator.IteratorOrder.{marks_cmp};

    // By whether the position is still the start, whether the start counts, and the direction.
    fn cmp_marks(&self, other: &CronIterator<T>) -> Ordering
        ensures { result ≡ marks_cmp self.now other.now }
    {
        self.is_first
            .cmp(&other.is_first)
            .then(self.inclusive.cmp(&other.inclusive))
            .then(self.direction.cmp(&other.direction))
    }
}

impl<T: PartialEq> PartialEq for CronIterator<T> {
    ghost use Rattle.croner.specs.iterator.IteratorOrder.{iterator_eq, iterator_eq_per};

    ghost eq = { iterator_eq T.eq };

    ghost laws = { iterator_eq_per T.laws };

    fn eq(&self, other: &CronIterator<T>) -> bool {
        self.cron == other.cron && self.position == other.position && self.cmp_marks(other).is_eq()
    }
}

impl<T: Eq> Eq for CronIterator<T> {
    ghost use Rattle.croner.specs.iterator.IteratorOrder.{iterator_eq_equiv};

    ghost laws = { iterator_eq_equiv T.Eq.laws };
}

impl<T: PartialOrd> PartialOrd for CronIterator<T> {
    ghost use Rattle.croner.specs.iterator.IteratorOrder.{iterator_cmp, iterator_po};

    ghost partial_cmp = { iterator_cmp T.partial_cmp };

    ghost laws = { iterator_po T.PartialOrd.laws };

    fn partial_cmp(&self, other: &CronIterator<T>) -> Option<Ordering> {
        match self.cron.cmp(&other.cron) {
            Ordering::Equal => match self.position.partial_cmp(&other.position) {
                Some(Ordering::Equal) => Some(self.cmp_marks(other)),
                unequal => unequal,
            },
            unequal => Some(unequal),
        }
    }
}

impl<T: Hash> Hash for CronIterator<T> {
    ghost use Rattle.croner.specs.iterator.IteratorOrder.{iterator_writes, iterators_alike};

    ghost hash_input = { iterator_writes T.hash_input };

    ghost respects_eq = { iterators_alike T.respects_eq };

    fn hash<H: Hasher>(&self, state: &mut H) {
        self.cron.hash(state);
        self.position.hash(state);
        self.is_first.hash(state);
        self.inclusive.hash(state);
        self.direction.hash(state);
    }
}
