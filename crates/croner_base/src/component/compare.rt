//! Equality, order and hash of components: by the marks from value 0 on, and then by the other parts.

ghost use Rattle.std.specs.Prelude.{◌≡◌, IsTrue};

use super::CronComponent;
use std::cmp::Ordering;
use std::hash::{Hash, Hasher};

impl CronComponent {
    // Whether all parts are the same, as those of a field and of its clone.
    fn is_same(&self, other: &CronComponent) -> bool
        ensures { IsTrue result → self.now ≡ other.now }
    {
        self.marks.is_same(&other.marks)
            && self.min == other.min
            && self.step == other.step
            && self.from_wildcard == other.from_wildcard
            && self.enabled_features == other.enabled_features
            && self.input_offset == other.input_offset
            && self.sloppy_ranges == other.sloppy_ranges
    }
}

impl PartialEq for CronComponent {
    ghost use Rattle.std.specs.Ordering.{eq_by_cmp};
    ghost use Rattle.std.specs.Cmp as Cmp;
    ghost use Rattle.std.specs.Cmp.{eq_by_cmp_equiv};
    ghost use Rattle.croner_base.specs.Order.{field_cmp, field_cmp_total};

    ghost eq = { eq_by_cmp field_cmp };

    ghost laws = { Cmp.partial_equiv_from_equiv (eq_by_cmp_equiv field_cmp_total) };

    fn eq(&self, other: &CronComponent) -> bool {
        self.cmp(other).is_eq()
    }
}

impl Eq for CronComponent {
    ghost use Rattle.std.specs.Cmp.{eq_by_cmp_equiv};
    ghost use Rattle.croner_base.specs.Order.{field_cmp_total};

    ghost laws = { eq_by_cmp_equiv field_cmp_total };
}

impl PartialOrd for CronComponent {
    ghost use Rattle.std.specs.Cmp.{partial_order_from_total};
    ghost use Rattle.std.specs.Ordering.{as_partial_cmp};
    ghost use Rattle.croner_base.specs.Order.{field_cmp, field_cmp_total};

    ghost partial_cmp = { as_partial_cmp field_cmp };

    ghost laws = { partial_order_from_total field_cmp_total };

    fn partial_cmp(&self, other: &CronComponent) -> Option<Ordering> {
        Some(self.cmp(other))
    }
}

impl Ord for CronComponent {
    ghost use Rattle.std.proofs.Common.{rules};
    ghost use Rattle.std.specs.Cmp.Rules.{comparing};
    ghost use Rattle.croner_base.specs.Order.{field_cmp, field_cmp_total};

    ghost cmp = { field_cmp };

    ghost total = { field_cmp_total };

    ghost matches_partial_cmp = { Prim.search (comparing, rules) };

    ghost matches_eq = { Prim.search (comparing, rules) };

    fn cmp(&self, other: &CronComponent) -> Ordering {
        if self.is_same(other) {
            return Ordering::Equal;
        }
        self.marks
            .cmp_marks(&other.marks)
            .then(self.min.cmp(&other.min))
            .then(self.marks.max().cmp(&other.marks.max()))
            .then(self.step.cmp(&other.step))
            .then(self.from_wildcard.cmp(&other.from_wildcard))
            .then(self.marks.features().cmp(&other.marks.features()))
            .then(self.enabled_features.cmp(&other.enabled_features))
            .then(self.input_offset.cmp(&other.input_offset))
            .then(self.sloppy_ranges.cmp(&other.sloppy_ranges))
    }
}

impl Hash for CronComponent {
    ghost use Rattle.croner_base.specs.Written.{field_writes, writes_alike};

    ghost hash_input = { field_writes };

    ghost respects_eq = { writes_alike };

    fn hash<H: Hasher>(&self, state: &mut H) {
        self.marks.hash_sets(state);
        self.min.hash(state);
        self.marks.max().hash(state);
        self.step.hash(state);
        self.from_wildcard.hash(state);
        self.marks.features().hash(state);
        self.enabled_features.hash(state);
        self.input_offset.hash(state);
        self.sloppy_ranges.hash(state);
    }
}
