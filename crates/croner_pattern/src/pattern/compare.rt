//! Equality, order and hash of patterns: by the seven fields from the seconds on, then by the three flags. The text has no
//! part in them.

use super::CronPattern;
use std::cmp::Ordering;
use std::hash::{Hash, Hasher};

impl PartialEq for CronPattern {
    ghost use Rattle.std.specs.Ordering.{eq_by_cmp};
    ghost use Rattle.std.specs.Cmp as Cmp;
    ghost use Rattle.std.specs.Cmp.{eq_by_cmp_equiv};
    ghost use Rattle.croner_pattern.specs.Order.{pattern_cmp, pattern_cmp_total};

    ghost eq = { eq_by_cmp pattern_cmp };

    ghost laws = { Cmp.partial_equiv_from_equiv (eq_by_cmp_equiv pattern_cmp_total) };

    fn eq(&self, other: &CronPattern) -> bool {
        self.cmp(other).is_eq()
    }
}

impl Eq for CronPattern {
    ghost use Rattle.std.specs.Cmp.{eq_by_cmp_equiv};
    ghost use Rattle.croner_pattern.specs.Order.{pattern_cmp_total};

    ghost laws = { eq_by_cmp_equiv pattern_cmp_total };
}

impl PartialOrd for CronPattern {
    ghost use Rattle.std.specs.Cmp.{partial_order_from_total};
    ghost use Rattle.std.specs.Ordering.{as_partial_cmp};
    ghost use Rattle.croner_pattern.specs.Order.{pattern_cmp, pattern_cmp_total};

    ghost partial_cmp = { as_partial_cmp pattern_cmp };

    ghost laws = { partial_order_from_total pattern_cmp_total };

    fn partial_cmp(&self, other: &CronPattern) -> Option<Ordering> {
        Some(self.cmp(other))
    }
}

impl Ord for CronPattern {
    ghost use Rattle.std.proofs.Common.{rules};
    ghost use Rattle.std.specs.Cmp.Rules.{comparing};
    ghost use Rattle.croner_pattern.specs.Order.{pattern_cmp, pattern_cmp_total};

    ghost cmp = { pattern_cmp };

    ghost total = { pattern_cmp_total };

    ghost matches_partial_cmp = { Prim.search (comparing, rules) };

    ghost matches_eq = { Prim.search (comparing, rules) };

    fn cmp(&self, other: &CronPattern) -> Ordering {
        self.seconds
            .cmp(&other.seconds)
            .then(self.minutes.cmp(&other.minutes))
            .then(self.hours.cmp(&other.hours))
            .then(self.days.cmp(&other.days))
            .then(self.months.cmp(&other.months))
            .then(self.days_of_week.cmp(&other.days_of_week))
            .then(self.years.cmp(&other.years))
            .then(self.star_day.cmp(&other.star_day))
            .then(self.star_weekday.cmp(&other.star_weekday))
            .then(self.day_and_weekday.cmp(&other.day_and_weekday))
    }
}

impl Hash for CronPattern {
    ghost use Rattle.croner_pattern.specs.Written.{pattern_writes, patterns_alike};

    ghost hash_input = { pattern_writes };

    ghost respects_eq = { patterns_alike };

    fn hash<H: Hasher>(&self, state: &mut H) {
        self.seconds.hash(state);
        self.minutes.hash(state);
        self.hours.hash(state);
        self.days.hash(state);
        self.months.hash(state);
        self.days_of_week.hash(state);
        self.years.hash(state);
        self.star_day.hash(state);
        self.star_weekday.hash(state);
        self.day_and_weekday.hash(state);
    }
}
