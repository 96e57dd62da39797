//! What a search on the wall clock reads of a pattern: its marks as machine words, its years, and how its day fields are
//! joined.

ghost use Rattle.std.specs.Prelude.{◌≡◌, ℕ, ◌<◌, ◌^◌, true, false};
ghost use Rattle.croner_base.specs.Field.{has_all, is_marked};
ghost use Rattle.croner_pattern.specs.Questions.{IsNearestMember};
ghost use Rattle.croner_pattern.specs.Schedule.{is_year_matching};
ghost use Rattle.croner_pattern.specs.Shapes.{has_field_shapes};
ghost use Rattle.croner_pattern.specs.Words.{field_at, has_bit, ShowsPlain, ShowsDays};

use super::mask::{marked_days, marked_weekdays};
use super::{CronPattern, nearest_member};
use croner_base::component::{ALL_BIT, CLOSEST_WEEKDAY_BIT, LAST_BIT, NTH_ALL};
use croner_base::time::Direction;

/// A unit of a time of day or a date whose field has values below 64.
#[derive(Clone, Copy)]
pub enum Unit {
    Second,
    Minute,
    Hour,
    Month,
}

/// A pattern, in any form, as the machine words that a search reads. Nothing here takes memory.
pub trait PatternWords {
    ghost use Rattle.croner_pattern.specs.Meaning.{Meaning};

    /// What the pattern means.
    ghost meaning: { Self → Meaning };

    /// The plain values of the field of a unit: bit v stands for the value v.
    fn plain(&self, unit: Unit) -> u64
        ensures { ShowsPlain (field_at (meaning self.now) unit) result };

    /// The plain days of the month: bit `day - 1` stands for the day.
    fn plain_days(&self) -> u32
        ensures { ShowsDays 31 (is_marked 1 (meaning self.now).days) result };

    /// The days of the month whose nearest weekday is meant, in the same places.
    fn nearest_days(&self) -> u32
        ensures { ShowsDays 31 (is_marked 128 (meaning self.now).days) result };

    /// Whether `LAST_BIT` is enabled for the days of the month.
    fn has_last_day(&self) -> bool
        ensures { result ≡ has_all (meaning self.now).days.enabled 64 };

    /// Whether `CLOSEST_WEEKDAY_BIT` is enabled for the days of the month.
    fn has_nearest_day(&self) -> bool
        ensures { result ≡ has_all (meaning self.now).days.enabled 128 };

    /// The weekdays that are marked with a modifier, by its place: 0 plain, 1 to 5 nth, 6 last. The lowest bit stands for
    /// Sunday.
    fn weekdays(&self, modifier: u8) -> u32
        requires { modifier < 7 }
        ensures shows { (weekday : ℕ) → weekday < 7
            → has_bit result weekday ≡ is_marked (2 ^ modifier) (meaning self.now).days_of_week weekday }
        ensures bound { result < 128 };

    /// Whether a weekday may be marked as an nth one.
    fn has_nth_weekdays(&self) -> bool
        ensures { result ≡ false → (weekday : ℕ) → weekday < 7
            → is_marked 62 (meaning self.now).days_of_week weekday ≡ false };

    /// Whether the day of month is written as `*`.
    fn is_star_day(&self) -> bool
        ensures { result ≡ (meaning self.now).star_day };

    /// Whether the weekday is written as `*`.
    fn is_star_weekday(&self) -> bool
        ensures { result ≡ (meaning self.now).star_weekday };

    /// Whether a day has to match both day fields, where neither is written as `*`.
    fn is_day_and_weekday(&self) -> bool
        ensures { result ≡ (meaning self.now).and };

    /// Whether a year is named.
    fn names_year(&self, year: i32) -> bool
        requires { has_field_shapes (meaning self.now) ≡ true }
        ensures { result ≡ is_year_matching (meaning self.now) year };

    /// The least plain year from a year on (forward), or the greatest up to it (backward).
    fn nearest_year(&self, year: u16, direction: Direction) -> Option<u16>
        ensures { IsNearestMember direction (meaning self.now).years year result };
}

impl PatternWords for CronPattern {
    ghost use Rattle.croner_pattern.specs.Meaning.{meaning_of};

    ghost meaning = { meaning_of };

    #[inline(always)]
    fn plain(&self, unit: Unit) -> u64 {
        match unit {
            Unit::Second => self.seconds.low_word(ALL_BIT),
            Unit::Minute => self.minutes.low_word(ALL_BIT),
            Unit::Hour => self.hours.low_word(ALL_BIT),
            Unit::Month => self.months.low_word(ALL_BIT),
        }
    }

    #[inline(always)]
    fn plain_days(&self) -> u32 {
        marked_days(&self.days, ALL_BIT)
    }

    #[inline(always)]
    fn nearest_days(&self) -> u32 {
        marked_days(&self.days, CLOSEST_WEEKDAY_BIT)
    }

    #[inline(always)]
    fn has_last_day(&self) -> bool {
        self.days.is_feature_enabled(LAST_BIT)
    }

    #[inline(always)]
    fn has_nearest_day(&self) -> bool {
        self.days.is_feature_enabled(CLOSEST_WEEKDAY_BIT)
    }

    #[inline(always)]
    fn weekdays(&self, modifier: u8) -> u32 {
        marked_weekdays(&self.days_of_week, 1 << modifier)
    }

    #[inline(always)]
    fn has_nth_weekdays(&self) -> bool {
        self.days_of_week.low_word(NTH_ALL) != 0
    }

    #[inline(always)]
    fn is_star_day(&self) -> bool {
        self.star_day
    }

    #[inline(always)]
    fn is_star_weekday(&self) -> bool {
        self.star_weekday
    }

    #[inline(always)]
    fn is_day_and_weekday(&self) -> bool {
        self.day_and_weekday
    }

    #[inline(always)]
    fn names_year(&self, year: i32) -> bool {
        matches!(self.year_match(year), Ok(true))
    }

    #[inline(always)]
    fn nearest_year(&self, year: u16, direction: Direction) -> Option<u16> {
        nearest_member(&self.years, year, direction)
    }
}
