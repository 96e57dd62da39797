//! A compact job as the machine words that a search reads.

ghost use Rattle.std.specs.Prelude.{◌≡◌, ◌&&◌, false, pos, int_le, MatchOption};
ghost use Rattle.std.specs.Int.{IsInRange};
ghost use Rattle.croner_base.specs.Limits.{first_year, last_year};

use crate::compact::CompactCron;
use croner_base::time::{Direction, YEAR_LOWER_LIMIT, YEAR_UPPER_LIMIT};
use croner_pattern::pattern::{PatternWords, Unit};

/// The seven days of a week, from the lowest bit.
const WEEK_BITS: u32 = 0x7F;

// The number of a year, where it is one that a pattern can name.
#[inline(always)]
fn year_number(year: i32) -> Option<u16>
    ensures { MatchOption result ((int_le (pos first_year) year && int_le year (pos last_year)) ≡ false)
        (λ number. (pos number ≡ year) × IsInRange first_year last_year number) }
{
    if year >= YEAR_LOWER_LIMIT && year <= YEAR_UPPER_LIMIT {
        Some(year as u16)
    } else {
        None
    }
}

impl PatternWords for CompactCron {
    ghost use Rattle.croner.specs.compact.Compact.{compact_meaning};

    ghost meaning = { compact_meaning };

    #[inline(always)]
    fn plain(&self, unit: Unit) -> u64 {
        match unit {
            Unit::Second => self.seconds,
            Unit::Minute => self.minutes,
            Unit::Hour => u64::from(self.hours),
            Unit::Month => u64::from(self.months),
        }
    }

    #[inline(always)]
    fn plain_days(&self) -> u32 {
        self.days
    }

    #[inline(always)]
    fn nearest_days(&self) -> u32 {
        self.nearest_days
    }

    #[inline(always)]
    fn has_last_day(&self) -> bool {
        self.last_day.is_named()
    }

    #[inline(always)]
    fn has_nearest_day(&self) -> bool {
        self.last_day.is_working()
    }

    #[inline(always)]
    #[tactic(auto, using(std::proofs::lemmas::Nat::and_le_r))]
    fn weekdays(&self, modifier: u8) -> u32 {
        u32::from(self.weekdays[usize::from(modifier)]) & WEEK_BITS
    }

    #[inline(always)]
    fn has_nth_weekdays(&self) -> bool {
        if self.weekdays[1] != 0 {
            return true;
        }
        if self.weekdays[2] != 0 {
            return true;
        }
        if self.weekdays[3] != 0 {
            return true;
        }
        if self.weekdays[4] != 0 {
            return true;
        }
        self.weekdays[5] != 0
    }

    #[inline(always)]
    fn is_star_day(&self) -> bool {
        self.star_day
    }

    #[inline(always)]
    fn is_star_weekday(&self) -> bool {
        self.star_weekday
    }

    #[inline(always)]
    fn is_day_and_weekday(&self) -> bool {
        self.day_and_weekday
    }

    #[inline(always)]
    fn names_year(&self, year: i32) -> bool {
        if let Some(number) = year_number(year) {
            return self.years.names(number);
        }
        false
    }

    #[inline(always)]
    fn nearest_year(&self, year: u16, direction: Direction) -> Option<u16> {
        self.years.nearest(year, direction)
    }
}
