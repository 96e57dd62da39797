//! What a compact job keeps of a pattern.

ghost use Rattle.std.specs.Prelude.{◌≡◌, ℕ, ◌<◌, ◌^◌, true, slice_index};
ghost use Rattle.croner_base.specs.Field.{has_all, is_marked};
ghost use Rattle.croner_pattern.specs.Meaning.{meaning_of};
ghost use Rattle.croner_pattern.specs.Words.{has_bit};
ghost use Rattle.croner.specs.compact.WordFields.{enabled_by};

use croner_base::component::ALL_BIT;
use croner_pattern::pattern::{CronPattern, PatternWords};

/// Bits 0 to 23, for the hours.
const HOUR_BITS: u64 = 0xFF_FFFF;

/// Bits 0 to 12, for the months.
const MONTH_BITS: u64 = 0x1FFF;

/// What the days of the month name by `L` or `LW`.
#[derive(Debug, Clone, Copy, PartialEq, Eq, Hash)]
pub(crate) enum LastDay {
    Unnamed,
    /// The last day.
    Calendar,
    /// The last Monday-to-Friday day.
    Working,
}

impl LastDay {
    // What a pattern names.
    pub(super) fn of(pattern: &CronPattern) -> LastDay
        ensures last { has_all (enabled_by result) 64 ≡ has_all (meaning_of pattern.now).days.enabled 64 }
        ensures working { has_all (enabled_by result) 64 ≡ true
            → has_all (enabled_by result) 128 ≡ has_all (meaning_of pattern.now).days.enabled 128 }
    {
        if !pattern.has_last_day() {
            return LastDay::Unnamed;
        }
        if pattern.has_nearest_day() {
            LastDay::Working
        } else {
            LastDay::Calendar
        }
    }

    // Whether a last day is named.
    #[inline(always)]
    pub(super) fn is_named(self) -> bool
        ensures { result ≡ has_all (enabled_by self) 64 }
    {
        match self {
            LastDay::Calendar | LastDay::Working => true,
            LastDay::Unnamed => false,
        }
    }

    // Whether that is a Monday-to-Friday day.
    #[inline(always)]
    pub(super) fn is_working(self) -> bool
        ensures { result ≡ has_all (enabled_by self) 128 }
    {
        match self {
            LastDay::Working => true,
            LastDay::Unnamed | LastDay::Calendar => false,
        }
    }
}

// The plain hours of a pattern.
pub(super) fn hours_of(pattern: &CronPattern) -> u32
    ensures { (v : ℕ) → v < 24 → has_bit result v ≡ is_marked 1 (meaning_of pattern.now).hours v }
{
    (pattern.hours.low_word(ALL_BIT) & HOUR_BITS) as u32
}

// The plain months of a pattern.
pub(super) fn months_of(pattern: &CronPattern) -> u16
    ensures { (v : ℕ) → v < 13 → has_bit result v ≡ is_marked 1 (meaning_of pattern.now).months v }
{
    (pattern.months.low_word(ALL_BIT) & MONTH_BITS) as u16
}

// The weekdays of a pattern that are marked with a modifier.
fn week_of(pattern: &CronPattern, modifier: u8) -> u8
    requires { modifier < 7 }
    ensures { (w : ℕ) → w < 7 → has_bit result w ≡ is_marked (2 ^ modifier) (meaning_of pattern.now).days_of_week w }
{
    pattern.weekdays(modifier) as u8
}

// A row of these for each modifier.
pub(super) fn weeks_of(pattern: &CronPattern) -> [u8; 7]
    ensures { (k w : ℕ) → k < 7 → w < 7 → has_bit (slice_index result k) w ≡ is_marked (2 ^ k) (meaning_of pattern.now).days_of_week w }
{
    [
        week_of(pattern, 0),
        week_of(pattern, 1),
        week_of(pattern, 2),
        week_of(pattern, 3),
        week_of(pattern, 4),
        week_of(pattern, 5),
        week_of(pattern, 6),
    ]
}
