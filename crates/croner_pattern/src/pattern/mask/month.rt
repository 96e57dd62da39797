//! Words over the days of a month, whatever a pattern names: bit `day - 1` stands for the day.

ghost use Rattle.std.specs.Prelude.{◌≡◌, ℕ, ◌+◌, ◌<◌, nat_lt};
ghost use Rattle.std.specs.Int.{IsInRange};
ghost use Rattle.croner_pattern.specs.Days.{weekday_of};
ghost use Rattle.croner_pattern.specs.Private.DayBits.{has_bit, ShowsDays};

use croner_base::limits::DAYS_PER_WEEK;

/// The seven days of a week, from the lowest bit.
pub const WEEK_BITS: u32 = 0x7F;

/// A product with this repeats seven bits five times, a week apart: 1 + 2^7 + 2^14 + 2^21 + 2^28.
const FIVE_WEEKS: u32 = 0x1020_4081;

/// Each day of a month, and no bit above its last.
pub fn whole_month(length: u32) -> u32
    requires { IsInRange 28 31 length }
    ensures { (place : ℕ) → has_bit result place ≡ nat_lt place length }
{
    (1 << length) - 1
}

/// The last seven days of a month.
pub fn last_week(length: u32) -> u32
    requires { IsInRange 28 31 length }
    ensures { ShowsDays length (λ day. nat_lt length (day + 7)) result }
{
    WEEK_BITS << (length - DAYS_PER_WEEK)
}

/// The days whose weekday is in a set, with bit 0 for Sunday to bit 6 for Saturday.
pub fn days_of_weekdays(weekdays: u32, first: u32) -> u32
    requires weekdays { weekdays < 128 }
    requires first { first < 7 }
    ensures { ShowsDays 31 (λ day. has_bit weekdays (weekday_of first day)) result }
{
    let week = (weekdays | weekdays << DAYS_PER_WEEK) >> first & WEEK_BITS;
    week.wrapping_mul(FIVE_WEEKS)
}
