//! The days of a month that the field of the weekdays names, as bits.

ghost use Rattle.std.specs.Prelude.{◌≡◌, ℕ, ◌+◌, ◌-◌, ◌/◌, ◌^◌, ◌<◌, ◌&&◌, ◌==◌, true};
ghost use Rattle.std.specs.Int.{IsInRange};
ghost use Rattle.croner_base.specs.Field.{is_marked};
ghost use Rattle.croner_pattern.specs.Days.{weekday_of, occurrence};
ghost use Rattle.croner_pattern.specs.Private.DayBits.{has_bit, ShowsDays};
ghost use Rattle.croner_pattern.specs.Schedule.{bit_of_nth, is_weekday_side};
ghost use Rattle.croner_pattern.specs.Shapes.{has_field_shapes};

use super::month::{WEEK_BITS, days_of_weekdays, last_week};
use crate::pattern::PatternWords;
use croner_base::component::CronComponent;
use croner_base::limits::DAYS_PER_WEEK;

/// The places of the modifiers of a weekday: plain, the first to the fifth of a month from 1 on, the last.
const PLAIN_PLACE: u8 = 0;

const LAST_PLACE: u8 = 6;

/// The days that fit the field.
#[inline(always)]
pub fn weekdays_named<P: PatternWords>(pattern: &P, length: u32, first: u32) -> u32
    requires shapes { has_field_shapes (P.meaning pattern.now) ≡ true }
    requires length { IsInRange 28 31 length }
    requires first { first < 7 }
    ensures { ShowsDays length (is_weekday_side (P.meaning pattern.now).days_of_week length first) result }
{
    let last = days_marked(pattern, LAST_PLACE, first) & last_week(length);
    days_marked(pattern, PLAIN_PLACE, first) | nth_named(pattern, first) | last
}

/// The weekdays that are marked with a modifier, from the lowest bit for Sunday.
#[inline(always)]
pub fn marked_weekdays(weekdays: &CronComponent, bit: u8) -> u32
    ensures shows { (weekday : ℕ) → weekday < 7 → has_bit result weekday ≡ is_marked bit weekdays.now weekday }
    ensures bound { result < 128 }
{
    (weekdays.low_word(bit) & u64::from(WEEK_BITS)) as u32
}

/// The days whose weekday is marked with a modifier.
#[inline(always)]
fn days_marked<P: PatternWords>(pattern: &P, modifier: u8, first: u32) -> u32
    requires modifier { modifier < 7 }
    requires first { first < 7 }
    ensures { ShowsDays 31 (λ day. is_marked (2 ^ modifier) (P.meaning pattern.now).days_of_week (weekday_of first day)) result }
{
    days_of_weekdays(pattern.weekdays(modifier), first)
}

/// The days whose weekday is marked with the place that the day has among its like in the month.
fn nth_named<P: PatternWords>(pattern: &P, first: u32) -> u32
    requires { first < 7 }
    ensures { ShowsDays 31 (λ day. is_marked (bit_of_nth (occurrence first day)) (P.meaning pattern.now).days_of_week (weekday_of first day)) result }
{
    if !pattern.has_nth_weekdays() {
        return 0;
    }
    nth_marked(pattern, 0, first)
        | nth_marked(pattern, 1, first)
        | nth_marked(pattern, 2, first)
        | nth_marked(pattern, 3, first)
        | nth_marked(pattern, 4, first)
}

/// The days that have so many like days of the month before them, and whose weekday is marked with that place.
#[inline(always)]
fn nth_marked<P: PatternWords>(pattern: &P, before: u8, first: u32) -> u32
    requires before { before < 5 }
    requires first { first < 7 }
    ensures { ShowsDays 31 (λ day. (day - 1) / 7 == before && is_marked (2 ^ (before + 1)) (P.meaning pattern.now).days_of_week (weekday_of first day)) result }
{
    days_marked(pattern, before + 1, first) & (WEEK_BITS << (DAYS_PER_WEEK * u32::from(before)))
}
