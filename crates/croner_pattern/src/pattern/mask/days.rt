//! The days of a month that the field of the days of the month names, as bits.

ghost use Rattle.std.specs.Prelude.{◌≡◌, ℕ, ◌+◌, ◌-◌, ◌<◌, ◌&&◌, nat_lt, true};
ghost use Rattle.std.specs.Int.{IsInRange};
ghost use Rattle.std.specs.List.{list_any};
ghost use Rattle.croner_base.specs.Field.{is_marked};
ghost use Rattle.croner_pattern.specs.Days.{days_of, weekday_of, is_nearest};
ghost use Rattle.croner_pattern.specs.Private.DayBits.{has_bit, ShowsDays};
ghost use Rattle.croner_pattern.specs.Questions.{is_named_last};
ghost use Rattle.croner_pattern.specs.Schedule.{is_day_side};
ghost use Rattle.croner_pattern.specs.Shapes.{has_field_shapes};

use super::month::{WEEK_BITS, days_of_weekdays, whole_month};
use crate::pattern::PatternWords;
use crate::pattern::days::{SATURDAY, SUNDAY, last_working};
use croner_base::component::CronComponent;

/// Bits 0 to 30, for the days 1 to 31.
const MONTH_BITS: u64 = 0x7FFF_FFFF;

/// Sets of weekdays, from bit 0 for Sunday.
const SUNDAYS: u32 = 1 << SUNDAY;

const SATURDAYS: u32 = 1 << SATURDAY;

const WORKING_DAYS: u32 = WEEK_BITS - SUNDAYS - SATURDAYS;

/// The days that fit the field.
#[inline(always)]
pub fn days_named<P: PatternWords>(pattern: &P, length: u32, first: u32) -> u32
    requires shapes { has_field_shapes (P.meaning pattern.now) ≡ true }
    requires length { IsInRange 28 31 length }
    requires first { first < 7 }
    ensures { ShowsDays length (is_day_side (P.meaning pattern.now).days length first) result }
{
    let nearest = nearest_working(pattern.nearest_days(), length, first);
    pattern.plain_days() | named_last(pattern, length, first) | nearest
}

/// The days that are marked with a modifier.
#[inline(always)]
pub fn marked_days(days: &CronComponent, bit: u8) -> u32
    ensures { ShowsDays 31 (is_marked bit days.now) result }
{
    (days.low_word(bit) >> 1 & MONTH_BITS) as u32
}

/// `L` names the month's last day; `LW`, also beside an `L`, its last Monday-to-Friday day.
fn named_last<P: PatternWords>(pattern: &P, length: u32, first: u32) -> u32
    requires length { IsInRange 28 31 length }
    requires first { first < 7 }
    ensures { ShowsDays length (is_named_last (P.meaning pattern.now).days length first) result }
{
    if !pattern.has_last_day() {
        return 0;
    }
    let last = if pattern.has_nearest_day() {
        last_working(length, first)
    } else {
        length
    };
    1 << (last - 1)
}

/// The nearest Monday-to-Friday days of these targets, each in its month.
fn nearest_working(targets: u32, length: u32, first: u32) -> u32
    requires length { IsInRange 28 31 length }
    requires first { first < 7 }
    ensures { ShowsDays length (λ day. list_any (λ target. has_bit targets (target - 1) && is_nearest length first target day) (days_of length)) result }
{
    if targets == 0 {
        return 0;
    }
    let working = targets_on(WORKING_DAYS, targets, length, first);
    let saturdays = targets_on(SATURDAYS, targets, length, first);
    let sundays = targets_on(SUNDAYS, targets, length, first);
    let last = 1 << (length - 1);
    working | saturdays >> 1 | (saturdays & 1) << 2 | sundays << 1 | (sundays & last) >> 2
}

/// The targets of a month on some weekdays.
fn targets_on(weekdays: u32, targets: u32, length: u32, first: u32) -> u32
    requires weekdays { weekdays < 128 }
    requires length { IsInRange 28 31 length }
    requires first { first < 7 }
    ensures { (place : ℕ) → has_bit result place
        ≡ (nat_lt place length && (has_bit targets place && has_bit weekdays (weekday_of first (place + 1)))) }
{
    whole_month(length) & targets & days_of_weekdays(weekdays, first)
}
