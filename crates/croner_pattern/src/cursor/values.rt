//! The nearest value that a field names.
ghost use Rattle.std.specs.Prelude.{◌≡◌, ◌<◌, ◌≤◌, true, pos, negsuc, MatchOption};
ghost use Rattle.std.specs.Int.{bit_at};
ghost use Rattle.croner_base.specs.Field.{can_ask};
ghost use Rattle.croner_pattern.specs.Schedule.{is_plain};
ghost use Rattle.croner_pattern.specs.Words.{field_at};
ghost use Rattle.croner_pattern.specs.Private.Cursor.{one_on, FindsNearest, FindsForemost, AreFrom, HoldsAll, IsPlainWithin, IsOnTheWay};

use crate::cursor::calendar::{FIRST_SEARCHED_YEAR, LAST_SEARCHED_YEAR};
use crate::pattern::{PatternWords, Unit};
use croner_base::time::Direction;

// Whether the field names the value, one of those that it holds, as a plain value.
#[tactic(auto, using(crate::proofs::questions::FieldShapes::marked_named, std::proofs::lemmas::Nat::Bits::shr_and_one))]
#[inline(always)]
pub(crate) fn is_plain<P: PatternWords>(pattern: &P, unit: Unit, value: u32) -> bool
    requires small { value < 64 }
    requires held { can_ask (field_at (P.meaning pattern.now) unit).shape value 1 ≡ true }
    ensures { result ≡ is_plain (field_at (P.meaning pattern.now) unit) value }
{
    pattern.plain(unit) >> value & 1 == 1
}

// The next number in the direction.
#[inline(always)]
pub(crate) fn neighbour(value: u32, direction: Direction) -> Option<u32>
    requires { value < u32.MAX }
    ensures { MatchOption result
        (one_on direction (pos value) ≡ negsuc 0)
        (λ n. pos n ≡ one_on direction (pos value)) }
{
    match direction {
        Direction::Forward => Some(value + 1),
        Direction::Backward => value.checked_sub(1),
    }
}

// The bits of a word from a place on, the place itself included.
#[tactic(auto, using(crate::proofs::civil::FieldBits::from_forward, crate::proofs::civil::FieldBits::from_backward))]
#[inline(always)]
fn bits_from(word: u64, from: u32, direction: Direction) -> u64
    requires { from < 64 }
    ensures { AreFrom direction word from result }
{
    match direction {
        Direction::Forward => word & (u64::MAX << from),
        Direction::Backward => word & (u64::MAX >> (u64::BITS - 1 - from)),
    }
}

// The place of the first bit of a word.
#[tactic(auto, using(crate::proofs::civil::FieldBits::no_bit))]
#[inline(always)]
pub(crate) fn first_bit(word: u64, direction: Direction) -> Option<u32>
    ensures { FindsForemost pos (λ place. bit_at word place ≡ 1) direction result }
{
    if word == 0 {
        return None;
    }
    match direction {
        Direction::Forward => Some(word.trailing_zeros()),
        Direction::Backward => Some(u64::BITS - 1 - word.leading_zeros()),
    }
}

// The place of the nearest bit of a word, from a place on, the place itself included.
#[tactic(auto, using(crate::proofs::civil::Foremost::as_nearest))]
#[inline(always)]
pub(crate) fn nearest_bit(word: u64, from: u32, direction: Direction) -> Option<u32>
    requires { from < 64 }
    ensures { FindsNearest pos (λ place. bit_at word place ≡ 1) direction (pos from) result }
{
    first_bit(bits_from(word, from, direction), direction)
}

// The nearest plain value between `min` and `max`, from a value on, itself included. The field holds all of these values.
#[tactic(auto, using(crate::proofs::civil::FieldBits::none_ahead, crate::proofs::civil::FieldBits::nearest_ahead, crate::proofs::civil::FieldBits::outside_ahead))]
#[inline(always)]
pub(crate) fn nearest_value<P: PatternWords>(
    pattern: &P,
    unit: Unit,
    min: u32,
    max: u32,
    from: u32,
    direction: Direction,
) -> Option<u32>
    requires small { max < 63 }
    requires held { HoldsAll (field_at (P.meaning pattern.now) unit) min max }
    requires from_in { IsOnTheWay direction min max from }
    ensures { FindsNearest pos (IsPlainWithin (field_at (P.meaning pattern.now) unit) min max) direction (pos from) result }
{
    let found = nearest_bit(pattern.plain(unit), from, direction)?;
    if found >= min && found <= max {
        Some(found)
    } else {
        None
    }
}

// The nearest plain year, from a year on, itself included.
#[inline(always)]
pub(crate) fn nearest_year<P: PatternWords>(
    pattern: &P,
    from: u32,
    direction: Direction,
) -> Option<u32>
    requires { IsOnTheWay direction FIRST_SEARCHED_YEAR LAST_SEARCHED_YEAR from }
    ensures { FindsNearest pos (IsPlainWithin (P.meaning pattern.now).years FIRST_SEARCHED_YEAR LAST_SEARCHED_YEAR) direction (pos from) result }
{
    let found = u32::from(pattern.nearest_year(from as u16, direction)?);
    if found >= FIRST_SEARCHED_YEAR && found <= LAST_SEARCHED_YEAR {
        Some(found)
    } else {
        None
    }
}

// The nearest plain value after a value, of a field of values from 0.
#[inline(always)]
pub(crate) fn nearest_beyond<P: PatternWords>(
    pattern: &P,
    unit: Unit,
    max: u32,
    value: u32,
    direction: Direction,
) -> Option<u32>
    requires small { max < 63 }
    requires held { HoldsAll (field_at (P.meaning pattern.now) unit) 0 max }
    requires within { value ≤ max }
    ensures { FindsNearest pos (IsPlainWithin (field_at (P.meaning pattern.now) unit) 0 max) direction (one_on direction (pos value)) result }
{
    let next = neighbour(value, direction)?;
    nearest_value(pattern, unit, 0, max, next, direction)
}

// The first plain value in the direction, of a field of values from 0.
#[inline(always)]
pub(crate) fn foremost_value<P: PatternWords>(
    pattern: &P,
    unit: Unit,
    max: u32,
    direction: Direction,
) -> Option<u32>
    requires small { max < 63 }
    requires held { HoldsAll (field_at (P.meaning pattern.now) unit) 0 max }
    ensures { FindsForemost pos (IsPlainWithin (field_at (P.meaning pattern.now) unit) 0 max) direction result }
{
    let from = match direction {
        Direction::Forward => 0,
        Direction::Backward => max,
    };
    nearest_value(pattern, unit, 0, max, from, direction)
}
