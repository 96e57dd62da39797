//! Days of a month as the bits of a word, the lowest for the 1st.
ghost use Rattle.std.specs.Prelude.{◌≡◌, ◌↔◌, ℕ, pos, IsTrue};
ghost use Rattle.std.specs.Int.{bit_at};
ghost use Rattle.croner_pattern.specs.Private.Cursor.{one_on, HasDay, FindsForemost, FindsNearest};

use crate::cursor::values::{first_bit, nearest_bit, neighbour};
use croner_base::time::{CivilDate, Direction};

// Whether the day of a date is one of the days.
#[inline(always)]
pub(crate) fn has_day(days: u32, date: CivilDate) -> bool
    ensures { IsTrue result ↔ HasDay days date.day }
{
    days >> (date.day() - 1) & 1 == 1
}

// The days as a word in which the bit of a day is its number.
#[tactic(auto, using(crate::proofs::civil::DateSearch::day_place))]
#[inline(always)]
fn places(days: u32) -> u64
    ensures { (day : ℕ) → (bit_at result day ≡ 1) ↔ HasDay days day }
{
    u64::from(days) << 1
}

// The first of the days in the direction.
#[tactic(auto, using(crate::proofs::civil::Foremost::alike))]
#[inline(always)]
pub(crate) fn first_day(days: u32, direction: Direction) -> Option<u32>
    ensures { FindsForemost pos (HasDay days) direction result }
{
    first_bit(places(days), direction)
}

// The first of the days that come after the day of a date in the direction.
#[tactic(auto, using(crate::proofs::civil::Foremost::same_nearest))]
#[inline(always)]
pub(crate) fn day_after(days: u32, date: CivilDate, direction: Direction) -> Option<u32>
    ensures { FindsNearest pos (HasDay days) direction (one_on direction (pos date.day)) result }
{
    let next = neighbour(date.day(), direction)?;
    nearest_bit(places(days), next, direction)
}
