//! Months and years by their kind. A month has one of 28 kinds, by its length and the weekday of its first day. A year has
//! one of 14, by whether it is a leap year and by the weekday of its first day.
ghost use Rattle.std.specs.Prelude.{◌≡◌, ◌<◌, ◌↔◌, ℕ, ◌+◌, ◌%◌, ℤ, true, pos, IsTrue};
ghost use Rattle.std.specs.Int.{IsInRange, bit_at};
ghost use Rattle.jiff_core.specs.Calendar.{is_leap_year, days_in_month};
ghost use Rattle.croner_pattern.specs.Meaning.{Meaning};
ghost use Rattle.croner_pattern.specs.Schedule.{first_weekday};
ghost use Rattle.croner_pattern.specs.Shapes.{has_field_shapes};
ghost use Rattle.croner_pattern.specs.Private.Cursor.{month_kind, year_kind, HasOpenDay, AreMonthKinds, AreYearKinds};

use crate::cursor::calendar::{FIRST_SEARCHED_YEAR, LAST_SEARCHED_YEAR, first_weekday};
use crate::cursor::values::nearest_value;
use crate::pattern::{PatternWords, Unit, days_of_month};
use croner_base::limits::{DAYS_PER_WEEK, LAST_MONTH};
use croner_base::time::{Direction, day_of_year, days_in_month, is_leap_year};

// A leap year and a common one. Every other year has the months of one of the two.
const LEAP_YEAR: i32 = 2000;

const COMMON_YEAR: i32 = 2001;

const SHORTEST_MONTH: u32 = 28;

const MONTH_KINDS: u32 = 28;

// One bit for each weekday.
const WEEK_BITS: u32 = 127;

// The place of a kind of month among the 28.
fn month_kind(length: u32, first: u32) -> u32
    requires length { IsInRange 28 31 length }
    requires first { first < 7 }
    ensures value { result ≡ month_kind length first }
    ensures bound { result < 28 }
{
    (length - SHORTEST_MONTH) * DAYS_PER_WEEK + first
}

// The place of the kind of a year among the 14.
fn year_kind(year: u32) -> u32
    requires { IsInRange FIRST_SEARCHED_YEAR LAST_SEARCHED_YEAR year }
    ensures value { result ≡ year_kind (pos year) }
    ensures bound { result < 14 }
{
    let first = first_weekday(year, 1);
    if is_leap_year(year as i32) {
        first + DAYS_PER_WEEK
    } else {
        first
    }
}

// Which kinds of month have a day that matches, one bit a kind.
#[tactic(auto, using(crate::proofs::civil::MonthKinds::no_month_kinds))]
fn month_kinds<P: PatternWords>(pattern: &P) -> u32
    requires { has_field_shapes (P.meaning pattern.now) ≡ true }
    ensures { AreMonthKinds (P.meaning pattern.now) result }
{
    let mut kinds = 0;
    for kind in 0..MONTH_KINDS {
        let length = SHORTEST_MONTH + kind / DAYS_PER_WEEK;
        if days_of_month(pattern, length, kind % DAYS_PER_WEEK) != 0 {
            kinds |= 1 << kind;
        }
    }
    kinds
}

// The kinds of month of one length, one bit for the weekday of the first day.
#[tactic(auto, using(crate::proofs::civil::MonthKinds::week_of_length, std::proofs::lemmas::Nat::and_le_r))]
fn kinds_of_length(months: u32, length: u32) -> u32
    requires { IsInRange 28 31 length }
    ensures value { (first : ℕ) → first < 7 → bit_at result first ≡ bit_at months (month_kind length first) }
    ensures bound { result < 128 }
{
    months >> month_kind(length, 0) & WEEK_BITS
}

// The bits of a week, each moved that many weekdays earlier.
#[tactic(auto, using(crate::proofs::civil::MonthKinds::week_turned, std::proofs::lemmas::Nat::and_le_r))]
fn turn_week(week: u32, days: u32) -> u32
    requires week { week < 128 }
    requires days { days < 7 }
    ensures value { (weekday : ℕ) → weekday < 7 → bit_at result weekday ≡ bit_at week ((weekday + days) % 7) }
    ensures bound { result < 128 }
{
    (week | week << DAYS_PER_WEEK) >> days & WEEK_BITS
}

fn example_year(leap: bool) -> i32
    ensures { is_leap_year result ≡ leap }
{
    if leap { LEAP_YEAR } else { COMMON_YEAR }
}

// The weekdays on which a year can begin so that its month has a day that matches, one bit a weekday.
fn open_beginnings(months: u32, month: u32, leap: bool) -> u32
    requires { IsInRange 1 12 month }
    ensures value { (m : Meaning) → AreMonthKinds m months → (year : ℤ) → is_leap_year year ≡ leap
        → (bit_at result (first_weekday year 1) ≡ 1) ↔ HasOpenDay m (days_in_month year month) (first_weekday year month) }
    ensures bound { result < 128 }
{
    let year = example_year(leap);
    let week = kinds_of_length(months, days_in_month(year, month));
    turn_week(week, (day_of_year(year, month, 1) - 1) % DAYS_PER_WEEK)
}

// Which kinds of year have a day that matches in the month, one bit a kind.
fn open_years(months: u32, month: u32) -> u32
    requires { IsInRange 1 12 month }
    ensures { (m : Meaning) → AreMonthKinds m months → (year : ℤ)
        → (bit_at result (year_kind year) ≡ 1) ↔ HasOpenDay m (days_in_month year month) (first_weekday year month) }
{
    open_beginnings(months, month, false) | open_beginnings(months, month, true) << DAYS_PER_WEEK
}

// Which kinds of year have a day that matches in a named month, one bit a kind.
#[tactic(auto, using(crate::proofs::civil::FieldBits::holds_months, crate::proofs::civil::MonthKinds::no_year_kinds))]
pub(crate) fn year_kinds<P: PatternWords>(pattern: &P) -> u32
    requires { has_field_shapes (P.meaning pattern.now) ≡ true }
    ensures { AreYearKinds (P.meaning pattern.now) result }
{
    let months = month_kinds(pattern);
    let mut kinds = 0;
    let mut from = 1;
    while let Some(month) = nearest_value(
        pattern,
        Unit::Month,
        1,
        LAST_MONTH,
        from,
        Direction::Forward,
    ) {
        kinds |= open_years(months, month);
        from = month + 1;
    }
    kinds
}

// Whether the kind of the year is one of the kinds.
pub(crate) fn has_kind(kinds: u32, year: u32) -> bool
    requires { IsInRange FIRST_SEARCHED_YEAR LAST_SEARCHED_YEAR year }
    ensures { IsTrue result ↔ (bit_at kinds (year_kind (pos year)) ≡ 1) }
{
    kinds >> year_kind(year) & 1 == 1
}
