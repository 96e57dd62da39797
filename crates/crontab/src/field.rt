//! The fields of a schedule, as cron reads them.
ghost use Rattle.std.specs.Prelude.{◌≡◌, ◌<◌, ◌^◌, ◌≤◌, map, option_map, fold};
ghost use Rattle.std.specs.Char.{to_ascii_lowercase};
ghost use Rattle.std.specs.Str.{bytes_eq};
ghost use Rattle.std.specs.List.{list_all};
ghost use Rattle.crontab.specs.Bytes.{is_digit};
ghost use Rattle.crontab.specs.Field.{most, with_digit, number_of, months, weekdays, place_of, name_of, value_of, value_at, is_within, is_step, part_in_bounds, part_with_step, part_from_value, part_of};

use crate::bytes::{Kind, begins_with, cut, is_digit, rest_of};

/// The greatest number of 63 bits: a number that is read grows no further.
const MOST: u64 = 9_223_372_036_854_775_807;

/// How many numbers 32 bits hold, and 31.
const NUMBERS: u64 = 4_294_967_296;

const POSITIVE_NUMBERS: u64 = 2_147_483_648;

/// One byte more than a word may have.
const WORD_LIMIT: usize = 1_000;

/// The names that a field knows.
#[derive(Clone, Copy, Drop)]
pub enum Names {
    /// It knows none.
    None,
    /// `jan` to `dec`, which are 1 to 12.
    Months,
    /// `sun` to `sat`, which are 0 to 6.
    Weekdays,
}

/// The values that a field may have, and its names.
#[derive(Clone, Copy)]
pub struct FieldBounds {
    /// The least value.
    pub first: u64,
    /// The greatest.
    pub last: u64,
    /// The names of values.
    pub names: Names,
}

/// A part of a field: the values from the first to the last, step by step. A part whose first is above its last
/// names nothing.
#[derive(Clone, Copy)]
pub struct SteppedRange {
    /// Whether it was written as a star.
    pub is_star: bool,
    /// The first value, within the bounds of its field.
    pub first: u64,
    /// The greatest value that it may have, within the bounds of its field.
    pub last: u64,
    /// How far apart its values are: 1 to 2^31 - 1.
    pub step: u64,
}

fn with_digit(number: u64, digit: u8) -> u64
    ensures { result ≡ with_digit number digit }
{
    let digit = u64::from(digit.saturating_sub(b'0'));
    number.saturating_mul(10).saturating_add(digit).min(MOST)
}

// The number that digits write, up to the greatest.
pub(crate) fn digits(word: &[u8]) -> u64
    ensures { result ≡ fold with_digit 0 word.now }
{
    word.iter()
        .fold(0, |number, digit| with_digit(number, *digit))
}

fn number_of(word: &[u8]) -> u64
    ensures { result ≡ number_of word.now }
{
    digits(word) % NUMBERS
}

pub(crate) fn all_digits(word: &[u8]) -> bool
    ensures { result ≡ list_all is_digit word.now }
{
    word.iter().all(|byte| is_digit(*byte))
}

// Whether a word is a name, in capitals or small.
pub(crate) fn is_name(word: &[u8], name: &str) -> bool
    ensures { result ≡ bytes_eq (map to_ascii_lowercase word.now) (map to_ascii_lowercase name.now) }
{
    word.eq_ignore_ascii_case(name.as_bytes())
}

fn month(word: &[u8]) -> Option<u64>
    ensures { result ≡ place_of (map to_ascii_lowercase word.now) 1 months }
{
    if is_name(word, "jan") {
        Some(1)
    } else if is_name(word, "feb") {
        Some(2)
    } else if is_name(word, "mar") {
        Some(3)
    } else if is_name(word, "apr") {
        Some(4)
    } else if is_name(word, "may") {
        Some(5)
    } else if is_name(word, "jun") {
        Some(6)
    } else if is_name(word, "jul") {
        Some(7)
    } else if is_name(word, "aug") {
        Some(8)
    } else if is_name(word, "sep") {
        Some(9)
    } else if is_name(word, "oct") {
        Some(10)
    } else if is_name(word, "nov") {
        Some(11)
    } else if is_name(word, "dec") {
        Some(12)
    } else {
        None
    }
}

fn weekday(word: &[u8]) -> Option<u64>
    ensures { result ≡ place_of (map to_ascii_lowercase word.now) 0 weekdays }
{
    if is_name(word, "sun") {
        Some(0)
    } else if is_name(word, "mon") {
        Some(1)
    } else if is_name(word, "tue") {
        Some(2)
    } else if is_name(word, "wed") {
        Some(3)
    } else if is_name(word, "thu") {
        Some(4)
    } else if is_name(word, "fri") {
        Some(5)
    } else if is_name(word, "sat") {
        Some(6)
    } else {
        None
    }
}

// The number of a name of a field.
pub(crate) fn name_of(names: Names, word: &[u8]) -> Option<u64>
    ensures { result ≡ name_of names word.now }
{
    match names {
        Names::None => None,
        Names::Months => month(word),
        Names::Weekdays => weekday(word),
    }
}

// The value of a word of letters and digits.
fn value_of(names: Names, word: &[u8]) -> Option<u64>
    ensures { result ≡ value_of names word.now }
{
    if word.is_empty() || WORD_LIMIT <= word.len() {
        return None;
    }
    match name_of(names, word) {
        Some(value) => Some(value),
        None if all_digits(word) => Some(number_of(word)),
        None => None,
    }
}

// The value that a text begins with, and what follows it.
fn value_at(names: Names, text: &[u8]) -> Option<(u64, &[u8])>
    ensures { option_map (λ v. (v.0, v.1.now)) result ≡ value_at names text.now }
{
    let (word, after) = cut(text, Kind::Alphanumeric);
    match value_of(names, word) {
        Some(value) => Some((value, after)),
        None => None,
    }
}

fn is_within(bounds: FieldBounds, value: u64) -> bool
    ensures { result ≡ is_within bounds value }
{
    bounds.first <= value && value <= bounds.last
}

fn is_step(first: u64, last: u64, step: u64) -> bool
    ensures { result ≡ is_step first last step }
{
    0 < step
        && step < POSITIVE_NUMBERS
        && (last < first || first.saturating_add(step) < POSITIVE_NUMBERS)
}

fn part_in_bounds(
    bounds: FieldBounds,
    part: SteppedRange,
    rest: &[u8],
) -> Option<(SteppedRange, &[u8])>
    ensures { option_map (λ p. (p.0, p.1.now)) result
        ≡ part_in_bounds bounds part.is_star part.first part.last part.step rest.now }
{
    if is_within(bounds, part.first)
        && is_within(bounds, part.last)
        && is_step(part.first, part.last, part.step)
    {
        Some((part, rest))
    } else {
        None
    }
}

// A star or a range, so far of step 1, with the step after it.
fn part_with_step(
    bounds: FieldBounds,
    is_star: bool,
    first: u64,
    last: u64,
    rest: &[u8],
) -> Option<(SteppedRange, &[u8])>
    ensures { option_map (λ p. (p.0, p.1.now)) result ≡ part_with_step bounds is_star first last rest.now }
{
    if !begins_with(rest, b'/') {
        return part_in_bounds(
            bounds,
            SteppedRange {
                is_star,
                first,
                last,
                step: 1,
            },
            rest,
        );
    }
    match value_at(Names::None, rest_of(rest)) {
        Some((step, after)) => part_in_bounds(
            bounds,
            SteppedRange {
                is_star,
                first,
                last,
                step,
            },
            after,
        ),
        None => None,
    }
}

// What follows a value.
fn part_from_value(bounds: FieldBounds, first: u64, rest: &[u8]) -> Option<(SteppedRange, &[u8])>
    ensures { option_map (λ p. (p.0, p.1.now)) result ≡ part_from_value bounds first rest.now }
{
    if begins_with(rest, b'-') {
        return match value_at(bounds.names, rest_of(rest)) {
            Some((last, after)) => part_with_step(bounds, false, first, last, after),
            None => None,
        };
    }
    if begins_with(rest, b'/') {
        return None;
    }
    part_in_bounds(
        bounds,
        SteppedRange {
            is_star: false,
            first,
            last: first,
            step: 1,
        },
        rest,
    )
}

/// The part that a text begins with, and what follows it. `None` where it begins with no part, where the part's
/// first or last value isn't within the bounds of the field, and where its step is 0 or too large for cron.
pub fn part_of(bounds: FieldBounds, text: &[u8]) -> Option<(SteppedRange, &[u8])>
    ensures { option_map (λ p. (p.0, p.1.now)) result ≡ part_of bounds text.now }
{
    if begins_with(text, b'*') {
        return part_with_step(bounds, true, bounds.first, bounds.last, rest_of(text));
    }
    match value_at(bounds.names, text) {
        Some((value, after)) => part_from_value(bounds, value, after),
        None => None,
    }
}
