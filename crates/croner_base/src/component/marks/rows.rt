//! Rows of words one after another.

ghost use Rattle.std.specs.Prelude.{◌≡◌, ℕ, ◌+◌, ◌*◌, ◌/◌, ◌^◌, ◌<◌, ◌≤◌, ◌==◌, ◌-◌, length, slice_index, slice_set, bit_or, bit_and};
ghost use Rattle.std.specs.Int.{bit_at};
ghost use Rattle.croner_base.specs.Field.{room};
ghost use Rattle.croner_base.specs.Private.words.Counts.{ShowsMarked};
ghost use Rattle.croner_base.specs.Private.words.Kept.{NonePast};
ghost use Rattle.croner_base.specs.Private.words.Marked.{SteppedTo, Turns, digit, turned, is_set};
ghost use Rattle.croner_base.specs.Private.words.Rows.{width, rows_below, in_row, mark_at, sums_of, marks_in};
ghost use Rattle.croner_base.specs.Private.words.Word.{word_bits};

use super::row;
use super::words::{MODIFIERS, WORD_BITS};

/// How many supported modifiers stand below modifier `k`.
#[inline(always)]
#[tactic(auto, using(crate::proofs::words::RowPlaces::count_below))]
fn rows_below(supported: u8, k: u8) -> u8
    requires { k < 8 }
    ensures { result ≡ rows_below supported k }
{
    let below = supported & ((1 << k) - 1);
    below.count_ones() as u8
}

/// How many rows there are.
#[tactic(auto, using(crate::proofs::words::RowPlaces::count_all))]
pub fn rows(supported: u8) -> u8
    ensures { result ≡ rows_below supported 8 }
{
    supported.count_ones() as u8
}

/// How many values there are.
#[inline(always)]
pub fn room(max: u16) -> usize
    ensures { result ≡ room max }
{
    if max == 0 { 0 } else { usize::from(max) + 1 }
}

/// How many words a row has.
#[inline(always)]
pub fn width(max: u16) -> usize
    ensures { result ≡ width max }
{
    (room(max) + WORD_BITS as usize - 1) / WORD_BITS as usize
}

/// Where word `i` of the modifier's row stands, or would stand.
#[inline(always)]
pub fn place(max: u16, supported: u8, k: u8, i: usize) -> usize
    requires modifier { k < 8 }
    requires within { i < width max }
    ensures value { result ≡ rows_below supported k * width max + i }
    ensures there { bit_at supported k ≡ 1 → result < rows_below supported 8 * width max }
    ensures small { result < 16384 }
{
    usize::from(rows_below(supported, k)) * width(max) + i
}

/// Word `i` of the modifier's row, and 0 where it isn't supported.
#[inline(always)]
#[tactic(auto, using(crate::proofs::words::Sums::word_one, crate::proofs::words::Sums::mark_none, std::proofs::lemmas::Nat::Bits::shr_and_one))]
pub fn word(words: &[u64], max: u16, supported: u8, k: u8, i: usize) -> u64
    requires modifier { k < 8 }
    requires within { i < width max }
    requires rows { length words.now ≡ rows_below supported 8 * width max }
    ensures { (b : ℕ) → b < word_bits → bit_at result b ≡ mark_at words.now (width max) supported k (i * word_bits + b) }
{
    if supported >> k & 1 == 1 {
        words[place(max, supported, k, i)]
    } else {
        0
    }
}

/// Marks the value with the modifier, or removes the modifier from it.
fn turn(words: &mut [u64], max: u16, supported: u8, k: u8, value: u16, on: bool)
    requires modifier { k < 8 }
    requires is_supported { bit_at supported k ≡ 1 }
    requires within { value < room max }
    requires rows { length words.old ≡ rows_below supported 8 * width max }
    ensures rows { length words.new ≡ length words.old }
    ensures turned { Turns (digit on) (marks_in words.old max supported) (marks_in words.new max supported) (2 ^ k) (λ v. v ≡ value) }
    ensures past { NonePast words.old max → NonePast words.new max }
{
    let place = place(max, supported, k, usize::from(value / WORD_BITS));
    let bit = 1 << (value % WORD_BITS);
    if on {
        words[place] |= bit;
    } else {
        words[place] &= !bit;
    }
}

/// The values of word `i` that have one of the modifiers of `bits`. Bits past the maximum say nothing.
#[inline(always)]
pub fn values_with_any(words: &[u64], max: u16, supported: u8, bits: u8, i: usize) -> u64
    requires within { i < width max }
    requires rows { length words.now ≡ rows_below supported 8 * width max }
    ensures { ShowsMarked (marks_in words.now max supported) bits i result }
{
    let mut found = 0;
    for k in 0..8 {
        if bits >> k & 1 == 1 {
            found |= word(words, max, supported, k, i);
        }
    }
    found
}

/// The values that have one of the modifiers of `bits`, where each of the eight rows is one word. Bits past the maximum
/// stand only where the words have them.
#[inline(always)]
pub fn values_of_eight(words: &[u64; MODIFIERS], max: u16, bits: u8) -> u64
    requires { width max ≡ 1 }
    ensures values { ShowsMarked (marks_in words.now max 255) bits 0 result }
    ensures past { NonePast words.now max → (b : ℕ) → b < word_bits → room max ≤ b → bit_at result b ≡ 0 }
{
    let mut found = 0;
    for k in 0..MODIFIERS {
        if bits >> k & 1 == 1 {
            found |= words[k];
        }
    }
    found
}

/// The row of the plain values, and no word where they aren't supported.
#[inline(always)]
#[tactic(auto, using(crate::proofs::words::PlainRow::plain_row, crate::proofs::words::PlainRow::no_plain_row))]
pub fn plain_row(words: &[u64], max: u16, supported: u8) -> &[u64]
    requires { length words.now ≡ rows_below supported 8 * width max }
    ensures size { length result.now ≤ 1024 }
    ensures full { 0 < length result.now → max < length result.now * word_bits }
    ensures plain { (v : ℕ) → v < room max → in_row result.now v ≡ is_set 1 (marks_in words.now max supported) v }
{
    if supported & 1 == 0 {
        &words[..0]
    } else {
        &words[..width(max)]
    }
}

/// The sum of the bits of the value's modifiers.
#[tactic(auto, using(crate::proofs::words::Sums::number_of_none, crate::proofs::words::Sums::sums_at))]
pub fn sum(words: &[u64], max: u16, supported: u8, value: u16) -> u8
    requires within { value < room max }
    requires rows { length words.now ≡ rows_below supported 8 * width max }
    ensures { result ≡ slice_index (sums_of words.now max supported) value }
{
    let i = usize::from(value / WORD_BITS);
    let mut sum = 0;
    for k in 0..8 {
        let digit = word(words, max, supported, k, i) >> (value % WORD_BITS) & 1;
        sum += (digit as u8) << k;
    }
    sum
}

/// Marks the value with each modifier of `bits`, or removes each from it.
#[tactic(auto, using(crate::proofs::words::ModifiersInTurn::bit_supported))]
pub fn turn_each(words: &mut [u64], max: u16, supported: u8, bits: u8, value: u16, on: bool)
    requires are_supported { bit_and supported bits ≡ bits }
    requires within { value < room max }
    requires rows { length words.old ≡ rows_below supported 8 * width max }
    ensures rows { length words.new ≡ length words.old }
    ensures turned { sums_of words.new max supported ≡ slice_set (sums_of words.old max supported) value (turned on (slice_index (sums_of words.old max supported) value) bits) }
    ensures past { NonePast words.old max → NonePast words.new max }
{
    for k in 0..8 {
        if bits >> k & 1 == 1 {
            turn(words, max, supported, k, value, on);
        }
    }
}

/// Marks `first`, `first + step` and so on up to `last` with modifier `k`, whose bit is 2 to the power `k`.
pub fn mark_steps(
    words: &mut [u64],
    max: u16,
    supported: u8,
    k: u8,
    first: u16,
    last: u16,
    step: u16,
)
    requires order { first ≤ last }
    requires within { last < room max }
    requires step { 0 < step }
    requires modifier { k < 8 }
    requires is_supported { bit_at supported k ≡ 1 }
    requires rows { length words.old ≡ rows_below supported 8 * width max }
    ensures rows { length words.new ≡ length words.old }
    ensures marked { Turns 1 (marks_in words.old max supported) (marks_in words.new max supported) (2 ^ k) (SteppedTo first last step) }
    ensures past { NonePast words.old max → NonePast words.new max }
{
    row::mark_steps(words, place(max, supported, k, 0), first, last, step);
}
