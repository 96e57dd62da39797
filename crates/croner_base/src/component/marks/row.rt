//! One row of words: a set of values, one bit each.

ghost use Rattle.std.specs.Prelude.{◌≡◌, ◌∷◌, [], ◌+◌, ◌*◌, ◌/◌, ◌<◌, ◌≤◌, length, MatchOption};
ghost use Rattle.croner_base.specs.Private.words.Next.{NoneFrom, IsLeast, NoneTo, IsGreatest};
ghost use Rattle.croner_base.specs.Private.words.Rows.{in_row};
ghost use Rattle.croner_base.specs.Private.words.Masks.{MasksFrom, MasksTo, TurnsRow};
ghost use Rattle.croner_base.specs.Private.words.Marked.{Before, SteppedTo};
ghost use Rattle.croner_base.specs.Private.words.Word.{word_bits};

use super::steps::mark_each;
use super::words::WORD_BITS;

/// The least value of the row from the given one on.
#[inline(always)]
pub fn least_from(row: &[u64], value: u16) -> Option<u16>
    requires { length row.now ≤ 1024 }
    ensures { MatchOption result (NoneFrom (in_row row.now) value) (λ least. IsLeast (in_row row.now) value least) }
{
    if row.len() == 1 {
        least_in_word(row[0], value)
    } else {
        least_in_words(row, value)
    }
}

/// The least value of a row of one word from the given one on.
#[inline(always)]
fn least_in_word(word: u64, value: u16) -> Option<u16>
    ensures { MatchOption result (NoneFrom (in_row (word ∷ [])) value) (λ least. IsLeast (in_row (word ∷ [])) value least) }
{
    if value >= WORD_BITS {
        return None;
    }
    let rest = word & (u64::MAX << value);
    if rest == 0 {
        return None;
    }
    Some(rest.trailing_zeros() as u16)
}

/// The least value of a row of any length from the given one on.
#[inline(never)]
#[tactic(auto, using(crate::proofs::words::WordSearch::first_mask, crate::proofs::words::WordSearch::whole_from, crate::proofs::words::WordSearch::word_of_none))]
fn least_in_words(row: &[u64], value: u16) -> Option<u16>
    requires { length row.now ≤ 1024 }
    ensures { MatchOption result (NoneFrom (in_row row.now) value) (λ least. IsLeast (in_row row.now) value least) }
{
    let mut mask = u64::MAX << (value % WORD_BITS);
    for i in usize::from(value / WORD_BITS)..row.len() {
        let rest = row[i] & mask;
        if rest != 0 {
            return Some((i * WORD_BITS as usize + rest.trailing_zeros() as usize) as u16);
        }
        mask = u64::MAX;
    }
    None
}

/// The greatest value of the row up to the given one.
#[inline(always)]
pub fn greatest_to(row: &[u64], value: u16) -> Option<u16>
    requires { value < length row.now * word_bits }
    ensures { MatchOption result (NoneTo (in_row row.now) value) (λ greatest. IsGreatest (in_row row.now) value greatest) }
{
    if row.len() == 1 {
        greatest_in_word(row[0], value)
    } else {
        greatest_in_words(row, value)
    }
}

/// The greatest value of a row of one word up to the given one.
#[inline(always)]
fn greatest_in_word(word: u64, value: u16) -> Option<u16>
    requires { value < word_bits }
    ensures { MatchOption result (NoneTo (in_row (word ∷ [])) value) (λ greatest. IsGreatest (in_row (word ∷ [])) value greatest) }
{
    let rest = word & (u64::MAX >> (WORD_BITS - 1 - value));
    if rest == 0 {
        return None;
    }
    Some(WORD_BITS - 1 - rest.leading_zeros() as u16)
}

/// The greatest value of a row of any length up to the given one.
#[inline(never)]
#[tactic(auto, using(crate::proofs::words::WordSearch::last_mask, crate::proofs::words::WordSearch::whole_to, crate::proofs::words::WordSearch::word_of_none_down))]
fn greatest_in_words(row: &[u64], value: u16) -> Option<u16>
    requires { value < length row.now * word_bits }
    ensures { MatchOption result (NoneTo (in_row row.now) value) (λ greatest. IsGreatest (in_row row.now) value greatest) }
{
    let mut mask = u64::MAX >> (WORD_BITS - 1 - value % WORD_BITS);
    let mut i = usize::from(value / WORD_BITS) + 1;
    while i > 0 {
        i -= 1;
        let rest = row[i] & mask;
        if rest != 0 {
            return Some(
                (i * WORD_BITS as usize + (WORD_BITS as usize - 1)
                    - rest.leading_zeros() as usize) as u16,
            );
        }
        mask = u64::MAX;
    }
    None
}

/// The values from the given one on, in word `i`.
#[tactic(auto, using(crate::proofs::words::WordSearch::first_mask, crate::proofs::words::WordSearch::whole_from))]
pub fn mask_from(value: u16, i: usize) -> u64
    requires { value / word_bits ≤ i }
    ensures { MasksFrom result value i }
{
    if i == usize::from(value / WORD_BITS) {
        u64::MAX << (value % WORD_BITS)
    } else {
        u64::MAX
    }
}

/// The values up to the given one, in word `i`.
#[tactic(auto, using(crate::proofs::words::WordSearch::last_mask, crate::proofs::words::WordSearch::whole_to))]
pub fn mask_to(value: u16, i: usize) -> u64
    requires { i ≤ value / word_bits }
    ensures { MasksTo result value i }
{
    if i == usize::from(value / WORD_BITS) {
        u64::MAX >> (WORD_BITS - 1 - value % WORD_BITS)
    } else {
        u64::MAX
    }
}

/// Marks the values from `first` to `last` in the row whose first word is at `start`.
fn mark_between(words: &mut [u64], start: usize, first: u16, last: u16)
    requires order { first ≤ last }
    requires within { start + last / word_bits < length words.old }
    ensures rows { length words.new ≡ length words.old }
    ensures marked { TurnsRow 1 words.old words.new start (Before (λ v. first ≤ v) (last + 1)) }
{
    let from = usize::from(first / WORD_BITS);
    let to = usize::from(last / WORD_BITS);
    words[start + from] |= mask_from(first, from) & mask_to(last, from);
    // Every value of a word between the two lies in the range.
    if from < to {
        words[start + from + 1..start + to].fill(u64::MAX);
        words[start + to] |= mask_to(last, to);
    }
}

/// Marks `first`, `first + step` and so on up to `last` in the row whose first word is at `start`.
#[tactic(auto, using(crate::proofs::words::StepMasks::range_steps))]
pub fn mark_steps(words: &mut [u64], start: usize, first: u16, last: u16, step: u16)
    requires order { first ≤ last }
    requires step { 0 < step }
    requires within { start + last / word_bits < length words.old }
    ensures rows { length words.new ≡ length words.old }
    ensures marked { TurnsRow 1 words.old words.new start (SteppedTo first last step) }
{
    if step == 1 {
        mark_between(words, start, first, last);
    } else {
        mark_each(words, start, first, last, step);
    }
}
