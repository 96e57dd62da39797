//! Marking each step of a range in a row, a word at a time.

ghost use Rattle.std.specs.Prelude.{◌≡◌, ◌+◌, ◌-◌, ◌*◌, ◌/◌, ◌%◌, ◌<◌, ◌≤◌, length};
ghost use Rattle.croner_base.specs.Private.words.Marked.{Before, Stepped, SteppedTo};
ghost use Rattle.croner_base.specs.Private.words.Masks.{MasksMultiples, StandsHigher, TurnsRow};
ghost use Rattle.croner_base.specs.Private.words.Word.{word_bits};

use super::row::mask_to;
use super::words::WORD_BITS;

/// How many values a word has.
const BITS: usize = WORD_BITS as usize;

/// Marks `first`, `first + step` and so on up to `last` in the row whose first word is at `start`.
pub fn mark_each(words: &mut [u64], start: usize, first: u16, last: u16, step: u16)
    requires order { first ≤ last }
    requires step { 0 < step }
    requires within { start + last / word_bits < length words.old }
    ensures rows { length words.new ≡ length words.old }
    ensures marked { TurnsRow 1 words.old words.new start (SteppedTo first last step) }
{
    let multiples = multiples(step);
    let from = usize::from(first / WORD_BITS);
    let to = usize::from(last / WORD_BITS);
    if from < to {
        let place = mark_words(words, start, first, to, step, multiples);
        words[start + to] |= higher(multiples, place) & mask_to(last, to);
    } else {
        let place = usize::from(first % WORD_BITS);
        words[start + from] |= higher(multiples, place) & mask_to(last, from);
    }
}

/// Marks `first`, `first + step` and so on in the words before word `to` of the row. Gives the place of the first
/// such value from that word on, counted from there.
fn mark_words(
    words: &mut [u64],
    start: usize,
    first: u16,
    to: usize,
    step: u16,
    multiples: u64,
) -> usize
    requires step { 0 < step }
    requires order { first / word_bits < to }
    requires within { start + to < length words.old }
    requires multiples { MasksMultiples multiples step }
    ensures rows { length words.new ≡ length words.old }
    ensures marked { TurnsRow 1 words.old words.new start (Before (Stepped first step) (to * word_bits)) }
    ensures first { result < step }
    ensures next { (to * word_bits + result) % step ≡ first % step }
{
    let from = usize::from(first / WORD_BITS);
    let place = usize::from(first % WORD_BITS);
    let step = usize::from(step);
    let rest = BITS % step;
    words[start + from] |= higher(multiples, place);
    let mut place = next_place(place % step, step, rest);
    for i in from + 1..to {
        words[start + i] |= higher(multiples, place);
        place = next_place(place, step, rest);
    }
    place
}

/// The place of the first step in the next word, by that in a word.
#[inline(always)]
#[tactic(auto, using(crate::proofs::words::StepMasks::place_back, crate::proofs::words::StepMasks::place_round, std::proofs::lemmas::Nat::mod_below))]
fn next_place(place: usize, step: usize, rest: usize) -> usize
    requires place { place < step }
    requires step { step < 65536 }
    requires rest { rest ≡ word_bits % step }
    ensures first { result < step }
    ensures next { (word_bits + result) % step ≡ place % step }
{
    if place < rest {
        place + step - rest
    } else {
        place - rest
    }
}

/// The bits of the multiples of a step.
#[tactic(auto, using(crate::proofs::words::StepMasks::found_first, crate::proofs::words::StepMasks::found_more, crate::proofs::words::StepMasks::found_all))]
fn multiples(step: u16) -> u64
    requires { 0 < step }
    ensures { MasksMultiples result step }
{
    let mut found = 1;
    let mut by = usize::from(step);
    while by < BITS {
        found |= found << by;
        by *= 2;
    }
    found
}

/// The bits of a word, so many places higher.
#[inline(always)]
#[tactic(auto, using(crate::proofs::words::StepMasks::stands_higher, crate::proofs::words::StepMasks::none_higher))]
fn higher(word: u64, by: usize) -> u64
    ensures { StandsHigher result word by }
{
    if by < BITS { word << by } else { 0 }
}
