//! Counting and listing marked values word by word.

ghost use Rattle.std.specs.Prelude.{◌≡◌, ℕ, ◌+◌, ◌/◌, ◌<◌, ◌≤◌, ◌==◌, ◌++◌, length, IfOk, OnOk};
ghost use Rattle.std.specs.Int.{bit_at};
ghost use Rattle.croner_base.specs.Private.words.Counts.{ShowsMarked, ShowsFrom, marked_from, values_in};
ghost use Rattle.croner_base.specs.Private.words.Marked.{is_set};
ghost use Rattle.croner_base.specs.Private.words.Rows.{width};
ghost use Rattle.croner_base.specs.Private.words.Word.{word_bits};

use super::row::{mask_from, mask_to};
use super::rows::width;
use super::words::{ALL_ROWS, WORD_BITS};
use super::{Marks, rows};
use crate::component::ALL_BIT;
use std::alloc::{AllocError, Global};

impl Marks {
    /// How many values from the given one on have one of the modifiers of `bits`.
    #[inline(always)]
    #[tactic(auto, using(crate::proofs::words::Counting::count_only))]
    pub fn count_from(&self, first: u16, bits: u8) -> usize
        ensures { result ≡ length (marked_from first bits self.now) }
    {
        if width(self.max) == 1 && first < WORD_BITS {
            return self.values_marked_from(first, bits, 0).count_ones() as usize;
        }
        let mut count = 0;
        for i in usize::from(first / WORD_BITS)..width(self.max) {
            count += self.values_marked_from(first, bits, i).count_ones() as usize;
        }
        count
    }

    /// The values from the given one on that have one of the modifiers of `bits`, in ascending order.
    #[tactic(auto, using(crate::proofs::words::Counting::list_step))]
    pub fn list_from(&self, alloc: Global, first: u16, bits: u8) -> Result<Vec<u16>, AllocError>
        ensures { IfOk result (λ values. values.items ≡ marked_from first bits self.now) }
    {
        let mut values = Vec::with_capacity(alloc, self.count_from(first, bits))?;
        for i in usize::from(first / WORD_BITS)..width(self.max) {
            push_values(&mut values, self.values_marked_from(first, bits, i), i)?;
        }
        Ok(values)
    }

    /// The first 64 values that have one of the modifiers of `bits`, as a word.
    #[inline(always)]
    #[tactic(auto, using(crate::proofs::words::Counting::eight_shown))]
    pub fn low_word(&self, bits: u8) -> u64
        ensures { (v : ℕ) → v < word_bits → (bit_at result v == 1) ≡ is_set bits self.now v }
    {
        if self.is_in_place {
            return rows::values_of_eight(&self.in_place, self.max, bits);
        }
        if self.max() == 0 {
            return 0;
        }
        self.values_marked_from(0, bits, 0)
    }

    // The values of word `i`, from the given one on, that have one of the modifiers of `bits`.
    #[inline(always)]
    #[tactic(auto, using(crate::proofs::words::Counting::shows_from))]
    fn values_marked_from(&self, first: u16, bits: u8, i: usize) -> u64
        requires here { i < width self.now.max }
        requires from { first / word_bits ≤ i }
        ensures { ShowsFrom self.now bits first i result }
    {
        self.values_with_any(bits, i) & mask_from(first, i) & mask_to(self.max, i)
    }

    /// The values of word `i` that have one of the modifiers of `bits`. Bits past the maximum say nothing.
    #[inline(always)]
    pub(super) fn values_with_any(&self, bits: u8, i: usize) -> u64
        requires { i < width self.now.max }
        ensures { ShowsMarked self.now bits i result }
    {
        if bits == ALL_BIT {
            return self.word(0, i);
        }
        if self.is_in_place {
            rows::values_with_any(&self.in_place, self.max, ALL_ROWS, bits, i)
        } else {
            rows::values_with_any(&self.on_heap, self.max, self.supported, bits, i)
        }
    }
}

#[tactic(auto, using(crate::proofs::words::Counting::values_all))]
fn push_values(values: &mut Vec<u16>, word: u64, i: usize) -> Result<(), AllocError>
    requires { i < 1024 }
    ensures { OnOk result (values.new.items ≡ values.old.items ++ values_in word i) }
{
    for b in 0..WORD_BITS {
        if word >> b & 1 == 1 {
            values.push(i as u16 * WORD_BITS + b)?;
        }
    }
    Ok(())
}
