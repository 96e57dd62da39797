//! The order of marks: the least value whose modifiers differ decides. The lesser is that with the
//! lesser sum of the bits of this value's modifiers.

ghost use Rattle.std.specs.Prelude.{◌≡◌, ◌<◌, length, slice_index, IsTrue, MatchOption};
ghost use Rattle.std.specs.Cmp.Lexicographic.{slice_cmp};
ghost use Rattle.std.specs.Ordering.{nat_cmp};
ghost use Rattle.croner_base.specs.Private.words.Differences.{SameSums, IsFirstDifference, ShowsDifferences};
ghost use Rattle.croner_base.specs.Field.{room};
ghost use Rattle.croner_base.specs.Private.words.Rows.{width};

use super::words::{ALL_ROWS, WORD_BITS, are_same};
use super::{Marks, rows};
use std::cmp::Ordering;

impl Marks {
    /// Compares the modifiers of each value from 0 on, by the sum of their bits. Where one ends
    /// first, it is the lesser.
    #[tactic(auto, using(crate::proofs::words::Differing::cmp_at, crate::proofs::words::Differing::cmp_lengths))]
    pub fn cmp_marks(&self, other: &Marks) -> Ordering
        ensures { result ≡ slice_cmp nat_cmp self.now.marks other.now.marks }
    {
        match self.first_difference(other) {
            Some(value) => self.sum(value).cmp(&other.sum(value)),
            None => self.len().cmp(&other.len()),
        }
    }

    #[tactic(auto, using(crate::proofs::words::Sums::sums_long))]
    fn len(&self) -> usize
        ensures room { result ≡ room self.now.max }
        ensures marks { result ≡ length self.now.marks }
    {
        rows::room(self.max)
    }

    #[tactic(auto, using(crate::proofs::words::Sums::sums_long))]
    fn sum(&self, value: u16) -> u8
        requires { value < room self.now.max }
        ensures within { value < length self.now.marks }
        ensures value { result ≡ slice_index self.now.marks value }
    {
        if self.is_in_place {
            rows::sum(&self.in_place, self.max, ALL_ROWS, value)
        } else {
            rows::sum(&self.on_heap, self.max, self.supported, value)
        }
    }

    #[tactic(auto, using(crate::proofs::words::Differing::same_more, crate::proofs::words::Differing::same_first))]
    fn first_difference(&self, other: &Marks) -> Option<u16>
        ensures { MatchOption result (SameSums self.now other.now) (λ value. IsFirstDifference self.now other.now value) }
    {
        if self.is_same(other) {
            return None;
        }
        let shared = rows::width(self.max).min(rows::width(other.max));
        for i in 0..shared {
            let found = self.differences(other, i);
            if found != 0 {
                let value = (i * WORD_BITS as usize + found.trailing_zeros() as usize) as u16;
                return if self.has(value) && other.has(value) {
                    Some(value)
                } else {
                    None
                };
            }
        }
        None
    }

    /// Whether both keep the same words for the same values and modifiers.
    #[inline(always)]
    pub fn is_same(&self, other: &Marks) -> bool
        ensures { IsTrue result → self.now ≡ other.now }
    {
        self.max == other.max
            && self.supported == other.supported
            && self.is_in_place == other.is_in_place
            && are_same(&self.in_place, &other.in_place)
            && are_same(&self.on_heap, &other.on_heap)
    }

    #[tactic(auto, using(crate::proofs::words::Differing::shows_more, crate::proofs::words::Differing::shows_all))]
    fn differences(&self, other: &Marks, i: usize) -> u64
        requires here { i < width self.now.max }
        requires there { i < width other.now.max }
        ensures { ShowsDifferences self.now other.now i result }
    {
        let mut found = 0;
        for k in 0..8 {
            found |= self.word(k, i) ^ other.word(k, i);
        }
        found
    }
}
