//! The hash of marks: for each supported modifier its set, word by word.

ghost use Rattle.std.specs.Prelude.{◌≡◌, ◌*◌, ◌<◌, fold};
ghost use Rattle.croner_base.specs.Private.words.Rows.{width};
ghost use Rattle.croner_base.specs.Written.{digits_of, set_writes, sets_writes};
ghost use Rattle.croner_base.specs.Private.words.Word.{word_bits};

use super::Marks;
use super::row::mask_to;
use super::rows::width;
use std::hash::{Hash, Hasher};

impl Marks {
    /// Feeds the set of each supported modifier.
    pub fn hash_sets<H: Hasher>(&self, state: &mut H)
        ensures { state.new ≡ fold H.write state.old (sets_writes self.now.marks self.now.max self.now.supported) }
    {
        for k in 0..8 {
            if self.supported >> k & 1 == 1 {
                self.hash_set(k, state);
            }
        }
    }

    #[tactic(auto, unfolding(crate::specs::Written::set_writes))]
    fn hash_set<H: Hasher>(&self, k: u8, state: &mut H)
        requires { k < 8 }
        ensures { state.new ≡ fold H.write state.old (set_writes self.now.marks (width self.now.max) k) }
    {
        for i in 0..width(self.max) {
            self.digits(k, i).hash(state);
        }
    }

    // Word i of modifier k, without the bits past the maximum.
    #[tactic(auto, using(crate::proofs::words::Hashing::masked_digits, crate::proofs::words::Sums::sums_long))]
    fn digits(&self, k: u8, i: usize) -> u64
        requires modifier { k < 8 }
        requires within { i < width self.now.max }
        ensures { result ≡ digits_of self.now.marks k (i * word_bits) word_bits }
    {
        self.word(k, i) & mask_to(self.max, i)
    }
}
