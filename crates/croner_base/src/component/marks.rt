//! Marks of values, kept as rows of words: one row for each supported modifier, with one bit a value.

ghost use Rattle.std.specs.Prelude.{◌≡◌, ℕ, false, ◌+◌, ◌*◌, ◌^◌, ◌<◌, ◌≤◌, ◌==◌, length, bit_and, nat_lt, slice_index, IfOk, IsOk, MatchOption};
ghost use Rattle.std.specs.Int.{bit_at};
ghost use Rattle.croner_base.specs.Field.{room};
ghost use Rattle.croner_base.specs.Private.words.Kept.{words_of, rows_of, NonePast};
ghost use Rattle.croner_base.specs.Private.words.Marked.{Marked, is_set, set_at, unset_at, nothing_set, SteppedTo, Gains, Turns};
ghost use Rattle.croner_base.specs.Private.words.Next.{NoneFrom, IsLeast, NoneTo, IsGreatest};
ghost use Rattle.croner_base.specs.Private.words.Rows.{in_row, rows_below, sums_of, width};
ghost use Rattle.croner_base.specs.Private.words.Word.{word_bits};

use std::alloc::{AllocError, Global};
use std::fmt;
use std::marker::Model;
use words::{ALL_ROWS, MODIFIERS, UsedWords, WORD_BITS, copy_words, same_words};

mod compare;
mod count;
mod hash;
mod row;
mod rows;
mod steps;
mod words;

/// The modifiers with which each value from 0 to the maximum is marked. A maximum of 0 leaves no value.
///
/// Where a row is one word, the words are kept in place, with a row for each of the eight modifiers. Otherwise
/// they are in one allocation, with a row for each supported modifier. The one that isn't used is zero or empty,
/// so a clone copies both without asking which it is.
pub struct Marks {
    in_place: [u64; MODIFIERS],
    on_heap: Vec<u64>,
    is_in_place: bool,
    max: u16,
    supported: u8,
}

impl Model for Marks {
    ghost Value = { Marked };

    ghost view = { λ c. record { max = c.max; supported = c.supported; marks = sums_of (words_of c.is_in_place c.in_place c.on_heap.items) c.max (rows_of c.is_in_place c.supported) } };

    ghost invariant = { λ c. (length (words_of c.is_in_place c.in_place c.on_heap.items) ≡ rows_below (rows_of c.is_in_place c.supported) 8 * width c.max) × (c.is_in_place ≡ (width c.max == 1)) × NonePast c.in_place c.max };
}

// By hand, so that a function that drops marks calls this one.
impl Drop for Marks {
    fn drop(self) {
        let Marks {
            in_place: _,
            on_heap: _,
            is_in_place: _,
            max: _,
            supported: _,
        } = self;
    }
}

impl Marks {
    /// Nothing marked, with room for all marks.
    #[tactic(auto, using(crate::proofs::words::Sums::sums_none, crate::proofs::words::Sums::none_past_blank, crate::proofs::words::RowPlaces::one_each))]
    pub fn new(alloc: Global, max: u16, supported: u8) -> Result<Self, AllocError>
        ensures { IfOk result (λ m. m ≡ nothing_set max supported) }
    {
        let width = rows::width(max);
        if width == 1 {
            return Ok(Marks {
                in_place: [0; MODIFIERS],
                on_heap: Vec::new(alloc),
                is_in_place: true,
                max,
                supported,
            });
        }
        let on_heap = vec![in alloc; 0; usize::from(rows::rows(supported)) * width]?;
        Ok(Marks {
            in_place: [0; MODIFIERS],
            on_heap,
            is_in_place: false,
            max,
            supported,
        })
    }

    /// No value at all, and no modifier supported. Takes no memory.
    #[tactic(auto, using(crate::proofs::words::Sums::none_past_blank))]
    pub fn none(alloc: Global) -> Self
        ensures { result ≡ nothing_set 0 0 }
    {
        Marks {
            in_place: [0; MODIFIERS],
            on_heap: Vec::new(alloc),
            is_in_place: false,
            max: 0,
            supported: 0,
        }
    }

    /// The greatest value that may be marked.
    #[tactic(auto, using(crate::proofs::words::Sums::sums_long))]
    pub fn max(&self) -> u16
        ensures value { result ≡ self.now.max }
        ensures places { length self.now.marks ≡ room self.now.max }
    {
        self.max
    }

    /// The bits of the modifiers that are supported.
    pub fn features(&self) -> u8
        ensures { result ≡ self.now.supported }
    {
        self.supported
    }

    /// The same marks, in memory of the allocator; none is taken where a row has one word.
    #[inline(always)]
    pub fn copy(&self, alloc: Global) -> Result<Self, AllocError>
        ensures value { IfOk result (λ copy. copy ≡ self.now) }
        ensures in_place { width self.now.max ≡ 1 → IsOk result }
    {
        if self.is_in_place {
            return Ok(self.copy_in_place(alloc));
        }
        let on_heap = copy_words(alloc, &self.on_heap)?;
        Ok(Marks {
            in_place: same_words(&self.in_place),
            on_heap,
            is_in_place: self.is_in_place,
            max: self.max,
            supported: self.supported,
        })
    }

    /// The same marks, where the words stand in place. Takes no memory.
    #[inline(always)]
    pub fn copy_in_place(&self, alloc: Global) -> Self
        requires { width self.now.max ≡ 1 }
        ensures { result ≡ self.now }
    {
        Marks {
            in_place: same_words(&self.in_place),
            on_heap: Vec::new(alloc),
            is_in_place: true,
            max: self.max,
            supported: self.supported,
        }
    }

    /// Whether the value has one of the modifiers of `bits`.
    #[inline]
    pub fn is_set(&self, value: u16, bits: u8) -> bool
        requires { value < room self.now.max }
        ensures { result ≡ is_set bits self.now value }
    {
        self.values_with_any(bits, usize::from(value / WORD_BITS)) >> (value % WORD_BITS) & 1 == 1
    }

    /// Marks the value with each modifier of `bits`.
    pub fn set(&mut self, value: u16, bits: u8)
        requires within { value < room self.old.max }
        requires are_supported { bit_and self.old.supported bits ≡ bits }
        ensures { self.new ≡ set_at self.old value bits }
    {
        let (max, supported) = (self.max, self.supported);
        if self.is_in_place {
            rows::turn_each(&mut self.in_place, max, ALL_ROWS, bits, value, true);
        } else {
            rows::turn_each(&mut self.on_heap, max, supported, bits, value, true);
        }
    }

    /// Removes each modifier of `bits` from the value.
    pub fn unset(&mut self, value: u16, bits: u8)
        requires within { value < room self.old.max }
        requires are_supported { bit_and self.old.supported bits ≡ bits }
        ensures { self.new ≡ unset_at self.old value bits }
    {
        let (max, supported) = (self.max, self.supported);
        if self.is_in_place {
            rows::turn_each(&mut self.in_place, max, ALL_ROWS, bits, value, false);
        } else {
            rows::turn_each(&mut self.on_heap, max, supported, bits, value, false);
        }
    }

    /// Marks `first`, `first + step` and so on up to `last` with each modifier of `bits`.
    #[tactic(auto, using(crate::proofs::words::ModifiersInTurn::bit_supported))]
    pub fn set_steps(&mut self, first: u16, last: u16, step: u16, bits: u8)
        requires order { first ≤ last }
        requires within { last < room self.old.max }
        requires step { 0 < step }
        requires are_supported { bit_and self.old.supported bits ≡ bits }
        ensures { Gains self.old self.new bits (SteppedTo first last step) }
    {
        for k in 0..8 {
            if bits >> k & 1 == 1 {
                self.set_steps_of(first, last, step, k);
            }
        }
    }

    // Marks these values with modifier `k`, whose bit is 2 to the power `k`.
    #[tactic(auto, using(crate::proofs::words::RowPlaces::has_row))]
    fn set_steps_of(&mut self, first: u16, last: u16, step: u16, k: u8)
        requires order { first ≤ last }
        requires within { last < room self.old.max }
        requires step { 0 < step }
        requires modifier { k < 8 }
        requires is_supported { bit_at self.old.supported k ≡ 1 }
        ensures { Turns 1 self.old self.new (2 ^ k) (SteppedTo first last step) }
    {
        let (max, supported) = (self.max, self.supported);
        if self.is_in_place {
            rows::mark_steps(&mut self.in_place, max, ALL_ROWS, k, first, last, step);
        } else {
            rows::mark_steps(&mut self.on_heap, max, supported, k, first, last, step);
        }
    }

    /// The least plain value from the given one on.
    #[inline(always)]
    pub fn least_from(&self, value: u16) -> Option<u16>
        ensures { MatchOption result (NoneFrom (is_set 1 self.now) value) (λ least. IsLeast (is_set 1 self.now) value least) }
    {
        match row::least_from(self.plain_row(), value) {
            Some(least) if self.has(least) => Some(least),
            _ => None,
        }
    }

    /// The greatest plain value up to the given one.
    #[inline(always)]
    pub fn greatest_to(&self, value: u16) -> Option<u16>
        ensures { MatchOption result (NoneTo (is_set 1 self.now) value) (λ greatest. IsGreatest (is_set 1 self.now) value greatest) }
    {
        let row = self.plain_row();
        if row.is_empty() || self.max == 0 {
            return None;
        }
        row::greatest_to(row, value.min(self.max))
    }

    #[inline(always)]
    fn has(&self, value: u16) -> bool
        ensures { result ≡ nat_lt value (room self.now.max) }
    {
        value <= self.max && self.max != 0
    }

    #[inline(always)]
    #[tactic(auto, using(crate::proofs::words::PlainRow::none_past))]
    fn plain_row(&self) -> &[u64]
        ensures size { length result.now ≤ 1024 }
        ensures full { 0 < length result.now → self.now.max < length result.now * word_bits }
        ensures past { (v : ℕ) → room self.now.max ≤ v → is_set 1 self.now v ≡ false }
        ensures plain { (v : ℕ) → v < room self.now.max → in_row result.now v ≡ is_set 1 self.now v }
    {
        if self.is_in_place {
            rows::plain_row(&self.in_place, self.max, ALL_ROWS)
        } else {
            rows::plain_row(&self.on_heap, self.max, self.supported)
        }
    }

    #[inline(always)]
    #[tactic(auto, using(crate::proofs::words::Sums::sums_small, crate::proofs::words::Sums::word_shows))]
    fn word(&self, k: u8, i: usize) -> u64
        requires modifier { k < 8 }
        requires within { i < width self.now.max }
        ensures small { (v : ℕ) → slice_index self.now.marks v < 256 }
        ensures bits { (b : ℕ) → b < word_bits → i * word_bits + b < room self.now.max → bit_at result b ≡ bit_at (slice_index self.now.marks (i * word_bits + b)) k }
    {
        if self.is_in_place {
            rows::word(&self.in_place, self.max, ALL_ROWS, k, i)
        } else {
            rows::word(&self.on_heap, self.max, self.supported, k, i)
        }
    }
}

// The words that are used, not the unused ones.
impl fmt::Debug for Marks {
    fn fmt<W: fmt::Write>(&self, f: &mut fmt::Formatter<W>) -> fmt::Result {
        let words = if self.is_in_place {
            UsedWords::InPlace(&self.in_place)
        } else {
            UsedWords::OnHeap(&self.on_heap)
        };
        f.debug_struct("Marks")
            .field("words", &words)
            .field("max", &self.max)
            .field("supported", &self.supported)
            .finish()
    }
}
