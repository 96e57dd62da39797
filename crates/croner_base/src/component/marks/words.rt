//! The words of the rows.

ghost use Rattle.std.specs.Prelude.{◌≡◌, IsTrue, IfOk};

use std::alloc::{AllocError, Global};

/// How many values a word has, one bit each.
pub const WORD_BITS: u16 = u64::BITS as u16;

/// How many modifiers there are, and so the most rows.
pub const MODIFIERS: usize = 8;

/// The bits of all modifiers.
pub const ALL_ROWS: u8 = 255;

/// The words that are used, as `Debug` shows them.
#[derive(Debug, Drop)]
pub enum UsedWords<'a> {
    InPlace(&'a [u64]),
    OnHeap(&'a [u64]),
}

/// The same words, copied one by one: so they move through registers, without a temporary copy in memory.
#[inline(always)]
pub fn same_words(words: &[u64; MODIFIERS]) -> [u64; MODIFIERS]
    ensures { result ≡ words.now }
{
    let [a, b, c, d, e, f, g, h] = *words;
    [a, b, c, d, e, f, g, h]
}

/// The same words, in memory of the allocator; no word takes none.
#[inline(always)]
pub fn copy_words(alloc: Global, words: &[u64]) -> Result<Vec<u64>, AllocError>
    ensures { IfOk result (λ copy. copy.items ≡ words.now) }
{
    if words.is_empty() {
        return Ok(Vec::new(alloc));
    }
    copy_to_heap(alloc, words)
}

// Apart, so that the clone of a field in place doesn't contain its code.
#[inline(never)]
fn copy_to_heap(alloc: Global, words: &[u64]) -> Result<Vec<u64>, AllocError>
    ensures { IfOk result (λ copy. copy.items ≡ words.now) }
{
    Vec::from_slice(alloc, words)
}

/// Whether the words are the same. All are compared, so that several can be compared at once.
#[inline(always)]
#[tactic(auto, using(crate::proofs::words::Differing::same_one_more, crate::proofs::words::Differing::same_lists))]
pub fn are_same(words: &[u64], others: &[u64]) -> bool
    ensures { IsTrue result → words.now ≡ others.now }
{
    if words.len() != others.len() {
        return false;
    }
    let mut differing = 0;
    for i in 0..words.len() {
        differing |= words[i] ^ others[i];
    }
    differing == 0
}
