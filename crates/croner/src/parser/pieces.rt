//! Pieces of a text: its words with their places, cut once for a fault.

ghost use Rattle.std.specs.Prelude.{◌≡◌, ◌+◌, ◌<◌, ◌^◌, length, IfOk};
ghost use Rattle.croner.specs.Private.parser.Places.{AreItsWords};

use super::fault::Expected;
use std::alloc::{AllocError, Global};

/// A piece of a text, and the byte at which it begins there.
#[derive(Clone, Copy)]
pub struct Piece<'t> {
    pub text: &'t str,
    pub start: usize,
}

impl<'t> Piece<'t> {
    /// The byte after its last one.
    pub fn end(self) -> usize
        ensures { self.entry.start + length self.entry.text.now < 2 ^ 64 → result ≡ self.entry.start + length self.entry.text.now }
    {
        self.start.saturating_add(self.text.len())
    }

    /// This place, for a fault.
    pub fn finding(self, expected: Expected) -> Finding
        ensures starts { result.start ≡ self.entry.start }
        ensures ends { self.entry.start + length self.entry.text.now < 2 ^ 64 → result.end ≡ self.entry.start + length self.entry.text.now }
    {
        Finding {
            start: self.start,
            end: self.end(),
            expected,
        }
    }
}

/// What the second reading of a refused text found: the bytes from `start` to `end`, and what was expected there.
#[derive(Clone, Copy)]
pub struct Finding {
    pub start: usize,
    pub end: usize,
    pub expected: Expected,
}

/// The words of a text with their places.
pub fn words_of<'t>(alloc: Global, text: &'t str) -> Result<Vec<Piece<'t>>, AllocError>
    ensures { IfOk result (λ v. AreItsWords text.now v.items) }
{
    let mut words = Vec::with_capacity(alloc, 7)?;
    let mut from = 0;
    for word in text.split_whitespace() {
        let here = text[from..].trim_start();
        let start = text.len() - here.len();
        words.push(Piece { text: word, start })?;
        from = start + word.len();
    }
    Ok(words)
}
