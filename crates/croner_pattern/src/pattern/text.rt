//! The text that a pattern keeps.

ghost use Rattle.std.specs.Prelude.{◌≡◌, IfOk};

use arrayvec::ArrayString;
use std::alloc::{AllocError, Global};
use std::fmt;
use std::marker::Model;

/// The longest text that is kept in place, in bytes.
const LONGEST_IN_PLACE: usize = 48;

/// A text. Up to 48 bytes are kept in place and take no memory. A longer text is in `long`, which is
/// empty otherwise.
#[derive(Drop)]
pub struct Text {
    short: ArrayString<LONGEST_IN_PLACE>,
    long: String,
}

impl Model for Text {
    ghost use Rattle.std.specs.Prelude.{ℕ, List, length, ◌==◌, if◌then◌else◌, string_bytes};

    ghost Value = { List ℕ };

    ghost view = { λ t. if length (string_bytes t.long) == 0 then t.short.bytes else string_bytes t.long };
}

impl Text {
    /// Keeps the text.
    pub fn new(alloc: Global, text: &str) -> Result<Self, AllocError>
        ensures { IfOk result (λ kept. kept ≡ text.now) }
    {
        match ArrayString::from(text) {
            Ok(short) => Ok(Text {
                short,
                long: String::new(alloc),
            }),
            Err(_) => Ok(Text {
                short: ArrayString::new(),
                long: String::from_str(alloc, text)?,
            }),
        }
    }

    /// The text.
    pub fn as_str(&self) -> &str
        ensures { result.now ≡ self.now }
    {
        if self.long.is_empty() {
            self.short.as_str()
        } else {
            self.long.as_str()
        }
    }

    /// The same text, in memory of the allocator where it needs some.
    #[inline(always)]
    pub fn copy(&self, alloc: Global) -> Result<Self, AllocError>
        ensures { IfOk result (λ copy. copy ≡ self.now) }
    {
        let long = if self.long.is_empty() {
            String::new(alloc)
        } else {
            String::from_str(alloc, self.long.as_str())?
        };
        Ok(Text {
            short: self.short,
            long,
        })
    }
}

impl fmt::Debug for Text {
    fn fmt<W: fmt::Write>(&self, f: &mut fmt::Formatter<W>) -> fmt::Result {
        fmt::Debug::fmt(&self.as_str(), f)
    }
}
