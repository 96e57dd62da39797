//! Texts that are written one after the other.
ghost use Rattle.std.specs.Prelude.{◌≡◌, ◌∷◌, ◌++◌, OnOk, is_err, true, false, if◌then◌else◌};
ghost use Rattle.croncheck_output.specs.Output.{WritesText, WritesApart, WritesItem, EndsItems, IsFlushed, written_of};

use std::io;
use std::io::Write;

/// A writer of texts, and whether it has refused one.
#[derive(Drop)]
pub struct Output<W> {
    out: W,
    // A text was set apart.
    is_begun: bool,
    is_refused: bool,
}

impl<W: Write> Output<W> {
    /// An output that writes to `out`, and has written nothing yet.
    pub fn new(out: W) -> Output<W>
        ensures out { result.out ≡ out }
        ensures begun { result.is_begun ≡ false }
        ensures refused { result.is_refused ≡ false }
    {
        Output {
            out,
            is_begun: false,
            is_refused: false,
        }
    }

    /// The writer that it writes to.
    pub fn out(&self) -> &W
        ensures { result.now ≡ self.now.out }
    {
        &self.out
    }

    /// Whether a call of the writer gave an error: nothing more can be written then.
    pub fn is_refused(&self) -> bool
        ensures { result ≡ self.now.is_refused }
    {
        self.is_refused
    }

    /// Writes a text as it is.
    ///
    /// The error is the writer's. It isn't known then how much of the text was written.
    pub fn write(&mut self, text: &str) -> io::Result<()>
        ensures written { OnOk result (WritesText text.now (written_of W.contents self.old) (written_of W.contents self.new)) }
        ensures refused { self.new.is_refused ≡ (if is_err result then true else self.old.is_refused) }
    {
        self.write_bytes(text.as_bytes())
    }

    /// Writes bytes as they are. The error is as that of `write`.
    pub fn write_bytes(&mut self, bytes: &[u8]) -> io::Result<()>
        ensures written { OnOk result (WritesText bytes.now (written_of W.contents self.old) (written_of W.contents self.new)) }
        ensures refused { self.new.is_refused ≡ (if is_err result then true else self.old.is_refused) }
    {
        let written = self.out.write_all(bytes);
        if written.is_err() {
            self.is_refused = true;
        }
        written
    }

    /// Writes a text, unless it is empty, with an empty line in front. The first text that is written so has none.
    ///
    /// The error is the writer's. It isn't known then how much of the text was written.
    #[tactic(auto, using(crate::proofs::Outputs::no_text, crate::proofs::Outputs::first_text, crate::proofs::Outputs::next_text))]
    pub fn write_apart(&mut self, text: &str) -> io::Result<()>
        ensures written { OnOk result (WritesApart text.now (written_of W.contents self.old) (written_of W.contents self.new)) }
        ensures refused { self.new.is_refused ≡ (if is_err result then true else self.old.is_refused) }
    {
        if text.is_empty() {
            return Ok(());
        }
        if self.is_begun {
            return self.write_next(text);
        }
        self.is_begun = true;
        self.write(text)
    }

    // Writes a text with an empty line in front.
    #[tactic(auto, using(crate::proofs::Outputs::text_put_after))]
    fn write_next(&mut self, text: &str) -> io::Result<()>
        ensures written { OnOk result (WritesText (10 ∷ text.now) (written_of W.contents self.old) (written_of W.contents self.new)) }
        ensures refused { self.new.is_refused ≡ (if is_err result then true else self.old.is_refused) }
    {
        match self.write("\n") {
            Ok(()) => self.write(text),
            Err(error) => Err(error),
        }
    }

    /// Writes a text as the next item of a list: `head` in front of the first, and `between` in front of any other.
    ///
    /// The error is the writer's. It isn't known then how much of the text was written.
    #[tactic(auto, using(crate::proofs::Outputs::first_item, crate::proofs::Outputs::next_item))]
    pub fn write_item(&mut self, head: &str, between: &str, text: &str) -> io::Result<()>
        ensures { OnOk result (WritesItem head.now between.now text.now (written_of W.contents self.old) (written_of W.contents self.new)) }
    {
        if self.is_begun {
            return self.write_both(between, text);
        }
        self.is_begun = true;
        self.write_both(head, text)
    }

    /// Writes `tail`, which ends a list of items. If the list has no item, `head` stands in front of it.
    ///
    /// The error is as that of `write_item`.
    pub fn end_items(&mut self, head: &str, tail: &str) -> io::Result<()>
        ensures { OnOk result (EndsItems head.now tail.now (written_of W.contents self.old) (written_of W.contents self.new)) }
    {
        if self.is_begun {
            return self.write(tail);
        }
        self.write_both(head, tail)
    }

    // Writes a text with another in front.
    #[tactic(auto, using(crate::proofs::Outputs::both_texts))]
    fn write_both(&mut self, front: &str, text: &str) -> io::Result<()>
        ensures { OnOk result (WritesText (front.now ++ text.now) (written_of W.contents self.old) (written_of W.contents self.new)) }
    {
        match self.write(front) {
            Ok(()) => self.write(text),
            Err(error) => Err(error),
        }
    }

    /// Flushes the writer, so that it passes on what was written.
    ///
    /// The error is the writer's. What was written stays as it was, with an error too.
    pub fn flush(&mut self) -> io::Result<()>
        ensures kept { IsFlushed (written_of W.contents self.old) (written_of W.contents self.new) }
        ensures refused { self.new.is_refused ≡ (if is_err result then true else self.old.is_refused) }
    {
        let flushed = self.out.flush();
        if flushed.is_err() {
            self.is_refused = true;
        }
        flushed
    }
}
