//! The writers to which an answer is written.
ghost use Rattle.std.specs.Prelude.{◌≡◌};
ghost use Rattle.cronrun_command.specs.Output.{Delivers};

use std::fmt::Display;
use std::io;
use std::io::Write;

/// A writer to which an answer is written: every [`Write`].
///
/// The contracts of its calls are stated by relations of this trait. So nothing but a call of `write_text` or `flush_text` can show
/// that a writer whose type is a parameter took a text, passed it on, or failed.
pub trait Output {
    ghost use Rattle.std.specs.Prelude.{ℕ, List, Option, Result, IfSome};
    ghost use Rattle.std.specs.Fmt.{with_newline};
    ghost use Rattle.std.specs.declared.io.Error.{Error};
    ghost use Rattle.cronrun_command.specs.Output.{Takes, PassesOn};

    /// The bytes that it holds, where they are known.
    ghost contents: { Self → Option (List ℕ) };

    /// What a write of these bytes returns, and the state that it leaves.
    ghost writes: { Self → List ℕ → Result (Unit {0}) Error → Self → Type 0 };

    /// What a flush returns, and the state that it leaves.
    ghost flushes: { Self → Result (Unit {0}) Error → Self → Type 0 };

    /// Writes a text.
    fn write_text(&mut self, text: &str) -> io::Result<()>
        ensures { Takes contents writes self.old text.now result self.new };

    /// Writes a value's text as a line.
    fn write_line<D: Display + Drop>(&mut self, line: D) -> io::Result<()>
        ensures { IfSome (with_newline (D.output line))
            (λ text. Takes contents writes self.old text result self.new) };

    /// Flushes the writer: it passes on what was written.
    fn flush_text(&mut self) -> io::Result<()>
        ensures { PassesOn contents flushes self.old result self.new };
}

impl<W: Write> Output for W {
    ghost use Rattle.std.specs.Prelude.{⊤};

    ghost contents = { W.contents };

    ghost writes = { λ _ _ _ _. ⊤ };

    ghost flushes = { λ _ _ _. ⊤ };

    fn write_text(&mut self, text: &str) -> io::Result<()> {
        self.write_all(text.as_bytes())
    }

    fn write_line<D: Display + Drop>(&mut self, line: D) -> io::Result<()> {
        writeln!(self, "{line}")
    }

    fn flush_text(&mut self) -> io::Result<()> {
        self.flush()
    }
}

/// Writes a text, and flushes the writer. The error is the writer's own, unchanged.
pub fn deliver<O: Output>(text: &str, out: &mut O) -> io::Result<()>
    ensures { Delivers O.contents O.writes O.flushes out.old text.now result out.new }
{
    match out.write_text(text) {
        Ok(()) => out.flush_text(),
        Err(error) => Err(error),
    }
}
