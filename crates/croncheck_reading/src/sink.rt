//! What takes the lines of files and tells of them in a form.
ghost use Rattle.std.specs.Prelude.{◌≡◌, false, OnOk, IfSome};
ghost use Rattle.croncheck_output.specs.Output.{IsFlushed};
ghost use Rattle.croncheck_output.specs.Builds.{path_shown};
ghost use Rattle.croncheck_reading.specs.Sink.{State, StandsAtBegin, state_of, Ends, IsToldFile, IsPassedOver};
ghost use Rattle.croncheck_reading.specs.Stand.{stand_of, end_of_file};

use crate::form::Form;
use crate::progress::{Line, Progress, Terms};
use croncheck_files::fitness::Unfit;
use croncheck_output::builds::path_text;
use croncheck_output::output::Output;
use crontab::check::{Entries, check};
use crontab::line::{Dialect, Entry};
use std::io;
use std::io::{BufRead, Write};

/// Takes the lines of files, one file after the other, and tells of them in a form.
pub struct Sink<'s, 't, F, W> {
    // The terms of the file that is read.
    terms: Terms<'s, 't>,
    pub(crate) progress: Progress,
    form: F,
    output: Output<W>,
}

// By hand, so that a function that lets one go calls this one: its proof doesn't go through the fields at each exit.
impl<F: Drop, W: Drop> Drop for Sink<'_, '_, F, W> {
    fn drop(self) {
        let Sink {
            terms: _,
            progress: _,
            form: _,
            output: _,
        } = self;
    }
}

impl<'s, 't, F: Form, W: Write> Sink<'s, 't, F, W> {
    /// A sink that writes to `out`, and has taken no line yet. The terms are those of the first file.
    pub fn new(terms: Terms<'s, 't>, form: F, out: W) -> Sink<'s, 't, F, W>
        ensures terms { result.terms ≡ terms.entry }
        ensures begin { StandsAtBegin (stand_of result.progress) }
        ensures form { result.form ≡ form }
        ensures out { result.output.out ≡ out }
        ensures begun { result.output.is_begun ≡ false }
        ensures refused { result.output.is_refused ≡ false }
    {
        Sink {
            terms,
            progress: Progress::new(terms.alloc),
            form,
            output: Output::new(out),
        }
    }

    /// The form, with what it took of the lines.
    pub fn form(&self) -> &F
        ensures { result.now ≡ self.now.form }
    {
        &self.form
    }

    /// The writer that it writes to.
    pub fn out(&self) -> &W
        ensures { result.now ≡ self.now.output.out }
    {
        self.output.out()
    }

    /// Whether a call of the writer gave an error: nothing more can be written then.
    pub fn is_refused(&self) -> bool
        ensures { result ≡ self.now.output.is_refused }
    {
        self.output.is_refused()
    }

    /// Takes the lines of the next file, by these terms, and writes what stands at the file's end. `unfit` is why cron ignores the file by
    /// what the file system says of it, if it does.
    ///
    /// The error is that of the reader or of the writer, or says that memory is lacking.
    pub fn read<R: BufRead>(
        &mut self,
        terms: Terms<'s, 't>,
        name: &str,
        unfit: Option<Unfit>,
        reader: &mut R,
    ) -> io::Result<()>
        ensures { OnOk result (IfSome (R.remaining reader.old) (λ text.
            IsToldFile (F.takes terms.entry) (F.ends_file terms.entry) terms.entry.settings.now.dialect (path_shown name.now) unfit text
            (state_of W.contents self.old.form self.old.progress self.old.output) (state_of W.contents self.new.form self.new.progress self.new.output))) }
    {
        self.terms = terms;
        let name = path_text(terms.alloc, name.as_bytes())?;
        self.progress.begin(name, unfit);
        check(terms.alloc, terms.settings.dialect, reader, self)?;
        self.form
            .end_file(&terms, &self.progress, &mut self.output)?;
        count_file(&mut self.progress, terms.settings.dialect);
        Ok(())
    }

    /// Tells of a file that cron passes over for its name: none of its lines is read.
    ///
    /// The error is that of the writer, or says that memory is lacking.
    pub fn pass_over(&mut self, terms: Terms<'s, 't>, name: &str) -> io::Result<()>
        ensures { OnOk result (IsPassedOver (F.ends_file terms.entry) terms.entry.settings.now.dialect (path_shown name.now)
            (state_of W.contents self.old.form self.old.progress self.old.output) (state_of W.contents self.new.form self.new.progress self.new.output)) }
    {
        let name = path_text(terms.alloc, name.as_bytes())?;
        self.progress.begin_passed_over(name);
        self.form
            .end_file(&terms, &self.progress, &mut self.output)?;
        count_file(&mut self.progress, terms.settings.dialect);
        Ok(())
    }

    /// Writes what stands after all files, by these terms, and flushes the writer.
    ///
    /// The error is that of the writer, or says that memory is lacking.
    pub fn end(&mut self, terms: Terms<'s, 't>) -> io::Result<()>
        ensures { OnOk result ((ended : State F)
            × Ends (F.ends terms.entry) (state_of W.contents self.old.form self.old.progress self.old.output) ended
            × Ends (λ form. IsFlushed) ended (state_of W.contents self.new.form self.new.progress self.new.output)) }
    {
        self.form.end(&terms, &mut self.output)?;
        self.output.flush()
    }
}

// Counts the file whose end was told, if cron ignores it as a whole or for its name.
fn count_file(progress: &mut Progress, dialect: Dialect)
    ensures { stand_of progress.new ≡ end_of_file dialect (stand_of progress.old) }
{
    let is_ignored = progress.file.is_ignored(dialect, progress.lines);
    let is_name_warned = progress.file.has_warned_name(dialect);
    progress.tally.end_file(is_ignored, is_name_warned);
}

impl<'s, 't, F: Form, W: Write> Entries for Sink<'s, 't, F, W> {
    ghost use Rattle.std.specs.Prelude.{◌≡◌};
    ghost use Rattle.croncheck_reading.specs.Sink.{state_of};

    ghost takes = { λ old y new. F.takes old.terms (state_of W.contents old.form old.progress old.output) y
        (state_of W.contents new.form new.progress new.output) × (new.terms ≡ old.terms) };

    fn take(&mut self, line: &[u8], entry: Entry<'_>, is_fed: bool) -> io::Result<()> {
        let line = Line {
            text: line,
            entry,
            is_fed,
        };
        self.form
            .take(&self.terms, &mut self.progress, line, &mut self.output)
    }
}
