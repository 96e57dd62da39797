//! A form that counts the files and the lines that it is handed.

use croncheck_output::output::Output;
use croncheck_reading::form::Form;
use croncheck_reading::progress::{Line, Progress, Terms};
use std::cell::Cell;
use std::io;
use std::io::Write;

/// A form, with how many files and lines it was handed.
#[derive(Drop)]
pub struct Counted<F> {
    form: F,
    // Nothing is said at the end where no file was read.
    needs_file: bool,
    files: Cell<u64>,
    lines: Cell<u64>,
}

impl<F> Counted<F> {
    /// A form to which no file was handed yet.
    pub fn new(form: F, needs_file: bool) -> Counted<F> {
        Counted {
            form,
            needs_file,
            files: Cell::new(0),
            lines: Cell::new(0),
        }
    }

    /// The form.
    pub fn form(&self) -> &F {
        &self.form
    }

    /// How many files were read to their ends, or passed over for their names.
    pub fn files(&self) -> u64 {
        self.files.get()
    }

    /// How many lines these have, the blank ones among them.
    pub fn lines(&self) -> u64 {
        self.lines.get()
    }
}

impl<F: Form + Drop> Form for Counted<F> {
    ghost takes = { λ terms old y new. Unit {0} };

    ghost ends_file = { λ terms counted stand old new. Unit {0} };

    ghost ends = { λ terms counted old new. Unit {0} };

    fn take<W: Write>(
        &mut self,
        terms: &Terms<'_, '_>,
        progress: &mut Progress,
        line: Line<'_>,
        output: &mut Output<W>,
    ) -> io::Result<()> {
        self.form.take(terms, progress, line, output)
    }

    fn end_file<W: Write>(
        &self,
        terms: &Terms<'_, '_>,
        progress: &Progress,
        output: &mut Output<W>,
    ) -> io::Result<()> {
        self.files.set(progress.files);
        self.lines
            .set(self.lines.get().saturating_add(progress.lines));
        self.form.end_file(terms, progress, output)
    }

    fn end<W: Write>(&self, terms: &Terms<'_, '_>, output: &mut Output<W>) -> io::Result<()> {
        if self.needs_file && self.files.get() == 0 {
            return Ok(());
        }
        self.form.end(terms, output)
    }
}
