//! The form of annotations: a line for each finding, as a build reads it.
ghost use Rattle.std.specs.Prelude.{◌≡◌, OnOk};
ghost use Rattle.croncheck_forms.specs.Annotations.{AnnotatesFile, WritesLine, WritesLines};
ghost use Rattle.croncheck_output.specs.Output.{written_of};
ghost use Rattle.croncheck_reading.specs.Stand.{stand_of};

pub mod annotation;
pub mod escapes;

use annotation::annotation;
use croncheck_findings::findings::of_file::{findings_of_file, last_line};
use croncheck_findings::findings::{Finding, findings_of};
use croncheck_output::output::Output;
use croncheck_reading::form::Form;
use croncheck_reading::progress::{Line, Progress, Terms};
use croncheck_report::location::Location;
use std::io;
use std::io::Write;

/// How annotations are written.
#[derive(Clone, Copy, Drop)]
pub enum Style {
    /// `FILE:LINE:COLUMN: warning: TEXT [NAME]`, as compilers write them, and editors read them.
    Gcc,
    /// `::warning file=FILE,line=LINE,..::TEXT`, a command of a GitHub workflow.
    Github,
}

/// Writes an annotation for each finding of each line, and after these for each finding of the file. Of a good line it writes
/// nothing.
#[derive(Clone, Copy, Drop)]
pub struct Annotator {
    pub style: Style,
}

impl Form for Annotator {
    ghost use Rattle.std.specs.Prelude.{◌≡◌};
    ghost use Rattle.croncheck_forms.specs.Annotations.{Annotates, AnnotatesFile};

    ghost takes = { λ terms old y new. Annotates old.form.style terms.settings.now old.stand old.written y new.stand new.written × (new.form ≡ old.form) };

    ghost ends_file = { λ terms annotator stand old new. AnnotatesFile annotator.style terms.settings.now stand old new };

    ghost ends = { λ terms annotator old new. new ≡ old };

    #[tactic(auto, using(crate::proofs::Annotated::line_annotated))]
    fn take<W: Write>(
        &mut self,
        terms: &Terms<'_, '_>,
        progress: &mut Progress,
        line: Line<'_>,
        output: &mut Output<W>,
    ) -> io::Result<()> {
        let text = line.text;
        let report = progress.report(terms, line)?;
        let found = findings_of(terms.alloc, text, &report)?;
        write_lines(
            terms,
            self.style,
            progress.place(),
            found.as_slice(),
            output,
        )
    }

    fn end_file<W: Write>(
        &self,
        terms: &Terms<'_, '_>,
        progress: &Progress,
        output: &mut Output<W>,
    ) -> io::Result<()> {
        write_file(terms, self.style, progress, output)
    }

    fn end<W: Write>(&self, _terms: &Terms<'_, '_>, _output: &mut Output<W>) -> io::Result<()> {
        Ok(())
    }
}

// Writes the annotations of a file as a whole.
#[tactic(auto, using(crate::proofs::Annotated::file_annotated))]
fn write_file<W: Write>(
    terms: &Terms<'_, '_>,
    style: Style,
    progress: &Progress,
    output: &mut Output<W>,
) -> io::Result<()>
    ensures { OnOk result (AnnotatesFile style terms.now.settings.now (stand_of progress.now) (written_of W.contents output.old) (written_of W.contents output.new)) }
{
    let found = findings_of_file(
        terms.alloc,
        terms.settings.dialect,
        progress.lines,
        &progress.file,
    )?;
    let place = Location {
        file: progress.file.name(),
        line: last_line(progress.lines),
    };
    write_lines(terms, style, place, found.as_slice(), output)
}

// Writes the annotations of findings at a line, in order.
fn write_lines<W: Write>(
    terms: &Terms<'_, '_>,
    style: Style,
    place: Location<'_>,
    found: &[Finding],
    output: &mut Output<W>,
) -> io::Result<()>
    ensures { OnOk result (WritesLines style place.entry.file.now place.entry.line found.now (written_of W.contents output.old) (written_of W.contents output.new)) }
{
    for k in 0..found.len() {
        write_line(terms, style, place, &found[k], output)?;
    }
    Ok(())
}

fn write_line<W: Write>(
    terms: &Terms<'_, '_>,
    style: Style,
    place: Location<'_>,
    finding: &Finding,
    output: &mut Output<W>,
) -> io::Result<()>
    ensures { OnOk result (WritesLine style place.entry.file.now place.entry.line (written_of W.contents output.old) finding.now (written_of W.contents output.new)) }
{
    let line = annotation(terms.alloc, style, place, finding)?;
    output.write_bytes(line.as_slice())
}
