//! The form of reports: a text for each line that there is something to tell of.
ghost use Rattle.std.specs.Prelude.{OnOk};
ghost use Rattle.croncheck_output.specs.Output.{written_of};
ghost use Rattle.croncheck_shown.specs.Reported.{WritesReport, WritesEnding};
ghost use Rattle.croncheck_reading.specs.Stand.{stand_of};

use crate::shown::report_text;
use croncheck_output::output::Output;
use croncheck_reading::form::Form;
use croncheck_reading::progress::{Line, Progress, Terms};
use croncheck_report::location::Location;
use croncheck_report::report::Report;
use std::io;
use std::io::Write;

/// Writes the report of each line, and what cron makes of each file as a whole.
#[derive(Clone, Copy, Drop)]
pub struct Reporter;

impl Form for Reporter {
    ghost use Rattle.std.specs.Prelude.{◌≡◌};
    ghost use Rattle.croncheck_shown.specs.Reported.{Tells, WritesEnding};

    ghost takes = { λ terms old y new. Tells terms.settings.now old.stand old.written y new.stand new.written };

    ghost ends_file = { λ terms reporter stand old new. WritesEnding terms.settings.now stand old new };

    ghost ends = { λ terms reporter old new. new ≡ old };

    fn take<W: Write>(
        &mut self,
        terms: &Terms<'_, '_>,
        progress: &mut Progress,
        line: Line<'_>,
        output: &mut Output<W>,
    ) -> io::Result<()> {
        let text = line.text;
        let report = progress.report(terms, line)?;
        write_report(terms, progress.place(), text, &report, output)
    }

    fn end_file<W: Write>(
        &self,
        terms: &Terms<'_, '_>,
        progress: &Progress,
        output: &mut Output<W>,
    ) -> io::Result<()> {
        write_ending(terms, progress, output)
    }

    fn end<W: Write>(&self, _terms: &Terms<'_, '_>, _output: &mut Output<W>) -> io::Result<()> {
        Ok(())
    }
}

/// Writes the text of the report of a line at a place. The line is given without its line feed. The
/// error is that of what is written to, or says that memory is lacking.
pub fn write_report<W: Write>(
    terms: &Terms<'_, '_>,
    place: Location<'_>,
    line: &[u8],
    report: &Report<'_, '_>,
    output: &mut Output<W>,
) -> io::Result<()>
    ensures { OnOk result (WritesReport terms.now.settings.now.look place.entry.file.now place.entry.line line.now report.now (written_of W.contents output.old) (written_of W.contents output.new)) }
{
    let look = terms.settings.look;
    let text = report_text(terms.alloc, look, terms.shared, place, line, report)?;
    output.write_apart(text.as_str())
}

/// Writes what cron makes of a file as a whole. The error is as that of `write_report`.
pub fn write_ending<W: Write>(
    terms: &Terms<'_, '_>,
    progress: &Progress,
    output: &mut Output<W>,
) -> io::Result<()>
    ensures { OnOk result (WritesEnding terms.now.settings.now (stand_of progress.now) (written_of W.contents output.old)
        (written_of W.contents output.new)) }
{
    let text = progress
        .file
        .ending(terms.alloc, terms.settings.dialect, progress.lines)?;
    output.write_apart(text.as_str())
}
