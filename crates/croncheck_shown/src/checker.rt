//! The form of a check: a text for each line of which something is found.
ghost use Rattle.std.specs.Prelude.{OnOk};
ghost use Rattle.croncheck_output.specs.Output.{written_of};
ghost use Rattle.croncheck_shown.specs.Reported.{WritesFinding};

use crate::reporter::write_ending;
use crate::shown::found::finding_of;
use croncheck_output::output::Output;
use croncheck_reading::form::Form;
use croncheck_reading::progress::{Line, Progress, Terms};
use croncheck_report::location::Location;
use croncheck_report::report::Report;
use std::io;
use std::io::Write;

/// Writes what is found of each line, and what cron makes of each file as a whole. Of a good line it writes nothing.
#[derive(Clone, Copy, Drop)]
pub struct Checker;

impl Form for Checker {
    ghost use Rattle.std.specs.Prelude.{◌≡◌};
    ghost use Rattle.croncheck_shown.specs.Reported.{TellsFound, WritesEnding};

    ghost takes = { λ terms old y new. TellsFound terms.settings.now old.stand old.written y new.stand new.written };

    ghost ends_file = { λ terms checker stand old new. WritesEnding terms.settings.now stand old new };

    ghost ends = { λ terms checker old new. new ≡ old };

    fn take<W: Write>(
        &mut self,
        terms: &Terms<'_, '_>,
        progress: &mut Progress,
        line: Line<'_>,
        output: &mut Output<W>,
    ) -> io::Result<()> {
        let text = line.text;
        let report = progress.report(terms, line)?;
        write_finding(terms, progress.place(), text, &report, output)
    }

    fn end_file<W: Write>(
        &self,
        terms: &Terms<'_, '_>,
        progress: &Progress,
        output: &mut Output<W>,
    ) -> io::Result<()> {
        write_ending(terms, progress, output)
    }

    fn end<W: Write>(&self, _terms: &Terms<'_, '_>, _output: &mut Output<W>) -> io::Result<()> {
        Ok(())
    }
}

// Writes what is found of a line at a place. The line is given without its line feed.
fn write_finding<W: Write>(
    terms: &Terms<'_, '_>,
    place: Location<'_>,
    line: &[u8],
    report: &Report<'_, '_>,
    output: &mut Output<W>,
) -> io::Result<()>
    ensures { OnOk result (WritesFinding terms.now.settings.now.look place.entry.file.now place.entry.line line.now report.now (written_of W.contents output.old) (written_of W.contents output.new)) }
{
    let text = finding_of(terms.alloc, terms.settings.look, place, line, report)?;
    output.write_apart(text.as_str())
}
