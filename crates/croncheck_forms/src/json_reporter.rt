//! The form of JSON: an object for each line, and for each file.
ghost use Rattle.std.specs.Prelude.{◌++◌, OnOk};
ghost use Rattle.jiff.specs.ZoneView.{plain_zone};
ghost use Rattle.croncheck_forms.specs.Json.{WritesObject, WritesFile};
ghost use Rattle.croncheck_output.specs.Output.{written_of};
ghost use Rattle.croncheck_reading.specs.Stand.{stand_of};

use crate::json::{FILE, kind_of_entry, object_of};
use croncheck_findings::findings::of_file::{findings_of_file, last_line};
use croncheck_findings::findings::{Finding, findings_of};
use croncheck_output::output::Output;
use croncheck_reading::form::Form;
use croncheck_reading::progress::{Line, Progress, Terms};
use croncheck_report::location::Location;
use croncheck_report::report::Report;
use std::io;
use std::io::Write;

/// Writes the object of each line, and after the lines of a file the object of the file, each on a
/// line of its own.
#[derive(Clone, Copy, Drop)]
pub struct JsonReporter;

impl Form for JsonReporter {
    ghost use Rattle.std.specs.Prelude.{◌≡◌};
    ghost use Rattle.jiff.specs.ZoneView.{plain_zone};
    ghost use Rattle.croncheck_forms.specs.Json.{Writes, WritesFile};

    ghost takes = { λ terms old y new. Writes terms.settings.now (plain_zone terms.shared.now.zone) old.stand old.written y new.stand new.written };

    ghost ends_file = { λ terms reporter stand old new. WritesFile terms.settings.now (plain_zone terms.shared.now.zone) stand old new };

    ghost ends = { λ terms reporter old new. new ≡ old };

    #[tactic(auto, using(crate::proofs::Objects::line_written))]
    fn take<W: Write>(
        &mut self,
        terms: &Terms<'_, '_>,
        progress: &mut Progress,
        line: Line<'_>,
        output: &mut Output<W>,
    ) -> io::Result<()> {
        let text = line.text;
        let kind = kind_of_entry(&line.entry);
        let report = progress.report(terms, line)?;
        let found = findings_of(terms.alloc, text, &report)?;
        write_object(
            terms,
            kind,
            progress.place(),
            &report,
            found.as_slice(),
            output,
        )
    }

    fn end_file<W: Write>(
        &self,
        terms: &Terms<'_, '_>,
        progress: &Progress,
        output: &mut Output<W>,
    ) -> io::Result<()> {
        write_file(terms, progress, output)
    }

    fn end<W: Write>(&self, _terms: &Terms<'_, '_>, _output: &mut Output<W>) -> io::Result<()> {
        Ok(())
    }
}

/// Writes the object of a file as a whole.
#[tactic(auto, using(crate::proofs::Objects::file_written))]
pub(crate) fn write_file<W: Write>(
    terms: &Terms<'_, '_>,
    progress: &Progress,
    output: &mut Output<W>,
) -> io::Result<()>
    ensures { OnOk result (WritesFile terms.now.settings.now (plain_zone terms.now.shared.now.zone) (stand_of progress.now)
        (written_of W.contents output.old) (written_of W.contents output.new)) }
{
    let found = findings_of_file(
        terms.alloc,
        terms.settings.dialect,
        progress.lines,
        &progress.file,
    )?;
    let place = Location {
        file: progress.file.name(),
        line: last_line(progress.lines),
    };
    write_object(
        terms,
        FILE,
        place,
        &Report::Silent,
        found.as_slice(),
        output,
    )
}

/// Writes the object of a line, by the kind of its entry and what is found of it.
pub(crate) fn write_object<W: Write>(
    terms: &Terms<'_, '_>,
    kind: &str,
    place: Location<'_>,
    report: &Report<'_, '_>,
    found: &[Finding],
    output: &mut Output<W>,
) -> io::Result<()>
    ensures { OnOk result (WritesObject (record {
      zone = plain_zone terms.now.shared.now.zone;
      kind = kind.now;
      file = place.entry.file.now;
      line = place.entry.line;
    }) report.now found.now (W.contents output.old.out) (W.contents output.new.out)) }
{
    let mut text = {
        let object = object_of(terms.alloc, terms.shared, kind, place, report, found)?;
        object.to_string(terms.alloc)?
    };
    text.push('\n')?;
    output.write(text.as_str())
}
