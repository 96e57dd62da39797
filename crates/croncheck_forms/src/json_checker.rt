//! The form of a check as JSON: an object for each line of which something is found, and for each file.
ghost use Rattle.std.specs.Prelude.{OnOk};
ghost use Rattle.jiff.specs.ZoneView.{plain_zone};
ghost use Rattle.croncheck_forms.specs.Json.{WritesIfFound};
ghost use Rattle.croncheck_output.specs.Output.{written_of};

use crate::json::kind_of_entry;
use crate::json_reporter::{write_file, write_object};
use croncheck_findings::findings::{Finding, findings_of};
use croncheck_output::output::Output;
use croncheck_reading::form::Form;
use croncheck_reading::progress::{Line, Progress, Terms};
use croncheck_report::location::Location;
use croncheck_report::report::Report;
use std::io;
use std::io::Write;

/// Writes the object of each line of which something is found, and after the lines of a file the object of the file,
/// each on a line of its own. Of a good line it writes nothing.
#[derive(Clone, Copy, Drop)]
pub struct JsonChecker;

impl Form for JsonChecker {
    ghost use Rattle.std.specs.Prelude.{◌≡◌};
    ghost use Rattle.jiff.specs.ZoneView.{plain_zone};
    ghost use Rattle.croncheck_forms.specs.Json.{WritesFound, WritesFile};

    ghost takes = { λ terms old y new. WritesFound terms.settings.now (plain_zone terms.shared.now.zone) old.stand old.written y new.stand new.written };

    ghost ends_file = { λ terms checker stand old new. WritesFile terms.settings.now (plain_zone terms.shared.now.zone) stand old new };

    ghost ends = { λ terms checker old new. new ≡ old };

    #[tactic(auto, using(crate::proofs::Objects::finding_written))]
    fn take<W: Write>(
        &mut self,
        terms: &Terms<'_, '_>,
        progress: &mut Progress,
        line: Line<'_>,
        output: &mut Output<W>,
    ) -> io::Result<()> {
        let text = line.text;
        let kind = kind_of_entry(&line.entry);
        let report = progress.report(terms, line)?;
        let found = findings_of(terms.alloc, text, &report)?;
        write_if_found(
            terms,
            kind,
            progress.place(),
            &report,
            found.as_slice(),
            output,
        )
    }

    fn end_file<W: Write>(
        &self,
        terms: &Terms<'_, '_>,
        progress: &Progress,
        output: &mut Output<W>,
    ) -> io::Result<()> {
        write_file(terms, progress, output)
    }

    fn end<W: Write>(&self, _terms: &Terms<'_, '_>, _output: &mut Output<W>) -> io::Result<()> {
        Ok(())
    }
}

// Writes the object of a line of this kind of entry, if something is found of it.
fn write_if_found<W: Write>(
    terms: &Terms<'_, '_>,
    kind: &str,
    place: Location<'_>,
    report: &Report<'_, '_>,
    found: &[Finding],
    output: &mut Output<W>,
) -> io::Result<()>
    ensures { OnOk result (WritesIfFound (record {
      zone = plain_zone terms.now.shared.now.zone;
      kind = kind.now;
      file = place.entry.file.now;
      line = place.entry.line;
    }) report.now found.now (written_of W.contents output.old) (written_of W.contents output.new)) }
{
    match found {
        [] => Ok(()),
        [_, ..] => write_object(terms, kind, place, report, found, output),
    }
}
