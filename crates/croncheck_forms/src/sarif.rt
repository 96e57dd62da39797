//! The form of SARIF: one object with all findings of all files.
ghost use Rattle.std.specs.Prelude.{◌≡◌, OnOk, IfOk, string_bytes, option_map};
ghost use Rattle.croncheck_output.specs.Output.{written_of};
ghost use Rattle.croncheck_forms.specs.Sarif.{head_text};
ghost use Rattle.croncheck_forms.specs.SarifForm.{WritesResult, WritesResults, TellsFileResults};
ghost use Rattle.croncheck_reading.specs.Stand.{stand_of};

pub mod columns;
pub mod head;
pub mod result;
pub mod rules;
pub mod uri;

use columns::columns_at;
use croncheck_findings::findings::of_file::{findings_of_file, last_line};
use croncheck_findings::findings::{Finding, findings_of};
use croncheck_output::output::Output;
use croncheck_reading::form::Form;
use croncheck_reading::progress::{Line, Progress, Terms};
use croncheck_report::location::Location;
use head::head_text;
use result::result_text;
use rules::Rule;
use std::alloc::{AllocError, Global};
use std::io;
use std::io::Write;

/// What stands between two results.
const BETWEEN: &str = ",\n";

/// What stands after all of them.
const TAIL: &str = "\n]}]}\n";

/// Writes one object of SARIF 2.1.0: the tool with its rules, and a result for each finding of each line and of each file as a
/// whole. Each result is written as it comes, so that it takes the memory of one result at a time.
#[derive(Drop)]
pub struct Sarif {
    // What stands in front of the results.
    head: String,
}

impl Sarif {
    /// The form for this version of the program, with these rules, which say what the names of findings stand for.
    ///
    /// The only error is lack of memory.
    pub fn new(alloc: Global, version: &str, rules: &[Rule]) -> Result<Sarif, AllocError>
        ensures { IfOk result (λ sarif. string_bytes sarif.head ≡ head_text version.now rules.now) }
    {
        let head = head_text(alloc, version, rules)?;
        Ok(Sarif { head })
    }
}

impl Form for Sarif {
    ghost use Rattle.std.specs.Prelude.{◌≡◌, codes, string_bytes};
    ghost use Rattle.croncheck_output.specs.Output.{EndsItems};
    ghost use Rattle.croncheck_forms.specs.SarifForm.{tail_text, TellsResults, TellsFileResults};

    ghost takes = { λ terms old y new. TellsResults (string_bytes old.form.head) terms.settings.now old.stand old.written y new.stand new.written
        × (new.form ≡ old.form) };

    ghost ends_file = { λ terms sarif stand old new. TellsFileResults (string_bytes sarif.head) terms.settings.now stand old new };

    ghost ends = { λ terms sarif old new. EndsItems (string_bytes sarif.head) tail_text old new };

    #[tactic(auto, using(crate::proofs::SarifLines::line_told))]
    fn take<W: Write>(
        &mut self,
        terms: &Terms<'_, '_>,
        progress: &mut Progress,
        line: Line<'_>,
        output: &mut Output<W>,
    ) -> io::Result<()> {
        let text = line.text;
        let report = progress.report(terms, line)?;
        let found = findings_of(terms.alloc, text, &report)?;
        write_results(
            terms,
            self.head.as_str(),
            progress.place(),
            Some(text),
            found.as_slice(),
            output,
        )
    }

    fn end_file<W: Write>(
        &self,
        terms: &Terms<'_, '_>,
        progress: &Progress,
        output: &mut Output<W>,
    ) -> io::Result<()> {
        write_file(terms, self.head.as_str(), progress, output)
    }

    fn end<W: Write>(&self, _terms: &Terms<'_, '_>, output: &mut Output<W>) -> io::Result<()> {
        output.end_items(self.head.as_str(), TAIL)
    }
}

// Writes the results of a file as a whole.
#[tactic(auto, using(crate::proofs::SarifLines::file_told))]
fn write_file<W: Write>(
    terms: &Terms<'_, '_>,
    head: &str,
    progress: &Progress,
    output: &mut Output<W>,
) -> io::Result<()>
    ensures { OnOk result (TellsFileResults head.now terms.now.settings.now (stand_of progress.now) (written_of W.contents output.old) (written_of W.contents output.new)) }
{
    let found = findings_of_file(
        terms.alloc,
        terms.settings.dialect,
        progress.lines,
        &progress.file,
    )?;
    let place = Location {
        file: progress.file.name(),
        line: last_line(progress.lines),
    };
    write_results(terms, head, place, None, found.as_slice(), output)
}

// Writes the results of findings at a line, in order. The line is given where it is at hand.
fn write_results<W: Write>(
    terms: &Terms<'_, '_>,
    head: &str,
    place: Location<'_>,
    line: Option<&[u8]>,
    found: &[Finding],
    output: &mut Output<W>,
) -> io::Result<()>
    ensures { OnOk result (WritesResults head.now place.entry.file.now place.entry.line (option_map (λ l. l.now) line.entry) found.now (written_of W.contents output.old) (written_of W.contents output.new)) }
{
    for k in 0..found.len() {
        write_result(terms, head, place, line, &found[k], output)?;
    }
    Ok(())
}

#[tactic(auto, using(crate::proofs::SarifLines::one_told))]
fn write_result<W: Write>(
    terms: &Terms<'_, '_>,
    head: &str,
    place: Location<'_>,
    line: Option<&[u8]>,
    finding: &Finding,
    output: &mut Output<W>,
) -> io::Result<()>
    ensures { OnOk result (WritesResult head.now place.entry.file.now place.entry.line (option_map (λ l. l.now) line.entry) (written_of W.contents output.old) finding.now (written_of W.contents output.new)) }
{
    let columns = columns_at(line, finding.extent);
    let text = result_text(terms.alloc, place.file, place.line, columns, finding)?;
    output.write_item(head, BETWEEN, text.as_str())
}
