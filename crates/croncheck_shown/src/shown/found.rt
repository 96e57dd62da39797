//! What is found of a line: why it is refused, its warnings and its notes.
ghost use Rattle.std.specs.Prelude.{IfOk, string_bytes};
ghost use Rattle.croncheck_shown.specs.Reported.{IsTextOfFound, IsFinding};

use super::below::text_below;
use super::{View, push_head, push_setting, push_view, text_of_place};
use croncheck_findings::findings::{Finding, findings_of};
use croncheck_output::look::Look;
use croncheck_report::location::Location;
use croncheck_report::report::Report;
use std::alloc::{AllocError, Global};
use unicode_width::UnicodeWidthStr;

/// The text of what is found of a line: whole lines, or nothing where nothing is found. It doesn't have the description or
/// the runs of a job.
///
/// The line is given without its line feed. The only error is lack of memory.
#[tactic(auto, using(crate::proofs::Found::is_finding))]
pub fn finding_of(
    alloc: Global,
    look: Look,
    place: Location<'_>,
    line: &[u8],
    report: &Report<'_, '_>,
) -> Result<String, AllocError>
    ensures { IfOk result (λ text. IsFinding look place.entry.file.now place.entry.line line.now report.now (string_bytes text)) }
{
    let found = findings_of(alloc, line, report)?;
    text_of_found(alloc, look, place, line, report, found.as_slice())
}

// The text of findings of a line.
#[tactic(auto, using(crate::proofs::Found::some_text, crate::proofs::Found::no_text))]
fn text_of_found(
    alloc: Global,
    look: Look,
    place: Location<'_>,
    line: &[u8],
    report: &Report<'_, '_>,
    found: &[Finding],
) -> Result<String, AllocError>
    ensures { IfOk result (λ text. IsTextOfFound look place.entry.file.now place.entry.line found.now (string_bytes text)) }
{
    let mut head = String::new(alloc);
    if found.is_empty() {
        return Ok(head);
    }
    let place = text_of_place(alloc, place)?;
    push_line(&mut head, look, place.as_str().width(), line, report)?;
    let below = text_below(alloc, look, found)?;
    format!(in alloc; "{place}{head}{below}\n")
}

// Puts a line of which something is found into an empty text. It stands so many columns to the right.
fn push_line(
    text: &mut String,
    look: Look,
    column: usize,
    line: &[u8],
    report: &Report<'_, '_>,
) -> Result<(), AllocError> {
    match report {
        Report::Silent => Ok(()),
        Report::Misnamed(_) | Report::Setting { .. } => push_setting(text, line),
        Report::Job(job) => push_head(text, job),
        Report::Refused { start, end, .. } => {
            push_view(text, View::of(look, column, line, *start, *end), column)
        }
    }
}
