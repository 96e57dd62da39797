//! What is told of a line that has no job in a plan, where the plan is a file.
ghost use Rattle.std.specs.Prelude.{◌≡◌, ◌++◌, IfOk, OnOk, string_bytes};
ghost use Rattle.croncheck_output.specs.Output.{written_of, WritesApart};
ghost use Rattle.croncheck_planner.specs.Ignored.{is_at_reboot, is_grave, is_told_at_reboot, ignored_line, ignored_text, reboot_line, WritesIgnored};
ghost use Rattle.croncheck_shown.specs.Shown.{place_text};

use croncheck_findings::findings::{Finding, findings_of};
use croncheck_output::output::Output;
use croncheck_output::severity::Severity;
use croncheck_report::location::Location;
use croncheck_report::report::Report;
use croncheck_report::told::Told;
use std::alloc::{AllocError, Global};
use std::io;
use std::io::Write;

/// Writes the place of a line and what is wrong there, with no more of the line than the bytes at fault. The error is that of what is
/// written to, or says that memory is lacking.
pub(crate) fn write_ignored<W: Write>(
    alloc: Global,
    place: Location<'_>,
    line: &[u8],
    report: &Report<'_, '_>,
    output: &mut Output<W>,
) -> io::Result<()>
    ensures { OnOk result (WritesIgnored place.entry.file.now place.entry.line line.now report.now (written_of W.contents output.old) (written_of W.contents output.new)) }
{
    let found = findings_of(alloc, line, report)?;
    write_told(alloc, place, report, found.as_slice(), output)
}

/// The same, given what was found of the line.
pub(crate) fn write_told<W: Write>(
    alloc: Global,
    place: Location<'_>,
    report: &Report<'_, '_>,
    found: &[Finding],
    output: &mut Output<W>,
) -> io::Result<()>
    ensures { OnOk result (WritesApart (ignored_text place.entry.file.now place.entry.line report.now found.now) (written_of W.contents output.old) (written_of W.contents output.new)) }
{
    let text = ignored_text(alloc, place, report, found)?;
    output.write_apart(text.as_str())
}

// What is told of a line without a job in the plan: a line of text for each thing that is wrong, and for a job that starts with the machine.
fn ignored_text(
    alloc: Global,
    place: Location<'_>,
    report: &Report<'_, '_>,
    found: &[Finding],
) -> Result<String, AllocError>
    ensures { IfOk result (λ text. string_bytes text ≡ ignored_text place.entry.file.now place.entry.line report.now found.now) }
{
    let mut text = String::new(alloc);
    for finding in found {
        push_ignored(&mut text, place, finding)?;
    }
    if is_at_reboot(report) {
        push_reboot(&mut text, place)?;
    }
    Ok(text)
}

#[tactic(auto, unfolding(crate::specs::Ignored::reboot_line))]
fn push_reboot(text: &mut String, place: Location<'_>) -> Result<(), AllocError>
    ensures { OnOk result (string_bytes text.new ≡ string_bytes text.old ++ reboot_line place.entry.file.now place.entry.line) }
{
    push_place(text, place)?;
    text.push_str("starts as the machine does: it has no time in a plan\n")
}

// Puts after a text a thing that is wrong.
fn push_ignored(text: &mut String, place: Location<'_>, finding: &Finding) -> Result<(), AllocError>
    ensures { OnOk result (string_bytes text.new ≡ string_bytes text.old ++ ignored_line place.entry.file.now place.entry.line finding.now) }
{
    if !is_grave(finding.severity) {
        return Ok(());
    }
    push_place(text, place)?;
    text.push_str(finding.text.as_str())?;
    text.push_str("\n")
}

fn push_place(text: &mut String, place: Location<'_>) -> Result<(), AllocError>
    ensures { OnOk result (string_bytes text.new ≡ string_bytes text.old ++ place_text place.entry.file.now place.entry.line) }
{
    let (file, line) = (place.file, place.line);
    write!(text, "{file}:{line}  ")
}

// Whether cron makes something else of a line than its writer may think.
fn is_grave(severity: Severity) -> bool
    ensures { result ≡ is_grave severity }
{
    match severity {
        Severity::Error | Severity::Warning => true,
        Severity::Note => false,
    }
}

// Whether it is of a job that starts as the machine does.
fn is_at_reboot(report: &Report<'_, '_>) -> bool
    ensures { result ≡ is_at_reboot report.now }
{
    match report {
        Report::Job(job) => is_told_at_reboot(&job.times),
        Report::Silent | Report::Misnamed(_) | Report::Setting { .. } | Report::Refused { .. } => {
            false
        }
    }
}

fn is_told_at_reboot(told: &Told<'_>) -> bool
    ensures { result ≡ is_told_at_reboot told.now }
{
    match told {
        Told::Reboot => true,
        Told::Nothing | Told::Runs { .. } => false,
    }
}
