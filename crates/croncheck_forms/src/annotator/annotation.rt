//! The annotation of a finding.
ghost use Rattle.std.specs.Prelude.{◌≡◌, ◌++◌, true, false, codes, IfOk, OnOk, string_bytes};
ghost use Rattle.croncheck_forms.specs.Annotations.{command_name, escaped_bytes, gcc_text, gcc_line, github_place, github_line, line_of};
ghost use Rattle.croncheck_reading.specs.Tally.{one_more};

use super::Style;
use super::escapes::push_escaped;
use croncheck_findings::findings::Finding;
use croncheck_output::escaped::shown_text;
use croncheck_output::severity::Severity;
use croncheck_reading::tally::one_more;
use croncheck_report::location::Location;
use std::alloc::{AllocError, Global};

/// The annotation of a finding at a place: a line with its line feed.
///
/// The only error is lack of memory.
pub fn annotation(
    alloc: Global,
    style: Style,
    place: Location<'_>,
    finding: &Finding,
) -> Result<Vec<u8>, AllocError>
    ensures { IfOk result (λ line. line.items ≡ line_of style place.entry.file.now place.entry.line finding.now) }
{
    match style {
        Style::Gcc => gcc_line(alloc, place, finding),
        Style::Github => github_line(alloc, place, finding),
    }
}

fn gcc_line(alloc: Global, place: Location<'_>, finding: &Finding) -> Result<Vec<u8>, AllocError>
    ensures { IfOk result (λ line. line.items ≡ gcc_line place.entry.file.now place.entry.line finding.now) }
{
    let text = gcc_text(alloc, place, finding)?;
    let mut line = shown_text(alloc, text.as_str().as_bytes())?;
    line.push('\n')?;
    Ok(line.into_bytes())
}

fn gcc_text(alloc: Global, place: Location<'_>, finding: &Finding) -> Result<String, AllocError>
    ensures { IfOk result (λ text. string_bytes text ≡ gcc_text place.entry.file.now place.entry.line finding.now) }
{
    let (file, line) = (place.file, place.line);
    let column = column(finding.extent.start);
    let (severity, name) = (finding.severity.name(), finding.name);
    let text = finding.text.as_str();
    format!(in alloc; "{file}:{line}:{column}: {severity}: {text} [{name}]")
}

// The number of a byte of a line, from 1.
fn column(at: usize) -> u64
    ensures { result ≡ one_more at }
{
    one_more(at as u64)
}

fn github_line(alloc: Global, place: Location<'_>, finding: &Finding) -> Result<Vec<u8>, AllocError>
    ensures { IfOk result (λ line. line.items ≡ github_line place.entry.file.now place.entry.line finding.now) }
{
    let mut line = github_head(alloc, finding.severity)?.into_bytes();
    push_escaped(&mut line, place.file.as_bytes(), true)?;
    push_after_file(alloc, &mut line, place.line, finding)?;
    Ok(line)
}

fn github_head(alloc: Global, severity: Severity) -> Result<String, AllocError>
    ensures { IfOk result (λ text. string_bytes text ≡ codes "::" ++ (command_name severity ++ codes " file=")) }
{
    let command = command_name(severity);
    format!(in alloc; "::{command} file=")
}

fn command_name(severity: Severity) -> &'static str
    ensures { result.now ≡ command_name severity }
{
    match severity {
        Severity::Error => "error",
        Severity::Warning => "warning",
        Severity::Note => "notice",
    }
}

// What stands after the name of the file.
fn push_after_file(
    alloc: Global,
    line: &mut Vec<u8>,
    number: u64,
    finding: &Finding,
) -> Result<(), AllocError>
    ensures { OnOk result (line.new.items ≡ line.old.items ++ (github_place number finding.now ++ (escaped_bytes true finding.now.name.now
        ++ (codes "::" ++ (escaped_bytes false (string_bytes finding.now.text) ++ codes "\n"))))) }
{
    let place = github_place(alloc, number, finding)?;
    line.extend_from_slice(place.as_str().as_bytes())?;
    push_escaped(line, finding.name.as_bytes(), true)?;
    push_message(line, finding)
}

fn github_place(alloc: Global, line: u64, finding: &Finding) -> Result<String, AllocError>
    ensures { IfOk result (λ text. string_bytes text ≡ github_place line finding.now) }
{
    let (start, end) = (column(finding.extent.start), column(finding.extent.end));
    format!(in alloc; ",line={line},endLine={line},col={start},endColumn={end},title=")
}

fn push_message(line: &mut Vec<u8>, finding: &Finding) -> Result<(), AllocError>
    ensures { OnOk result (line.new.items ≡ line.old.items ++ (codes "::" ++ (escaped_bytes false (string_bytes finding.now.text) ++ codes "\n"))) }
{
    line.extend_from_slice("::".as_bytes())?;
    push_escaped(line, finding.text.as_str().as_bytes(), false)?;
    line.extend_from_slice("\n".as_bytes())
}
