//! What is told of a pattern that is a word of the call.
ghost use Rattle.std.specs.Prelude.{IfOk, string_bytes};
ghost use Rattle.croncheck_findings.specs.Findings.{findings_of_line};
ghost use Rattle.croncheck_shown.specs.Reported.{EndsWithFound};
ghost use Rattle.croncheck_findings.specs.Findings.{described};

use super::below::push_below;
use super::{push_head, push_report};
use croncheck_findings::findings::{findings_described, findings_of};
use croncheck_output::look::Look;
use croncheck_report::report::{JobReport, Report};
use croncheck_report::shared::Shared;
use croncheck_report::told::Told;
use std::alloc::{AllocError, Global};

/// The text of the report of a pattern, whole lines: what it means, its runs and its warnings, or why it is refused. No place stands in front.
///
/// The only error is lack of memory.
pub fn runs_text(
    alloc: Global,
    look: Look,
    shared: &Shared<'_>,
    pattern: &[u8],
    report: &Report<'_, '_>,
) -> Result<String, AllocError>
    ensures { IfOk result (λ text. EndsWithFound look (findings_of_line pattern.now report.now) (string_bytes text)) }
{
    let mut text = String::new(alloc);
    push_report(alloc, look, &mut text, shared, 0, pattern, report)?;
    let found = findings_of(alloc, pattern, report)?;
    push_below(alloc, look, &mut text, found.as_slice())?;
    text.push('\n')?;
    Ok(text)
}

/// The text of what a pattern means, whole lines, with what another program reads differently; or why the pattern is refused. The only
/// error is lack of memory.
pub fn description_text(
    alloc: Global,
    look: Look,
    shared: &Shared<'_>,
    pattern: &[u8],
    report: &Report<'_, '_>,
) -> Result<String, AllocError>
    ensures { IfOk result (λ text. EndsWithFound look (described pattern.now report.now) (string_bytes text)) }
{
    let mut text = String::new(alloc);
    push_meaning(alloc, look, &mut text, shared, pattern, report)?;
    let found = findings_described(alloc, pattern, report)?;
    push_below(alloc, look, &mut text, found.as_slice())?;
    text.push('\n')?;
    Ok(text)
}

// A pattern and what it means, or where it is refused.
fn push_meaning(
    alloc: Global,
    look: Look,
    text: &mut String,
    shared: &Shared<'_>,
    pattern: &[u8],
    report: &Report<'_, '_>,
) -> Result<(), AllocError> {
    match report {
        Report::Job(job) => push_description(text, job),
        Report::Silent | Report::Misnamed(_) | Report::Setting { .. } | Report::Refused { .. } => {
            push_report(alloc, look, text, shared, 0, pattern, report)
        }
    }
}

// A pattern and its description.
fn push_description(text: &mut String, job: &JobReport<'_, '_>) -> Result<(), AllocError> {
    push_head(text, job)?;
    match &job.times {
        Told::Reboot | Told::Nothing => Ok(()),
        Told::Runs { description, .. } => {
            text.push_str("\n  ")?;
            text.push_str(description.as_str())
        }
    }
}
