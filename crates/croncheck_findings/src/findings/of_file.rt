//! What is found of a file as a whole.
ghost use Rattle.std.specs.Prelude.{◌≡◌, [], ◌∷◌, ◌++◌, codes, IfOk, OnOk};
ghost use Rattle.croncheck_report.specs.FileSeen.{file_seen};
ghost use Rattle.croncheck_findings.specs.Findings.{finding_said, findings_said, reason, said_if, said_of_unfit, findings_of_crontab, findings_of_lines, name_said, file_name, misnamed, findings_of_read, findings_of_file, last_line};

use super::{Extent, Finding};
use croncheck_files::fitness::Unfit;
use croncheck_output::severity::Severity;
use croncheck_report::file_seen::FileSeen;
use crontab::line::Dialect;
use std::alloc::{AllocError, Global};

/// The text of `file-name` where no line of the file is read.
const UNREAD: &str =
    "cron passes over a file of this name, and no line of it is read here: write letters, digits, _ and - alone";

/// The same where its lines are read.
const MISNAMED: &str = "cron passes over a file of this name: write letters, digits, _ and - alone";

/// What is found of a file of so many lines as a whole: that cron passes over it for its name, a warning; and where its lines are read, why
/// cron ignores it, an error for each reason. Nothing is found of a file of patterns, which cron doesn't read.
///
/// The only error is lack of memory.
pub fn findings_of_file(
    alloc: Global,
    dialect: Dialect,
    lines: u64,
    file: &FileSeen,
) -> Result<Vec<Finding>, AllocError>
    ensures { IfOk result (λ found. findings_said found.items ≡ findings_of_file dialect lines (file_seen file.now)) }
{
    if file.is_passed_over() {
        return findings_of_name(alloc);
    }
    findings_of_read(alloc, dialect, lines, file)
}

// That cron passes over a file for its name, of which no line is read.
fn findings_of_name(alloc: Global) -> Result<Vec<Finding>, AllocError>
    ensures { IfOk result (λ found. findings_said found.items ≡ file_name ∷ []) }
{
    let mut found = Vec::new(alloc);
    found.push(warning_of_name(alloc, UNREAD)?)?;
    Ok(found)
}

// The warning of a file's name, with this text.
fn warning_of_name(alloc: Global, text: &str) -> Result<Finding, AllocError>
    ensures { IfOk result (λ f. finding_said f ≡ name_said text.now) }
{
    let text = String::from_str(alloc, text)?;
    Ok(Finding {
        severity: Severity::Warning,
        name: "file-name",
        field: None,
        extent: Extent { start: 0, end: 0 },
        text,
    })
}

fn findings_of_read(
    alloc: Global,
    dialect: Dialect,
    lines: u64,
    file: &FileSeen,
) -> Result<Vec<Finding>, AllocError>
    ensures { IfOk result (λ found. findings_said found.items ≡ findings_of_read dialect lines (file_seen file.now)) }
{
    let mut found = Vec::new(alloc);
    push_misnamed(alloc, &mut found, file.is_misnamed(dialect))?;
    push_of_lines(alloc, &mut found, dialect, lines, file)?;
    Ok(found)
}

// That cron passes over a file for its name, if it does.
fn push_misnamed(alloc: Global, found: &mut Vec<Finding>, holds: bool) -> Result<(), AllocError>
    ensures { OnOk result (findings_said found.new.items ≡ findings_said found.old.items ++ said_if holds misnamed) }
{
    if holds {
        found.push(warning_of_name(alloc, MISNAMED)?)?;
    }
    Ok(())
}

fn push_of_lines(
    alloc: Global,
    found: &mut Vec<Finding>,
    dialect: Dialect,
    lines: u64,
    file: &FileSeen,
) -> Result<(), AllocError>
    ensures { OnOk result (findings_said found.new.items ≡ findings_said found.old.items ++ findings_of_lines dialect lines (file_seen file.now)) }
{
    match dialect {
        Dialect::Patterns => Ok(()),
        Dialect::User | Dialect::System => push_of_crontab(alloc, found, dialect, lines, file),
    }
}

fn push_of_crontab(
    alloc: Global,
    found: &mut Vec<Finding>,
    dialect: Dialect,
    lines: u64,
    file: &FileSeen,
) -> Result<(), AllocError>
    ensures { OnOk result (findings_said found.new.items ≡ findings_said found.old.items ++ findings_of_crontab dialect lines (file_seen file.now)) }
{
    push_unfit(alloc, found, file.unfit())?;
    push_if(
        alloc,
        found,
        file.has_refused(),
        "refused-line",
        "a line is refused",
    )?;
    push_if(
        alloc,
        found,
        file.is_unfed(),
        "no-newline",
        "its last line has no line feed",
    )?;
    push_if(
        alloc,
        found,
        file.has_many_lines(dialect, lines),
        "many-lines",
        file.many_lines_text(dialect),
    )?;
    Ok(())
}

// What the file system says of a file, if cron ignores it for that.
fn push_unfit(
    alloc: Global,
    found: &mut Vec<Finding>,
    unfit: Option<Unfit>,
) -> Result<(), AllocError>
    ensures { OnOk result (findings_said found.new.items ≡ findings_said found.old.items ++ said_of_unfit unfit) }
{
    if let Some(unfit) = unfit {
        found.push(reason(alloc, unfit.name(), unfit.text())?)?;
    }
    Ok(())
}

// A reason, if it holds.
fn push_if(
    alloc: Global,
    found: &mut Vec<Finding>,
    holds: bool,
    name: &'static str,
    why: &str,
) -> Result<(), AllocError>
    ensures { OnOk result (findings_said found.new.items ≡ findings_said found.old.items ++ said_if holds (reason name.now why.now)) }
{
    if holds {
        found.push(reason(alloc, name, why)?)?;
    }
    Ok(())
}

// A reason for which cron ignores a file as a whole, at no byte of its line.
fn reason(alloc: Global, name: &'static str, why: &str) -> Result<Finding, AllocError>
    ensures { IfOk result (λ f. finding_said f ≡ reason name.now why.now) }
{
    let mut text = String::from_str(alloc, "cron ignores the whole file: ")?;
    text.push_str(why)?;
    Ok(Finding {
        severity: Severity::Error,
        name,
        field: None,
        extent: Extent { start: 0, end: 0 },
        text,
    })
}

/// The line at which the findings of a file of so many lines are told: its last line, or line 1 if it has none.
pub fn last_line(lines: u64) -> u64
    ensures { result ≡ last_line lines }
{
    if lines == 0 { 1 } else { lines }
}
