//! Patterns that are words of the call.
ghost use Rattle.std.specs.Prelude.{◌≡◌, ◌||◌, Bool, true, map, if◌then◌else◌, IfOk, string_bytes};
ghost use Rattle.croncheck_output.specs.Output.{written_of};
ghost use Rattle.croncheck_shown.specs.Patterns.{TellsPattern, TellsPatterns, told_by, pattern_in};
ghost use Rattle.croncheck_shown.specs.Reported.{EndsWithFound};
ghost use Rattle.croncheck_report.specs.Report.{IsReportOfPattern, blanks_of};

use crate::shown::pattern::{description_text, runs_text};
use croncheck_output::output::Output;
use croncheck_reading::progress::Terms;
use croncheck_report::file_seen::is_refused;
use croncheck_report::report::{Report, report_of_line};
use crontab::bytes::{Kind, cut};
use crontab::content::outcome_of;
use crontab::line::Entry;
use std::alloc::{AllocError, Global};
use std::io;
use std::io::{ErrorKind, Write};

/// What is told of a pattern.
#[derive(Clone, Copy, Drop)]
pub enum Answer {
    /// What it means, its runs and its warnings.
    Runs,
    /// What it means.
    Description,
}

/// Tells of patterns, in order, and answers the status of the call: 1 where one is refused, else 0.
///
/// Each is read as a line of a file of patterns, without the blanks in front of it. Of a refused one it is told where its
/// fault is, and why it is refused. The error is that of what is written to, or says that memory is lacking.
pub fn tell_patterns<W: Write>(
    terms: &Terms<'_, '_>,
    words: &[&str],
    answer: Answer,
    output: &mut Output<W>,
) -> io::Result<u8>
    ensures { IfOk result (TellsPatterns terms.now.settings.now answer (written_of W.contents output.old) (map (λ word. word.now) words.now)
        (written_of W.contents output.new)) }
{
    let mut has_refused = false;
    for k in 0..words.len() {
        let refused = is_told_refused(terms, words[k], answer, output)?;
        has_refused = is_any_refused(refused, has_refused);
    }
    output.flush()?;
    Ok(status_of(has_refused))
}

fn is_any_refused(refused: bool, has_refused: bool) -> bool
    ensures { result ≡ (refused || has_refused) }
{
    refused || has_refused
}

fn status_of(has_refused: bool) -> u8
    ensures { result ≡ (if has_refused then 1 else 0) }
{
    if has_refused { 1 } else { 0 }
}

// Tells of a pattern, and answers whether it is refused.
fn is_told_refused<W: Write>(
    terms: &Terms<'_, '_>,
    word: &str,
    answer: Answer,
    output: &mut Output<W>,
) -> io::Result<bool>
    ensures { (before : Bool) → IfOk result (λ refused. TellsPattern terms.now.settings.now answer (record { written = written_of W.contents output.old; has_refused = before })
        word.now (record { written = written_of W.contents output.new; has_refused = refused || before })) }
{
    let (_, pattern) = cut(word.as_bytes(), Kind::Blank);
    let report = report_of_pattern(terms, pattern)?;
    let text = pattern_text(terms, pattern, &report, answer)?;
    output.write_apart(text.as_str())?;
    Ok(is_refused(&report))
}

// The report of a pattern, read as a line that has its line feed.
fn report_of_pattern<'l, 't>(terms: &Terms<'_, 't>, pattern: &'l [u8]) -> io::Result<Report<'l, 't>>
    ensures { IfOk result (IsReportOfPattern true terms.now.settings.now (blanks_of pattern.now) pattern.now) }
{
    let entry = Entry::Pattern(pattern);
    let outcome = outcome_of(terms.alloc, terms.settings.parser, &entry)?;
    match report_of_line(
        terms.alloc,
        terms.settings,
        pattern,
        entry,
        outcome,
        true,
        None,
    ) {
        Ok(report) => Ok(report),
        Err(_) => Err(io::Error::from(ErrorKind::OutOfMemory)),
    }
}

// What is told of a pattern with this report, as whole lines.
fn pattern_text(
    terms: &Terms<'_, '_>,
    pattern: &[u8],
    report: &Report<'_, '_>,
    answer: Answer,
) -> Result<String, AllocError>
    ensures { IfOk result (λ text. EndsWithFound terms.now.settings.now.look (told_by answer pattern.now report.now) (string_bytes text)) }
{
    match answer {
        Answer::Runs => runs_text(
            terms.alloc,
            terms.settings.look,
            terms.shared,
            pattern,
            report,
        ),
        Answer::Description => description_text(
            terms.alloc,
            terms.settings.look,
            terms.shared,
            pattern,
            report,
        ),
    }
}
