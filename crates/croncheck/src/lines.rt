//! Lines of a crontab and patterns that are words of the call.

use croncheck_output::escaped::shown_text;
use croncheck_output::output::Output;
use croncheck_reading::progress::{Line, Progress, Terms};
use croncheck_report::file_seen::is_refused;
use croncheck_report::report::{Report, report_of_line};
use croncheck_shown::patterns::{Answer, tell_patterns};
use croncheck_shown::shown::pattern::runs_text;
use croncheck_typed::advice::quartz::note_on_quartz;
use croncheck_typed::advice::{advice, advice_on_split_list};
use crontab::content::{Outcome, outcome_of};
use crontab::line::{Dialect, Entry, Job, entry_of};
use crontab::notes::{Note, notes_of};
use std::alloc::AllocError;
use std::io;
use std::io::{ErrorKind, Write};

/// The warning that a line of a call without a command doesn't have.
const NO_COMMAND: &str = "no-command";

/// The status where a line or a pattern is refused.
const REFUSED: u8 = 1;

// ---- lines

/// Tells of a line of a crontab, and answers 1 if it is refused or, where the call is strict, has a warning; else 0. A line without a command is
/// none without a warning. The error is that of what is written to, or says that memory is lacking.
pub fn tell_line<W: Write>(
    terms: &Terms<'_, '_>,
    word: &str,
    output: &mut Output<W>,
) -> io::Result<u8> {
    if reads_on(terms, word)? {
        tell_call(terms, word, CRON_HAS_FIVE, output)?;
        return Ok(REFUSED);
    }
    let line = word.as_bytes();
    let entry = entry_of(terms.alloc, terms.settings.dialect, line)?;
    let mut progress = Progress::new(terms.alloc);
    if is_without_command(&entry) {
        progress.allowed.push(NO_COMMAND)?;
    }
    let read = Line {
        text: line,
        entry,
        is_fed: true,
    };
    let report = progress.report(terms, read)?;
    tell_report(terms, word, &report, output)
}

/// What is told of a line with more than five fields and no command.
const CRON_HAS_FIVE: &str =
    "Cron has five fields, and what follows them is the command. As a pattern with seconds or years";

/// What is told of a line that cron refuses, and the library takes.
const NOT_FOR_CRON: &str = "As a pattern of the library, not for cron";

fn is_without_command(entry: &Entry<'_>) -> bool {
    match entry {
        Entry::Job(job) => job.command.is_empty(),
        Entry::Blank
        | Entry::Comment
        | Entry::Setting { .. }
        | Entry::Pattern(_)
        | Entry::Refused { .. } => false,
    }
}

// Whether cron takes the end of a text for a command, which the library reads as further fields.
fn reads_on(terms: &Terms<'_, '_>, word: &str) -> Result<bool, AllocError> {
    match entry_of(terms.alloc, Dialect::User, word.as_bytes())? {
        Entry::Job(job) => has_command_of_fields(terms, word, &job),
        Entry::Blank
        | Entry::Comment
        | Entry::Setting { .. }
        | Entry::Pattern(_)
        | Entry::Refused { .. } => Ok(false),
    }
}

fn has_command_of_fields(
    terms: &Terms<'_, '_>,
    word: &str,
    job: &Job<'_>,
) -> Result<bool, AllocError> {
    if job.command.is_empty() {
        Ok(false)
    } else {
        is_pattern(terms, word)
    }
}

// Whether the library takes a text as a pattern.
fn is_pattern(terms: &Terms<'_, '_>, word: &str) -> Result<bool, AllocError> {
    let entry = Entry::Pattern(word.trim().as_bytes());
    match outcome_of(terms.alloc, terms.settings.parser, &entry)? {
        Outcome::Job(_) => Ok(true),
        Outcome::NoText
        | Outcome::TimesRefused(_)
        | Outcome::PatternRefused(_)
        | Outcome::NotUtf8 => Ok(false),
    }
}

// Tells the report of a line.
fn tell_report<W: Write>(
    terms: &Terms<'_, '_>,
    word: &str,
    report: &Report<'_, '_>,
    output: &mut Output<W>,
) -> io::Result<u8> {
    match report {
        Report::Refused { .. } => {
            tell_refused(terms, word, report, output)?;
            Ok(REFUSED)
        }
        Report::Silent | Report::Misnamed(_) | Report::Setting { .. } | Report::Job(_) => {
            write_report(terms, word, report, output)?;
            let is_found = terms.settings.is_strict && report.has_warnings();
            Ok(if is_found { REFUSED } else { 0 })
        }
    }
}

fn write_report<W: Write>(
    terms: &Terms<'_, '_>,
    word: &str,
    report: &Report<'_, '_>,
    output: &mut Output<W>,
) -> io::Result<()> {
    let look = terms.settings.look;
    let text = runs_text(terms.alloc, look, terms.shared, word.as_bytes(), report)?;
    output.write_apart(text.as_str())
}

// Tells of a refused line: what to write where that is known, and else why cron refuses it.
fn tell_refused<W: Write>(
    terms: &Terms<'_, '_>,
    word: &str,
    report: &Report<'_, '_>,
    output: &mut Output<W>,
) -> io::Result<()> {
    if let Some(advice) = advice_on_text(terms, word)? {
        return tell_advice(terms, word, advice.as_str(), output);
    }
    write_report(terms, word, report, output)?;
    if is_pattern(terms, word)? {
        return write_call(terms, word, NOT_FOR_CRON, output);
    }
    Ok(())
}

// What to write in place of a text that isn't taken, if that is known: of one that is a pattern all the same, where a blank parts a list.
fn advice_on_text(terms: &Terms<'_, '_>, word: &str) -> Result<Option<String>, AllocError> {
    if is_pattern(terms, word)? {
        advice_on_split_list(terms.alloc, word)
    } else {
        advice(terms.alloc, word)
    }
}

// ---- texts below a word

// Tells a word, and below it what to write.
fn tell_advice<W: Write>(
    terms: &Terms<'_, '_>,
    word: &str,
    advice: &str,
    output: &mut Output<W>,
) -> io::Result<()> {
    let word = shown_text(terms.alloc, word.as_bytes())?;
    let text = format!(in terms.alloc; "{word}\n  {advice}\n")?;
    output.write_apart(text.as_str())
}

// Tells a word, and below it the call that answers it as a pattern.
fn tell_call<W: Write>(
    terms: &Terms<'_, '_>,
    word: &str,
    front: &str,
    output: &mut Output<W>,
) -> io::Result<()> {
    let word = shown_text(terms.alloc, word.as_bytes())?;
    let text = format!(in terms.alloc; "{word}\n  {front}: croncheck next '{word}'\n")?;
    output.write_apart(text.as_str())
}

// Writes the call that answers a word as a pattern, below what was told of it.
fn write_call<W: Write>(
    terms: &Terms<'_, '_>,
    word: &str,
    front: &str,
    output: &mut Output<W>,
) -> io::Result<()> {
    let word = shown_text(terms.alloc, word.as_bytes())?;
    let text = format!(in terms.alloc; "  {front}: croncheck next '{word}'\n")?;
    output.write(text.as_str())
}

// ---- patterns

/// Tells of a pattern, and answers 1 if it is refused, or a blank parts a list of it; else 0. The error is that of what is written to, or says
/// that memory is lacking.
pub fn tell_pattern<W: Write>(
    terms: &Terms<'_, '_>,
    word: &str,
    answer: Answer,
    output: &mut Output<W>,
) -> io::Result<u8> {
    match advice_on_text(terms, word)? {
        Some(advice) => {
            tell_advice(terms, word, advice.as_str(), output)?;
            Ok(REFUSED)
        }
        None => tell_plain_pattern(terms, word, answer, output),
    }
}

// Tells of a pattern on which there is no advice: one that another program refuses without its runs.
fn tell_plain_pattern<W: Write>(
    terms: &Terms<'_, '_>,
    word: &str,
    answer: Answer,
    output: &mut Output<W>,
) -> io::Result<u8> {
    if is_refused_elsewhere(terms, word)? {
        return tell_patterns(terms, &[word], Answer::Description, output);
    }
    let status = tell_patterns(terms, &[word], answer, output)?;
    if status == 0 && terms.settings.preset.is_none() {
        tell_notes(terms, word, answer, output)?;
    }
    Ok(status)
}

// Whether the program that patterns are read for refuses this one.
fn is_refused_elsewhere(terms: &Terms<'_, '_>, word: &str) -> io::Result<bool> {
    if terms.settings.preset.is_none() {
        return Ok(false);
    }
    let pattern = word.trim().as_bytes();
    let entry = Entry::Pattern(pattern);
    let outcome = outcome_of(terms.alloc, terms.settings.parser, &entry)?;
    let Ok(report) = report_of_line(
        terms.alloc,
        terms.settings,
        pattern,
        entry,
        outcome,
        true,
        None,
    ) else {
        return Err(io::Error::from(ErrorKind::OutOfMemory));
    };
    Ok(is_refused(&report))
}

// Tells where other programs run a pattern at other times.
fn tell_notes<W: Write>(
    terms: &Terms<'_, '_>,
    word: &str,
    answer: Answer,
    output: &mut Output<W>,
) -> io::Result<()> {
    match answer {
        Answer::Runs => {
            tell_note_on_cron(terms, word, output)?;
            tell_note_on_quartz(terms, word, output)
        }
        Answer::Description => Ok(()),
    }
}

fn tell_note_on_quartz<W: Write>(
    terms: &Terms<'_, '_>,
    word: &str,
    output: &mut Output<W>,
) -> io::Result<()> {
    match note_on_quartz(terms.alloc, word)? {
        Some(note) => {
            let text = format!(in terms.alloc; "  note: {note}\n")?;
            output.write(text.as_str())?;
            output.flush()
        }
        None => Ok(()),
    }
}

fn tell_note_on_cron<W: Write>(
    terms: &Terms<'_, '_>,
    word: &str,
    output: &mut Output<W>,
) -> io::Result<()> {
    if !needs_both_days(terms, word)? {
        return Ok(());
    }
    let word = shown_text(terms.alloc, word.as_bytes())?;
    let text = format!(in terms.alloc;
        "  note: Debian's cron needs both days to match, since one begins with *. For its starts: croncheck '{word}'\n"
    )?;
    output.write(text.as_str())?;
    output.flush()
}

// Whether cron takes a pattern, and needs both of its days, where the library takes either.
fn needs_both_days(terms: &Terms<'_, '_>, word: &str) -> Result<bool, AllocError> {
    match entry_of(terms.alloc, Dialect::User, word.as_bytes())? {
        Entry::Job(job) if job.command.is_empty() => has_star_day(terms, word),
        _ => Ok(false),
    }
}

fn has_star_day(terms: &Terms<'_, '_>, word: &str) -> Result<bool, AllocError> {
    let notes = notes_of(terms.alloc, None, word.as_bytes())?;
    Ok(notes.iter().any(|note| is_of_star_day(*note)))
}

fn is_of_star_day(note: Note) -> bool {
    match note {
        Note::StarDay => true,
        Note::StarAmongParts
        | Note::UnevenStep
        | Note::EmptyPart
        | Note::OtherName
        | Note::Modifier
        | Note::CapitalNickname
        | Note::Seconds => false,
    }
}
