//! The content of a line: what the line is, what croner's parser makes of its times, and its notes.
ghost use Rattle.std.specs.Prelude.{◌≡◌, length, IfOk, IsUtf8, Result};
ghost use Rattle.croner_pattern.specs.Meaning.{Meaning};
ghost use Rattle.croner.specs.parser.Gives.{Fails};
ghost use Rattle.croner.specs.parser.Grammar.{Refusal, outcome};
ghost use Rattle.crontab.specs.Content.{IsRefusalOf, IsOutcomeOfText, IsOutcomeOfTimes, IsOutcomeOfPattern, IsOutcome, notes_in};
ghost use Rattle.crontab.specs.Entries.{times_seen, entry_seen, LiesIn};
ghost use Rattle.crontab.specs.Line.{is_system, entry_of};
ghost use Rattle.crontab.specs.Parsed.{crontab_settings};
ghost use Rattle.crontab.specs.Place.{NamesPlace};

use crate::line::{Dialect, Entry, Times, entry_of};
use crate::notes::{Note, notes_of};
use crate::parsed::job_of;
use croner::Cron;
use croner::errors::CronError;
use croner::parser::{CronParser, ParseOutcome, PatternFault};
use std::alloc::{AllocError, Global};

/// What croner's parser makes of the times of a line.
#[derive(Drop)]
pub enum Outcome {
    /// There is no text to parse: the line is neither a job nor a pattern, or its job runs when the machine starts, or
    /// never.
    NoText,
    /// The job that the parser read.
    Job(Cron),
    /// The parser refuses the text made from a job's times. The error is never `OutOfMemory`.
    TimesRefused(CronError),
    /// The parser refuses a pattern, for this fault. Its place is counted from the first byte of the pattern.
    PatternRefused(PatternFault),
    /// A pattern isn't UTF-8.
    NotUtf8,
}

/// The content of a line, found by reading it once.
pub struct Content<'l> {
    /// What the line is.
    pub entry: Entry<'l>,
    /// What croner's parser makes of its times.
    pub outcome: Outcome,
    /// Where cron and that parser read the line differently, in the order of [`Note::ALL`]. Only a job of a crontab
    /// and a line that cron refuses have notes.
    pub notes: Vec<Note>,
}

// By hand, so that a function that drops one calls this one: its proof doesn't go through the fields at each exit.
impl Drop for Content<'_> {
    fn drop(self) {
        let Content {
            entry: _,
            outcome: _,
            notes: _,
        } = self;
    }
}

/// The content of a line in a dialect. The line comes without its line feed; `parser` is the one for a file of patterns.
///
/// The place of a refused line's fault is within the line. The only error is lack of memory.
pub fn content_of(
    alloc: Global,
    dialect: Dialect,
    parser: CronParser,
    line: &[u8],
) -> Result<Content<'_>, AllocError>
    ensures seen { IfOk result (λ c. entry_seen c.entry ≡ entry_of dialect line.now) }
    ensures placed { IfOk result (λ c. LiesIn (length line.now) c.entry) }
    ensures exact { IfOk result (λ c. NamesPlace (is_system dialect) line.now c.entry) }
    ensures outcome { IfOk result (λ c. IsOutcome parser (entry_seen c.entry) c.outcome) }
    ensures notes { IfOk result (λ c. c.notes.items ≡ notes_in (entry_seen c.entry) line.now) }
{
    let entry = entry_of(alloc, dialect, line)?;
    let outcome = outcome_of(alloc, parser, &entry)?;
    let notes = notes_in(alloc, &entry, line)?;
    Ok(Content {
        entry,
        outcome,
        notes,
    })
}

/// What croner's parser makes of the times of a line with this entry. `parser` is the one for a file of patterns.
///
/// The only error is lack of memory.
pub fn outcome_of(
    alloc: Global,
    parser: CronParser,
    entry: &Entry<'_>,
) -> Result<Outcome, AllocError>
    ensures { IfOk result (IsOutcome parser (entry_seen entry.now)) }
{
    match entry {
        Entry::Job(job) => outcome_of_times(alloc, &job.times),
        Entry::Pattern(text) => outcome_of_pattern(alloc, parser, text),
        Entry::Blank | Entry::Comment | Entry::Setting { .. } | Entry::Refused { .. } => {
            Ok(Outcome::NoText)
        }
    }
}

// That of a job's times.
fn outcome_of_times(alloc: Global, times: &Times) -> Result<Outcome, AllocError>
    ensures { IfOk result (IsOutcomeOfTimes (times_seen times.now)) }
{
    match times {
        Times::Reboot | Times::Never => Ok(Outcome::NoText),
        Times::Named { text, both_days } => outcome_of_text(alloc, text.as_str(), *both_days),
    }
}

// That of the text made from a job's times.
fn outcome_of_text(alloc: Global, text: &str, both_days: bool) -> Result<Outcome, AllocError>
    ensures { IfOk result (IsOutcomeOfText (outcome (crontab_settings both_days) text.now)) }
{
    match job_of(alloc, text, both_days) {
        Ok(job) => Ok(Outcome::Job(job)),
        Err(error) => {
            let refusal = refusal_of(error)?;
            Ok(Outcome::TimesRefused(refusal))
        }
    }
}

// The refusal of a text, but for lack of memory.
fn refusal_of(error: CronError) -> Result<CronError, AllocError>
    ensures { IfOk result (λ e. (read : Result Meaning Refusal) → Fails error read → IsRefusalOf e read) }
{
    match error {
        CronError::EmptyPattern => Ok(CronError::EmptyPattern),
        CronError::InvalidPattern(message) => Ok(CronError::InvalidPattern(message)),
        CronError::IllegalCharacters(message) => Ok(CronError::IllegalCharacters(message)),
        CronError::ComponentError(message) => Ok(CronError::ComponentError(message)),
        _ => Err(AllocError),
    }
}

// That of a pattern.
fn outcome_of_pattern(
    alloc: Global,
    parser: CronParser,
    bytes: &[u8],
) -> Result<Outcome, AllocError>
    ensures { IfOk result (IsOutcomeOfPattern parser bytes.now) }
{
    match std::str::from_utf8(bytes) {
        Ok(text) => outcome_of_utf8(alloc, parser, text),
        Err(_) => Ok(Outcome::NotUtf8),
    }
}

// That of a pattern which is UTF-8.
fn outcome_of_utf8(alloc: Global, parser: CronParser, text: &str) -> Result<Outcome, AllocError>
    ensures { IsUtf8 text.now → IfOk result (IsOutcomeOfPattern parser text.now) }
{
    match parser.parse_or_explain(alloc, text)? {
        ParseOutcome::Accepted(job) => Ok(Outcome::Job(job)),
        ParseOutcome::Refused(fault) => Ok(Outcome::PatternRefused(fault)),
    }
}

/// The notes of a line with this entry, in the order of [`Note::ALL`]. The line comes without its line feed.
///
/// The only error is lack of memory.
pub fn notes_in(alloc: Global, entry: &Entry<'_>, line: &[u8]) -> Result<Vec<Note>, AllocError>
    ensures { IfOk result (λ found. found.items ≡ notes_in (entry_seen entry.now) line.now) }
{
    match entry {
        Entry::Job(_) => notes_of(alloc, None, line),
        Entry::Refused { fault, .. } => notes_of(alloc, Some(*fault), line),
        Entry::Blank | Entry::Comment | Entry::Setting { .. } | Entry::Pattern(_) => {
            Ok(Vec::new(alloc))
        }
    }
}
