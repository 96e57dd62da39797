//! Why a text is refused: the fault as data, and the message made from it.

ghost use Rattle.std.specs.Prelude.{◌≡◌, Err, Ok};
ghost use Rattle.croner_pattern.specs.Meaning.{Meaning};
ghost use Rattle.croner.specs.parser.Gives.{Fails};
ghost use Rattle.croner.specs.Private.parser.Steps.{refusal_of};

use super::CronParser;
use super::counts::most_fields;
use super::escapes::found_at;
use super::fault::{Expected, ExpectedText, FieldsHint, Hint, PatternFault, TextHint};
use super::pieces::words_of;
use super::place::fault_at;
use super::second_reading::find_fault;
use super::stop::{Cause, Stop};
use crate::job::Cron;
use croner_base::errors::CronError;
use std::alloc::{AllocError, Global};

/// The outcome of reading a text ([`CronParser::parse_or_explain`]).
#[derive(Debug, Drop)]
pub enum ParseOutcome {
    /// The text is accepted: this is its job, which [`CronParser::parse`] gives too.
    Accepted(Cron),
    /// The text is refused: this is why, as [`CronParser::explain`] says it.
    Refused(PatternFault),
}

impl CronParser {
    ghost use Rattle.std.specs.Prelude.{IfOk};
    ghost use Rattle.croner.specs.parser.Faults.{Explains, IsFault, IsParseOutcome};
    ghost use Rattle.croner.specs.parser.Grammar.{outcome};

    /// Why a text is refused; `None` if [`CronParser::parse`] accepts it.
    ///
    /// The fault has the kind of `parse`'s refusal and a place in the given text, in bytes from 0, on character boundaries. The
    /// place is the first illegal character of a field, a piece of the first part of a field's list that can't be read, or the
    /// whole word at which a count is wrong. It is the whole text if that is only white space, or if the settings accept no
    /// text. The fault names the field, except for these two, a wrong count and a text with `@`; the place in a text with `@`
    /// contains an `@`. The only error is `OutOfMemory`, if memory runs out.
    ///
    /// ```
    /// let parser = CronParser::new();
    /// let fault = parser.explain(alloc, "0 9 * * MONDAY")?; // the letter at byte 11, in the weekday
    /// ```
    pub fn explain(&self, alloc: Global, text: &str) -> Result<Option<PatternFault>, CronError>
        ensures { Explains self.now text.now result }
    {
        match self.parse_or_explain(alloc, text) {
            Ok(ParseOutcome::Accepted(_job)) => Ok(None),
            Ok(ParseOutcome::Refused(fault)) => Ok(Some(fault)),
            Err(AllocError) => Err(CronError::OutOfMemory),
        }
    }

    /// Reads a pattern, or says why it is refused: the job that [`CronParser::parse`] gives for a text that it accepts, or else the
    /// fault that [`CronParser::explain`] gives.
    ///
    /// A text is read once; the two calls would read it twice. The only error is lack of memory, as for `explain`.
    ///
    /// ```
    /// let parser = CronParser::new();
    /// match parser.parse_or_explain(alloc, "0 9 * * MONDAY")? {
    ///     ParseOutcome::Accepted(job) => schedule(job)?,
    ///     ParseOutcome::Refused(fault) => mark(fault.start, fault.end)?, // the letter at byte 11
    /// }
    /// ```
    pub fn parse_or_explain(&self, alloc: Global, text: &str) -> Result<ParseOutcome, AllocError>
        ensures { IfOk result (IsParseOutcome self.now text.now) }
    {
        match self.parse_text(alloc, text) {
            Ok(pattern) => Ok(ParseOutcome::Accepted(Cron { pattern })),
            Err(Stop::Refused(cause)) => {
                Ok(ParseOutcome::Refused(self.fault_of(alloc, text, cause)?))
            }
            Err(Stop::OutOfMemory) => Err(AllocError),
        }
    }

    /// The fault of a text refused for this cause.
    fn fault_of(&self, alloc: Global, text: &str, cause: Cause) -> Result<PatternFault, AllocError>
        requires { outcome self.now text.now ≡ Err (refusal_of cause) }
        ensures { IfOk result (λ f. IsFault self.now text.now (refusal_of cause) f) }
    {
        let words = words_of(alloc, text)?;
        let found = find_fault(alloc, self, text, words.as_slice(), cause)?;
        Ok(fault_at(text, cause, found))
    }

    /// The error of a text refused for this cause, with its message.
    pub(super) fn error_of(&self, alloc: Global, text: &str, cause: Cause) -> CronError
        requires { outcome self.now text.now ≡ Err (refusal_of cause) }
        ensures { Fails {Y = Meaning} result (Err (refusal_of cause)) }
    {
        let Ok(message) = self.message(alloc, text, cause) else {
            return CronError::OutOfMemory;
        };
        match cause {
            Cause::Empty => CronError::EmptyPattern,
            Cause::Invalid => CronError::InvalidPattern(message),
            Cause::Illegal(_) => CronError::IllegalCharacters(message),
            Cause::Component(_, _) => CronError::ComponentError(message),
        }
    }

    /// The message of a refused text: its fault, and what the text says there. An empty text has none.
    fn message(&self, alloc: Global, text: &str, cause: Cause) -> Result<String, AllocError>
        requires { outcome self.now text.now ≡ Err (refusal_of cause) }
    {
        if let Cause::Empty = cause {
            return Ok(String::new(alloc));
        }
        let fault = self.fault_of(alloc, text, cause)?;
        let (start, end) = bytes_to_repeat(text, &fault);
        let found = found_at(alloc, text, start, end)?;
        format!(in alloc; "{fault} Found: {found}.")
    }
}

/// The bytes that a message repeats: the fault's place, or the whole text where the fault is of all its words.
fn bytes_to_repeat(text: &str, fault: &PatternFault) -> (usize, usize) {
    if let Expected::Text(
        ExpectedText::Count {
            found,
            seconds,
            year,
            hint,
        },
    ) = fault.expected
    {
        if found <= most_fields(seconds, year) || is_of_all_words(hint) {
            return (0, text.len());
        }
    }
    (fault.start, fault.end)
}

/// Whether a hint is of the words in front: a setting, a comment, or a first field too many.
fn is_of_all_words(hint: Hint) -> bool {
    matches!(
        hint,
        Hint::Text(TextHint::Setting | TextHint::Comment)
            | Hint::Fields(FieldsHint::NoSecond | FieldsHint::NoSecondAndYear)
    )
}
