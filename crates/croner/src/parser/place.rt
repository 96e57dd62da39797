//! The fault at a place of a text.

ghost use Rattle.std.specs.Prelude.{◌≡◌, ◌+◌, ◌<◌, ℕ, List, length, take, IsCharBoundary};
ghost use Rattle.std.specs.Str.{chars};
ghost use Rattle.croner.specs.parser.Faults.{IsFault, counted_word, named_field, place_of_word, unwritten};
ghost use Rattle.croner.specs.parser.Settings.{Settings};
ghost use Rattle.croner.specs.parser.Words.{words};
ghost use Rattle.croner.specs.Private.parser.Places.{IsFound};
ghost use Rattle.croner.specs.Private.parser.Steps.{refusal_of};

use super::CronParser;
use super::fault::{PatternFault, PatternField};
use super::pieces::Finding;
use super::prepare::has_byte;
use super::stop::Cause;

/// The fault at a place of a text.
pub fn fault_at(text: &str, cause: Cause, found: Finding) -> PatternFault
    requires starts { IsCharBoundary text.now found.start }
    ensures { (s : Settings) → IsFound s text.now (refusal_of cause) found.start found.end → IsFault s text.now (refusal_of cause) result }
{
    PatternFault {
        kind: cause.kind(),
        field: named_field(text, cause),
        start: found.start,
        end: found.end,
        character: character_at(text, found.start),
        expected: found.expected,
    }
}

/// The field that refused a text. None for a text with `@`: it may get fields that aren't written in it, so no word of
/// it is a field.
fn named_field(text: &str, cause: Cause) -> Option<PatternField>
    ensures { result ≡ named_field text.now (refusal_of cause) }
{
    if has_byte(text, b'@') {
        return None;
    }
    cause.field()
}

/// The place of a field's word among so many words of a text, from 0.
pub fn place_of_word(field: PatternField, count: usize) -> usize
    ensures { (text : List ℕ) → count ≡ length (words text) → result ≡ place_of_word text field }
{
    field.place().saturating_sub(unwritten(count))
}

/// The number of the word at which a count is wrong: the first one too many, or the last of too few.
pub fn counted_word(parser: &CronParser, count: usize) -> usize
    ensures { (text : List ℕ) → count ≡ length (words text) → result ≡ counted_word parser.now text }
{
    let most = parser.most_fields();
    if most < count { most + 1 } else { count }
}

/// The place of the character that begins at a byte, from 1.
fn character_at(text: &str, start: usize) -> usize
    requires { IsCharBoundary text.now start }
    ensures { result ≡ length (chars (take start text.now)) + 1 }
{
    let (front, _) = text.split_at(start);
    front.chars().count() + 1
}

/// How many fields before the first word are not written, given the number of words: five words begin with the minutes.
fn unwritten(count: usize) -> usize
    ensures count { (text : List ℕ) → count ≡ length (words text) → result ≡ unwritten text }
    ensures small { result < 2 }
{
    if count == 5 { 1 } else { 0 }
}
