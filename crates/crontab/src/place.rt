//! The place of a fault in its line.
ghost use Rattle.std.specs.Prelude.{◌≡◌, ◌≤◌, ◌+◌, [], length};
ghost use Rattle.crontab.specs.declared.bytes.Kind.TheVariants as kinds;
ghost use Rattle.crontab.specs.Bytes.{text_after, rest_of};
ghost use Rattle.crontab.specs.Line.{next};
ghost use Rattle.crontab.specs.Place.{text_after_times, command_of, place_in, text_from_refused, text_after_refused, IsBetween, IsPlaceOf};

use crate::bytes::{Kind, begins_with, cut, rest_of};
use crate::field::FieldBounds;
use crate::line::{DAYS, Fault, HOURS, MINUTES, MONTHS, WEEKDAYS, word};
use crate::list::refused_in;

/// Some bytes of a line, counted from 0.
pub struct Span {
    /// The first one.
    pub start: usize,
    /// The one after the last.
    pub end: usize,
}

// The bytes of a line from where `text` begins to where `after` does; both reach to the line's end.
fn span_between(line: &[u8], text: &[u8], after: &[u8]) -> Span
    requires { length after.now ≤ length text.now }
    ensures place { IsBetween line.now text.now after.now result.start result.end }
    ensures order { result.start ≤ result.end }
    ensures within { result.end ≤ length line.now }
{
    Span {
        start: line.len().saturating_sub(text.len()),
        end: line.len().saturating_sub(after.len()),
    }
}

// The word that a text begins with.
fn word_at(line: &[u8], text: &[u8]) -> Span
    ensures place { IsBetween line.now text.now (text_after kinds.Word text.now) result.start result.end }
    ensures order { result.start ≤ result.end }
    ensures within { result.end ≤ length line.now }
{
    let (_, after) = cut(text, Kind::Word);
    span_between(line, text, after)
}

// The part for which cron refuses the field that a text begins with; the whole of a field that cron takes.
fn part_at(line: &[u8], text: &[u8], bounds: FieldBounds) -> Span
    ensures place { IsBetween line.now (text_from_refused bounds text.now) (text_after_refused bounds text.now) result.start result.end }
    ensures order { result.start ≤ result.end }
    ensures within { result.end ≤ length line.now }
{
    let (field, _) = cut(text, Kind::Word);
    let (start, end) = place_in(bounds, field);
    let (_, from) = text.split_at(start);
    let (_, after) = text.split_at(end);
    span_between(line, from, after)
}

// The place in a field of the part for which cron refuses it, or of the whole.
fn place_in(bounds: FieldBounds, field: &[u8]) -> (usize, usize)
    ensures place { result ≡ place_in bounds field.now }
    ensures order { result.0 ≤ result.1 }
    ensures within { result.1 ≤ length field.now }
{
    match refused_in(bounds, field) {
        Some(found) => found,
        None => (0, field.len()),
    }
}

// What follows the first word and the blanks after it.
fn next(text: &[u8]) -> &[u8]
    ensures { result.now ≡ next text.now }
{
    let (_, rest) = word(text);
    rest
}

// What follows four words and the blanks after them.
fn text_after_four_words(text: &[u8]) -> &[u8]
    ensures { result.now ≡ next (next (next (next text.now))) }
{
    next(next(next(next(text))))
}

// What follows the times.
fn text_after_times(text: &[u8]) -> &[u8]
    ensures { result.now ≡ text_after_times text.now }
{
    if begins_with(text, b'@') {
        next(text)
    } else {
        next(text_after_four_words(text))
    }
}

// The command, which reaches to the line's end. In a crontab of the system it comes after a user and one blank.
fn command_at(line: &[u8], system: bool, rest: &[u8]) -> Span
    ensures place { IsBetween line.now (command_of system rest.now) [] result.start result.end }
    ensures order { result.start ≤ result.end }
    ensures within { result.end ≤ length line.now }
{
    if system {
        let (_, after) = cut(rest, Kind::Word);
        return span_between(line, rest_of(after), &[]);
    }
    span_between(line, rest, &[])
}

// The first byte 0.
fn nul_at(line: &[u8], text: &[u8]) -> Span
    ensures place { IsBetween line.now (text_after (kinds.But 0) text.now) (rest_of (text_after (kinds.But 0) text.now)) result.start result.end }
    ensures order { result.start ≤ result.end }
    ensures within { result.end ≤ length line.now }
{
    let (_, from) = cut(text, Kind::But(0));
    span_between(line, from, rest_of(from))
}

/// The place of a fault in a line of a crontab of the system or of a user; `text` is the line from its first byte that is
/// no blank. The place is the first part of a field's list that cron doesn't accept, the word of a nickname or of a user,
/// the command, or the byte 0. It is empty, at the line's end, where that word is missing. Where the fault is a byte 255
/// after a field that cron accepts, the place is the whole field.
pub fn place_of(line: &[u8], text: &[u8], system: bool, fault: Fault) -> Span
    ensures place { IsPlaceOf system line.now text.now fault result.start result.end }
    ensures order { result.start ≤ result.end }
    ensures within { result.end ≤ length line.now }
{
    match fault {
        Fault::Nul => nul_at(line, text),
        Fault::Nickname => word_at(line, text),
        Fault::Minutes => part_at(line, text, MINUTES),
        Fault::Hours => part_at(line, next(text), HOURS),
        Fault::Days => part_at(line, next(next(text)), DAYS),
        Fault::Months => part_at(line, next(next(next(text))), MONTHS),
        Fault::Weekdays => part_at(line, text_after_four_words(text), WEEKDAYS),
        Fault::User => word_at(line, text_after_times(text)),
        Fault::Command | Fault::LongCommand => command_at(line, system, text_after_times(text)),
    }
}
