//! Places of findings in their line.
ghost use Rattle.std.specs.Prelude.{◌≡◌, ◌||◌, ◌==◌, Some};
ghost use Rattle.std.specs.List.{list_all};
ghost use Rattle.crontab.specs.Line.{next};
ghost use Rattle.croncheck_findings.specs.Findings.{content_extent, times_extent, has_seconds, text_from_field, is_of_seconds, text_from_place, word_extent, field_extent, is_plain, place_of};
ghost use Rattle.croncheck_output.specs.Escaped.{is_printed};

use super::Extent;
use croner::parser::PatternField;
use crontab::bytes::{Kind, cut};
use crontab::line::word;

/// The place of a line after its blanks.
pub(crate) fn content_extent(line: &[u8]) -> Extent
    ensures { result ≡ content_extent line.now }
{
    let (blanks, _) = cut(line, Kind::Blank);
    Extent {
        start: blanks.len(),
        end: line.len(),
    }
}

/// The place of a line's times.
pub(crate) fn times_extent(line: &[u8], times: &[u8]) -> Extent
    ensures { result ≡ times_extent line.now times.now }
{
    let (blanks, _) = cut(line, Kind::Blank);
    Extent {
        start: blanks.len(),
        end: blanks.len() + times.len(),
    }
}

/// The place of a field of a line, and of its times where no field is named.
pub(crate) fn place_of(line: &[u8], times: &[u8], field: Option<PatternField>) -> Extent
    ensures { result ≡ place_of line.now times.now field }
{
    match field {
        Some(field) => place_of_field(line, times, field),
        None => times_extent(line, times),
    }
}

// The place of a field. If white space of Unicode may stand between the fields, it is the place of the
// times.
fn place_of_field(line: &[u8], times: &[u8], field: PatternField) -> Extent
    ensures { result ≡ place_of line.now times.now (Some field) }
{
    if is_plain(times) {
        field_extent(line, times, field)
    } else {
        times_extent(line, times)
    }
}

fn is_plain(text: &[u8]) -> bool
    ensures { result ≡ is_plain text.now }
{
    text.iter().all(|byte| is_plain_byte(*byte))
}

fn is_plain_byte(byte: u8) -> bool
    ensures { result ≡ (is_printed byte || byte == 9) }
{
    0x20 <= byte && byte <= 0x7e || byte == b'\t'
}

fn field_extent(line: &[u8], times: &[u8], field: PatternField) -> Extent
    ensures { result ≡ field_extent line.now times.now field }
{
    let (_, content) = cut(line, Kind::Blank);
    word_extent(line, text_from_place(has_seconds(times), field, content))
}

// The word with which the rest of a line begins.
fn word_extent(line: &[u8], rest: &[u8]) -> Extent
    ensures { result ≡ word_extent line.now rest.now }
{
    let (word, _) = cut(rest, Kind::Name);
    let start = line.len().saturating_sub(rest.len());
    Extent {
        start,
        end: start + word.len(),
    }
}

// What stands after the first word and the blanks after it.
fn next(text: &[u8]) -> &[u8]
    ensures { result.now ≡ next text.now }
{
    let (_, rest) = word(text);
    rest
}

// Whether times have six words or more.
fn has_seconds(times: &[u8]) -> bool
    ensures { result ≡ has_seconds times.now }
{
    !next(next(next(next(next(times))))).is_empty()
}

fn is_of_seconds(field: PatternField) -> bool
    ensures { result ≡ is_of_seconds field }
{
    match field {
        PatternField::Seconds => true,
        PatternField::Minutes
        | PatternField::Hours
        | PatternField::DayOfMonth
        | PatternField::Month
        | PatternField::Weekday
        | PatternField::Year => false,
    }
}

// A text from a field on, where seconds may stand in front of the minutes.
fn text_from_place(after_seconds: bool, field: PatternField, text: &[u8]) -> &[u8]
    ensures { result.now ≡ text_from_place after_seconds field text.now }
{
    if after_seconds && !is_of_seconds(field) {
        text_from_field(field, next(text))
    } else {
        text_from_field(field, text)
    }
}

// A text from a field on, where it begins with the minutes.
fn text_from_field(field: PatternField, text: &[u8]) -> &[u8]
    ensures { result.now ≡ text_from_field field text.now }
{
    match field {
        PatternField::Seconds | PatternField::Minutes => text,
        PatternField::Hours => next(text),
        PatternField::DayOfMonth => next(next(text)),
        PatternField::Month => next(next(next(text))),
        PatternField::Weekday => next(next(next(next(text)))),
        PatternField::Year => next(next(next(next(next(text))))),
    }
}
