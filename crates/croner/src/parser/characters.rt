//! Which characters a field accepts, and the first field that has another one.

ghost use Rattle.std.specs.Prelude.{◌≡◌, IfOk, MatchOption};
ghost use Rattle.std.specs.List.{list_all};
ghost use Rattle.croner.specs.parser.Grammar.{is_list_character, is_for_days, is_for_weekdays, are_legal, takes, takes_all, without_sign, illegal_field, is_word_legal, illegal_word};
ghost use Rattle.croner.specs.parser.Faults.{from_illegal};
ghost use Rattle.croner.specs.Private.parser.Steps.{IsAfterLegal};
ghost use Rattle.croner.specs.Views.{texts_of};

use super::fault::PatternField;
use super::fields::FieldTexts;
use super::prepare::{replace_names, text_after_name};
use super::settle::without_plus;
use std::alloc::{AllocError, Global};

fn is_list_character(b: u8) -> bool
    ensures { result ≡ is_list_character b }
{
    b.is_ascii_digit() || b == b'*' || b == b'/' || b == b',' || b == b'-'
}

fn is_for_days(b: u8) -> bool
    ensures { result ≡ is_for_days b }
{
    is_list_character(b) || b == b'L' || b == b'W'
}

fn is_for_weekdays(b: u8) -> bool
    ensures { result ≡ is_for_weekdays b }
{
    is_list_character(b) || b == b'#' || b == b'L'
}

fn all_plain(text: &str) -> bool
    ensures { result ≡ list_all is_list_character text.now }
{
    text.as_bytes().iter().all(|b| is_list_character(*b))
}

fn all_for_days(text: &str) -> bool
    ensures { result ≡ list_all is_for_days text.now }
{
    text.as_bytes().iter().all(|b| is_for_days(*b))
}

fn all_for_weekdays(text: &str) -> bool
    ensures { result ≡ list_all is_for_weekdays text.now }
{
    text.as_bytes().iter().all(|b| is_for_weekdays(*b))
}

/// Whether each character of each field is legal there.
pub fn are_legal(texts: FieldTexts<'_>) -> bool
    ensures { result ≡ are_legal (texts_of texts.entry) }
{
    all_plain(texts.seconds)
        && all_plain(texts.minutes)
        && all_plain(texts.hours)
        && all_for_days(texts.days)
        && all_plain(texts.months)
        && all_for_weekdays(texts.days_of_week)
        && all_plain(texts.years)
}

/// Whether a field accepts a character of a word in which `?` isn't replaced yet. A `+` before the weekdays isn't part of that word.
fn takes(field: PatternField, b: u8) -> bool
    ensures { result ≡ takes field b }
{
    match field {
        PatternField::DayOfMonth => is_for_days(b) || b == b'?',
        PatternField::Weekday => is_for_weekdays(b) || b == b'?',
        PatternField::Seconds
        | PatternField::Minutes
        | PatternField::Hours
        | PatternField::Month
        | PatternField::Year => is_list_character(b),
    }
}

fn takes_all(field: PatternField, text: &str) -> bool
    ensures { result ≡ takes_all field text.now }
{
    text.as_bytes().iter().all(|b| takes(field, *b))
}

/// The first field with a character that is not legal there; the year if no other field has one.
pub fn illegal_field(texts: FieldTexts<'_>) -> PatternField
    ensures { result ≡ illegal_field (texts_of texts.entry) }
{
    if !takes_all(PatternField::Seconds, texts.seconds) {
        PatternField::Seconds
    } else if !takes_all(PatternField::Minutes, texts.minutes) {
        PatternField::Minutes
    } else if !takes_all(PatternField::Hours, texts.hours) {
        PatternField::Hours
    } else if !takes_all(PatternField::DayOfMonth, texts.days) {
        PatternField::DayOfMonth
    } else if !takes_all(PatternField::Month, texts.months) {
        PatternField::Month
    } else if !takes_all(PatternField::Weekday, texts.days_of_week) {
        PatternField::Weekday
    } else {
        PatternField::Year
    }
}

/// The same for words whose names aren't replaced yet: a letter that means nothing is legal nowhere.
pub fn illegal_word(
    alloc: Global,
    words: FieldTexts<'_>,
    quartz: bool,
) -> Result<PatternField, AllocError>
    ensures { IfOk result (λ field. field ≡ illegal_word quartz (texts_of words.entry)) }
{
    if !is_word_legal(alloc, PatternField::Seconds, words.seconds, quartz)? {
        return Ok(PatternField::Seconds);
    }
    if !is_word_legal(alloc, PatternField::Minutes, words.minutes, quartz)? {
        return Ok(PatternField::Minutes);
    }
    if !is_word_legal(alloc, PatternField::Hours, words.hours, quartz)? {
        return Ok(PatternField::Hours);
    }
    if !is_word_legal(alloc, PatternField::DayOfMonth, words.days, quartz)? {
        return Ok(PatternField::DayOfMonth);
    }
    if !is_word_legal(alloc, PatternField::Month, words.months, quartz)? {
        return Ok(PatternField::Month);
    }
    if !is_word_legal(alloc, PatternField::Weekday, words.days_of_week, quartz)? {
        return Ok(PatternField::Weekday);
    }
    Ok(PatternField::Year)
}

/// Whether a word, with a number for each name, has only characters that a field accepts.
fn is_word_legal(
    alloc: Global,
    field: PatternField,
    word: &str,
    quartz: bool,
) -> Result<bool, AllocError>
    ensures { IfOk result (λ b. b ≡ is_word_legal quartz field word.now) }
{
    match replace_names(alloc, word, quartz)? {
        Some(text) => Ok(takes_all(field, without_sign(field, text.as_str()))),
        None => Ok(false),
    }
}

/// A word of a field without a sign before it: one `+` of the weekdays.
pub fn without_sign(field: PatternField, word: &str) -> &str
    ensures { result.now ≡ without_sign field word.now }
{
    match field {
        PatternField::Weekday => without_plus(word),
        PatternField::Seconds
        | PatternField::Minutes
        | PatternField::Hours
        | PatternField::DayOfMonth
        | PatternField::Month
        | PatternField::Year => word,
    }
}

/// The rest of a word in capitals from the first character that the field doesn't accept and that is in no name; empty if
/// there is none.
pub fn from_illegal(field: PatternField, word: &str) -> &str
    ensures { result.now ≡ from_illegal field word.now }
{
    let mut rest = word;
    while let Some(after) = text_after_legal(field, rest) {
        rest = after;
    }
    rest
}

/// What follows the name or the character that a text begins with, if the field accepts it.
fn text_after_legal(field: PatternField, text: &str) -> Option<&str>
    ensures { MatchOption result (from_illegal field text.now ≡ text.now) (λ rest. IsAfterLegal field text.now rest.now) }
{
    if let Some(rest) = text_after_name(text) {
        return Some(rest);
    }
    match text.as_bytes() {
        [first, ..] if takes(field, *first) => Some(&text[1..]),
        _ => None,
    }
}
