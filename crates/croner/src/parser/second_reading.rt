//! The second reading of a refused text: where its first fault is, and what was expected there. It looks at the text as it was
//! given, with its own letters and names.

ghost use Rattle.std.specs.Prelude.{◌≡◌, ◌+◌, ◌<◌, ◌^◌, ℕ, List, [], true, length, IfOk, MatchOption, IsCharBoundary, IsSomeAnd};
ghost use Rattle.std.specs.Str.{str_to_ascii_uppercase};
ghost use Rattle.croner.specs.parser.Faults.{from_illegal, place_of_word, word_at};
ghost use Rattle.croner.specs.parser.Grammar.{Invalid, Illegal as IllegalRefusal, Component, without_sign};
ghost use Rattle.croner.specs.Private.parser.Places.{AreItsWords, HasCauseInSight, IsFound, IsIllegalFrom, IsIllegalIn, IsPartIn, IsWithin, IsWordFrom, IsWritten, has_part};
ghost use Rattle.croner.specs.Private.parser.Steps.{refusal_of};

use super::characters::{from_illegal, without_sign};
use super::fault::{
    Expected, ExpectedCharacter, ExpectedNickname, ExpectedStep, ExpectedText, FieldsHint, Hint,
    PatternField, SignHint, TextHint,
};
use super::part::{Rules, Segment, fault_of_part};
use super::pieces::{Finding, Piece};
use super::place::{counted_word, place_of_word};
use super::prepare::{NAME_LENGTH, has_byte, name_at, replace_names};
use super::settle::replace_questions;
use super::stop::{Cause, Stop};
use super::{CronParser, Seconds, Year};
use std::alloc::{AllocError, Global};

/// How many words make a pattern whose first is the seconds.
const WORDS_WITH_SECONDS: usize = 6;

/// How many fields every pattern has.
const LEAST_FIELDS: usize = 5;

/// The whole text, for a fault.
fn finding_of_whole(text: &str, expected: Expected) -> Finding
    ensures starts { result.start ≡ 0 }
    ensures ends { result.end ≡ length text.now }
{
    Finding {
        start: 0,
        end: text.len(),
        expected,
    }
}

/// Where the fault of a refused text is: in the word of the field that refused it, or in the count of words.
pub fn find_fault(
    alloc: Global,
    parser: &CronParser,
    text: &str,
    words: &[Piece<'_>],
    cause: Cause,
) -> Result<Finding, AllocError>
    requires words { AreItsWords text.now words.now }
    requires cause { HasCauseInSight text.now (refusal_of cause) }
    ensures { IfOk result (λ found. IsFound parser.now text.now (refusal_of cause) found.start found.end) }
{
    match cause {
        Cause::Empty => Ok(finding_of_whole(text, Expected::Text(ExpectedText::Pattern))),
        Cause::Invalid => wrong_count(alloc, parser, text, words),
        Cause::Illegal(field) => illegal_character(alloc, parser, text, words, field),
        Cause::Component(field, part) => refused_part(alloc, parser, text, words, field, part),
    }
}

// ---- counts

/// The first field too many, or the last word of a text with too few; for a nickname, all of it.
fn wrong_count(
    alloc: Global,
    parser: &CronParser,
    text: &str,
    words: &[Piece<'_>],
) -> Result<Finding, AllocError>
    requires words { AreItsWords text.now words.now }
    requires cause { HasCauseInSight text.now Invalid }
    ensures { IfOk result (λ found. IsFound parser.now text.now Invalid found.start found.end) }
{
    let most = parser.most_fields();
    if most == 0 {
        return Ok(finding_of_whole(text, Expected::Text(ExpectedText::Settings)));
    }
    let expected = Expected::Text(ExpectedText::Count {
        found: words.len(),
        seconds: parser.seconds,
        year: parser.year,
        hint: hint_of_count(alloc, parser, text, words, most)?,
    });
    if has_byte(text, b'@') {
        return Ok(finding_of_whole(text, nickname_fault(words, expected, parser)));
    }
    let number = counted_word(parser, words.len());
    let Some(word) = words.get(number.saturating_sub(1)) else {
        unreachable!()
    };
    Ok(word.finding(expected))
}

/// Why there may be too many fields, or too few.
fn hint_of_count(
    alloc: Global,
    parser: &CronParser,
    text: &str,
    words: &[Piece<'_>],
    most: usize,
) -> Result<Hint, AllocError> {
    if most < words.len() {
        return hint_of_many(alloc, parser, text, words, most);
    }
    hint_of_few(alloc, parser, text, words)
}

/// Why there may be too few fields: a nickname without its sign, a time of day, something other than a pattern, or an interval
/// in words. Or the second or the year that the settings require is missing.
fn hint_of_few(
    alloc: Global,
    parser: &CronParser,
    text: &str,
    words: &[Piece<'_>],
) -> Result<Hint, AllocError> {
    if let [word] = words {
        if let Some(nickname) = nickname_of(word.text, parser.year) {
            return Ok(Hint::Text(TextHint::AtSign { nickname }));
        }
    }
    if words.iter().any(|word| is_time_of_day(word.text)) {
        return Ok(Hint::Fields(FieldsHint::TimeOfDay));
    }
    if let Some(hint) = hint_of_no_pattern(words) {
        return Ok(Hint::Text(hint));
    }
    if is_interval(words) {
        let pattern = each_fifth_minute(parser);
        return Ok(Hint::Text(TextHint::Interval { pattern }));
    }
    if words.len() >= LEAST_FIELDS && is_pattern(alloc, parser, text)? {
        return Ok(Hint::Fields(hint_of_wanted(parser, words)));
    }
    Ok(Hint::None)
}

/// Whether words are an interval, as `every 5 minutes` and `5 minutes`.
fn is_interval(words: &[Piece<'_>]) -> bool {
    match words {
        [number, unit] if number.text.chars().all(is_digit) => is_unit(unit.text),
        [first, _, ..] => first.text.eq_ignore_ascii_case("every"),
        _ => false,
    }
}

/// The units of an interval, as it is written in words.
const UNITS: [&str; 10] = [
    "second", "seconds", "min", "mins", "minute", "minutes", "hour", "hours", "day", "days",
];

fn is_unit(word: &str) -> bool {
    UNITS.iter().any(|unit| word.eq_ignore_ascii_case(unit))
}

/// Whether a text would be a pattern if any count of fields were accepted.
fn is_pattern(alloc: Global, parser: &CronParser, text: &str) -> Result<bool, AllocError> {
    match parser.for_any_count().parse_text(alloc, text) {
        Ok(_pattern) => Ok(true),
        Err(Stop::Refused(_)) => Ok(false),
        Err(Stop::OutOfMemory) => Err(AllocError),
    }
}

/// Which field that the settings require a pattern lacks.
fn hint_of_wanted(parser: &CronParser, words: &[Piece<'_>]) -> FieldsHint {
    if parser.year != Year::Required {
        return FieldsHint::SecondInFront;
    }
    if words.len() == LEAST_FIELDS {
        return FieldsHint::SecondAndYear;
    }
    FieldsHint::YearAtEnd
}

/// The nickname that a word would be with `@` before it, if the settings accept one.
fn nickname_of(word: &str, year: Year) -> Option<&'static str> {
    if year == Year::Required {
        return None;
    }
    NICKNAMES
        .iter()
        .copied()
        .find(|nickname| is_nickname_of(nickname, word))
}

/// The nicknames of patterns.
const NICKNAMES: [&str; 6] = [
    "@yearly",
    "@annually",
    "@monthly",
    "@weekly",
    "@daily",
    "@hourly",
];

fn is_nickname_of(nickname: &str, word: &str) -> bool {
    match nickname.strip_prefix('@') {
        Some(name) => word.eq_ignore_ascii_case(name),
        None => false,
    }
}

/// Whether a word is two numbers with a `:` between them.
fn is_time_of_day(word: &str) -> bool {
    match word.split_once(':') {
        Some((hours, minutes)) => hours.ends_with(is_digit) && minutes.starts_with(is_digit),
        None => false,
    }
}

/// What a text that is no pattern may be: a setting, or a comment.
fn hint_of_no_pattern(words: &[Piece<'_>]) -> Option<TextHint> {
    let first = text_at(words, 0);
    if first.starts_with('#') {
        return Some(TextHint::Comment);
    }
    if first.contains('=') {
        return Some(TextHint::Setting);
    }
    None
}

/// Why there may be too many fields: a space beside a sign, a second or a year that the settings don't have, or a command
/// after the pattern.
fn hint_of_many(
    alloc: Global,
    parser: &CronParser,
    text: &str,
    words: &[Piece<'_>],
    most: usize,
) -> Result<Hint, AllocError> {
    if let Some(hint) = hint_of_no_pattern(words) {
        return Ok(Hint::Text(hint));
    }
    for word in words.iter().take(most) {
        if word.text.ends_with(',') || word.text.starts_with(',') {
            return Ok(Hint::Fields(FieldsHint::SpaceAfterComma));
        }
        if word.text == "-" || word.text == "/" {
            return Ok(Hint::Fields(FieldsHint::SpaceInPart));
        }
    }
    if is_pattern(alloc, parser, text)? {
        return Ok(Hint::Fields(hint_of_unwanted(parser, words)));
    }
    hint_of_command(alloc, words, most)
}

/// Which field a pattern has that the settings don't.
fn hint_of_unwanted(parser: &CronParser, words: &[Piece<'_>]) -> FieldsHint {
    if parser.seconds != Seconds::Disallowed {
        return FieldsHint::NoYear;
    }
    if words.len() == WORDS_WITH_SECONDS {
        return FieldsHint::NoSecond;
    }
    FieldsHint::NoSecondAndYear
}

/// Where a command may begin: at the first word after five that no field accepts.
fn hint_of_command(alloc: Global, words: &[Piece<'_>], most: usize) -> Result<Hint, AllocError> {
    for (place, word) in words.iter().enumerate().take(most.saturating_add(1)) {
        if place < LEAST_FIELDS || is_of_days(alloc, *word)? {
            continue;
        }
        if place < most {
            return Ok(Hint::Text(TextHint::CommandAfter { fields: place }));
        }
        return Ok(Hint::Text(TextHint::Command));
    }
    Ok(Hint::None)
}

/// Whether each character of a word is legal in the day of month, or each in the weekday; these two accept every sign.
fn is_of_days(alloc: Global, word: Piece<'_>) -> Result<bool, AllocError> {
    let raised = word.text.to_ascii_uppercase(alloc)?;
    let in_days = illegal_at(word.text, raised.as_str(), PatternField::DayOfMonth);
    let in_weekdays = illegal_at(word.text, raised.as_str(), PatternField::Weekday);
    Ok(in_days == word.text.len() || in_weekdays == word.text.len())
}

/// Why a text with `@` is refused for its count.
fn nickname_fault(words: &[Piece<'_>], count: Expected, parser: &CronParser) -> Expected {
    match words {
        [first, ..] if first.text.starts_with('@') => {
            Expected::Nickname(expected_of_nickname(first.text, words.len(), parser))
        }
        _ => count,
    }
}

/// What was expected of so many words, the first of which begins with `@`.
fn expected_of_nickname(first: &str, found: usize, parser: &CronParser) -> ExpectedNickname {
    if first.eq_ignore_ascii_case("@every") {
        let pattern = each_fifth_minute(parser);
        return ExpectedNickname::Interval { pattern };
    }
    let is_reboot = first.eq_ignore_ascii_case("@reboot");
    if parser.year == Year::Required {
        return match nickname_in_fields(first) {
            Some(pattern) if found == 1 => ExpectedNickname::InFields { pattern },
            Some(_) => ExpectedNickname::WithoutYear,
            None if is_reboot => ExpectedNickname::OfTimeWithoutYear,
            None => ExpectedNickname::KnownWithoutYear,
        };
    }
    if found == 1 && first.eq_ignore_ascii_case("@midnight") {
        return ExpectedNickname::Daily;
    }
    if is_reboot {
        return ExpectedNickname::OfTime;
    }
    ExpectedNickname::Known
}

/// The pattern for every fifth minute, with the fields that the settings require.
fn each_fifth_minute(parser: &CronParser) -> &'static str {
    if parser.year == Year::Required {
        return "0 */5 * * * * *";
    }
    if parser.seconds == Seconds::Required {
        return "0 */5 * * * *";
    }
    "*/5 * * * *"
}

/// The seven fields of a nickname, and of `@midnight`, which isn't a nickname here.
fn nickname_in_fields(word: &str) -> Option<&'static str> {
    if word.eq_ignore_ascii_case("@yearly") || word.eq_ignore_ascii_case("@annually") {
        return Some("0 0 0 1 1 * *");
    }
    if word.eq_ignore_ascii_case("@monthly") {
        return Some("0 0 0 1 * * *");
    }
    if word.eq_ignore_ascii_case("@weekly") {
        return Some("0 0 0 * * SUN *");
    }
    if word.eq_ignore_ascii_case("@daily") || word.eq_ignore_ascii_case("@midnight") {
        return Some("0 0 0 * * * *");
    }
    if word.eq_ignore_ascii_case("@hourly") {
        return Some("0 0 * * * * *");
    }
    None
}

// ---- characters

/// The word of a field, and its place among the words; `None` if there is none.
fn word_of<'t>(words: &[Piece<'t>], field: PatternField) -> Option<(usize, Piece<'t>)>
    ensures { (text : List ℕ) → AreItsWords text words.now → IsWritten text field
        → IsSomeAnd result (λ x. IsWordFrom text (place_of_word text field) x.1.start x.1.text.now × (x.1.text.now ≡ word_at text (place_of_word text field))) }
{
    let place = place_of_word(field, words.len());
    let word = words.get(place)?;
    Some((place, *word))
}

/// The first character of a field's word that is not legal there, or the `@` of a text with one, since that may get fields
/// that aren't written.
fn illegal_character(
    alloc: Global,
    parser: &CronParser,
    text: &str,
    words: &[Piece<'_>],
    field: PatternField,
) -> Result<Finding, AllocError>
    requires words { AreItsWords text.now words.now }
    requires cause { HasCauseInSight text.now (IllegalRefusal field) }
    ensures { IfOk result (λ found. IsFound parser.now text.now (IllegalRefusal field) found.start found.end) }
{
    if let Some(start) = text.find('@') {
        return Ok(at_sign(start));
    }
    let Some((place, word)) = word_of(words, field) else {
        unreachable!()
    };
    let Some(illegal) = illegal_in_word(alloc, word, field)? else {
        unreachable!()
    };
    let expected = illegal.expectation(place, words, field, text, parser.alternative_weekdays);
    Ok(Finding {
        start: illegal.start,
        end: illegal.end,
        expected,
    })
}

/// The `@` at a byte of a text.
fn at_sign(start: usize) -> Finding
    requires { start + 1 < 2 ^ 64 }
    ensures starts { result.start ≡ start }
    ensures ends { result.end ≡ start + 1 }
{
    Finding {
        start,
        end: start + 1,
        expected: Expected::Nickname(ExpectedNickname::NoAtSign),
    }
}

/// The hint that a text has another line, in place of none, or of one on a command.
fn hint_of_lines(text: &str, hint: Hint) -> Hint {
    if hint != Hint::None && hint != Hint::Text(TextHint::Command) {
        return hint;
    }
    match text.trim_end().split_once('\n') {
        Some((line, _)) if !line.trim_start().is_empty() => Hint::Text(TextHint::LineFeed {
            character: line.chars().count().saturating_add(1),
        }),
        _ => hint,
    }
}

/// Why such a character may be where it is not legal.
fn hint_of_character(c: char) -> Hint {
    match c {
        'L' | 'W' | '?' | '#' | '+' => Hint::Sign(SignHint::Elsewhere { sign: c }),
        ':' => Hint::Fields(FieldsHint::TimeOfDay),
        '"' | '\'' | '`' => Hint::Text(TextHint::Quotes),
        '\u{2010}'..='\u{2015}' | '\u{2212}' => Hint::Sign(SignHint::Dash),
        _ => Hint::None,
    }
}

/// A character that is not legal in its field, in capitals, with its place in the text. Also the name that ends right
/// before it, whether a value does, and whether there is a letter beside it.
#[derive(Clone, Copy)]
struct Illegal {
    c: char,
    start: usize,
    end: usize,
    name: Option<&'static str>,
    is_after_value: bool,
    is_in_word: bool,
}

impl Illegal {
    /// What was expected instead of the character, given the place of its word.
    fn expectation(
        self,
        place: usize,
        words: &[Piece<'_>],
        field: PatternField,
        text: &str,
        quartz: bool,
    ) -> Expected {
        if let Some(step) = self.step_of(words, place, field) {
            return Expected::Step(ExpectedStep::WithoutUnit { step });
        }
        match self.name {
            Some(name) if self.c.is_ascii_uppercase() && is_name_of(name, field) => {
                Expected::Character(ExpectedCharacter::Name { name })
            }
            _ => Expected::Character(ExpectedCharacter::Legal {
                field,
                quartz,
                hint: hint_of_lines(text, self.hint(place, words, field)),
            }),
        }
    }

    /// Why the character may be in the word at a place.
    fn hint(self, place: usize, words: &[Piece<'_>], field: PatternField) -> Hint {
        let hint = hint_of_character(self.c);
        if place >= LEAST_FIELDS && !self.is_sign_of_value(hint) {
            return Hint::Text(TextHint::Command);
        }
        if place == 0 {
            if let Some(no_pattern) = hint_of_no_pattern(words) {
                return Hint::Text(no_pattern);
            }
        }
        if hint == Hint::Text(TextHint::Quotes) || hint == Hint::Sign(SignHint::Dash) {
            return hint;
        }
        if self.c == '?' && text_at(words, place) == "?" {
            return Hint::Sign(SignHint::StarForQuestion);
        }
        if self.is_in_word {
            return self.hint_of_name(field);
        }
        hint
    }

    /// Whether no command begins here: it is a `?`, or a sign or a dash after a value.
    fn is_sign_of_value(self, hint: Hint) -> bool {
        if hint == Hint::Sign(SignHint::Dash) {
            return self.is_after_value;
        }
        let is_sign = matches!(hint, Hint::Sign(SignHint::Elsewhere { .. }));
        self.c == '?' || is_sign && self.is_after_value && !self.is_in_word
    }

    /// The step before a unit of the field, as 5 in `*/5m` in the minutes.
    fn step_of(self, words: &[Piece<'_>], place: usize, field: PatternField) -> Option<u16> {
        let unit = match field {
            PatternField::Seconds => 'S',
            PatternField::Minutes => 'M',
            PatternField::Hours => 'H',
            PatternField::DayOfMonth => 'D',
            PatternField::Month | PatternField::Weekday | PatternField::Year => return None,
        };
        let word = words.get(place)?;
        let at = self.start.saturating_sub(word.start);
        let number = word.text.get(..at)?.strip_prefix("*/")?;
        let rest = word.text.get(at..)?;
        if self.c != unit || !rest.chars().all(is_letter) {
            return None;
        }
        match number.parse::<u16>() {
            Ok(step) if step > 0 && step < 60 => Some(step),
            _ => None,
        }
    }

    /// The hint that a name, with more letters after it, is one of another field.
    fn hint_of_name(self, field: PatternField) -> Hint {
        match self.name {
            Some(name) if self.c.is_ascii_uppercase() && !is_name_of(name, field) => {
                if is_name_of(name, PatternField::Month) {
                    Hint::Sign(SignHint::MonthElsewhere)
                } else {
                    Hint::Sign(SignHint::WeekdayElsewhere)
                }
            }
            _ => Hint::None,
        }
    }
}

fn is_letter(c: char) -> bool {
    c.is_ascii_alphabetic()
}

/// Whether a character in capitals ends a value that is no name.
fn ends_value(c: char) -> bool {
    c.is_ascii_digit() || c == 'L'
}

/// Whether a character and what follows it are `LW`.
fn is_last(c: char, rest: &str) -> bool {
    c == 'L' && rest == "W"
}

/// Whether a name is one of the field's values.
fn is_name_of(name: &str, field: PatternField) -> bool {
    let is_weekday = matches!(name, "SUN" | "MON" | "TUE" | "WED" | "THU" | "FRI" | "SAT");
    if is_weekday {
        field == PatternField::Weekday
    } else {
        field == PatternField::Month
    }
}

/// The first character of a word that is in no name and not legal in the field; `None` if there is none.
fn illegal_in_word(
    alloc: Global,
    word: Piece<'_>,
    field: PatternField,
) -> Result<Option<Illegal>, AllocError>
    requires { word.start + length word.text.now < 2 ^ 64 }
    ensures { IfOk result (λ o. MatchOption o (from_illegal field (without_sign field (str_to_ascii_uppercase word.entry.text.now)) ≡ [])
        (λ i. IsIllegalIn field word.entry.text.now word.entry.start i.start i.end)) }
{
    let raised = word.text.to_ascii_uppercase(alloc)?;
    let at = illegal_at(word.text, raised.as_str(), field);
    let (_, after) = word.text.split_at(at);
    let Some(c) = after.chars().next() else {
        return Ok(None);
    };
    let end = at + c.len_utf8();
    let name = name_before(raised.as_str(), at);
    Ok(Some(Illegal {
        c: c.to_ascii_uppercase(),
        start: word.start + at,
        end: word.start + end,
        name,
        is_after_value: name.is_some() || is_after_value(raised.as_str(), at),
        is_in_word: name.is_some() || is_before_letter(raised.as_str(), end, c),
    }))
}

/// The byte at which a word's field stops accepting it, or the word's length if the field accepts all. `raised` is the word in
/// capitals.
fn illegal_at(word: &str, raised: &str, field: PatternField) -> usize
    requires { raised.now ≡ str_to_ascii_uppercase word.now }
    ensures { IsIllegalFrom field word.now result }
{
    raised.len() - from_illegal(field, without_sign(field, raised)).len()
}

/// The name that ends at a byte of a text in capitals.
fn name_before(raised: &str, at: usize) -> Option<&'static str> {
    name_at(raised, at.checked_sub(NAME_LENGTH)?)
}

/// Whether a number or an `L` ends at a byte of a text in capitals.
fn is_after_value(raised: &str, at: usize) -> bool {
    match raised.get(..at) {
        Some(front) => front.ends_with(ends_value),
        None => false,
    }
}

/// Whether a letter begins at a byte of a text in capitals, other than the `W` of an `LW`.
fn is_before_letter(raised: &str, end: usize, c: char) -> bool {
    match raised.get(end..) {
        Some(rest) => rest.starts_with(is_letter) && !is_last(c.to_ascii_uppercase(), rest),
        None => false,
    }
}

// ---- parts

/// The part of a field's word that the field refused, or the `@` of a text with one.
fn refused_part(
    alloc: Global,
    parser: &CronParser,
    text: &str,
    words: &[Piece<'_>],
    field: PatternField,
    part: usize,
) -> Result<Finding, AllocError>
    requires words { AreItsWords text.now words.now }
    requires cause { HasCauseInSight text.now (Component field part) }
    ensures { IfOk result (λ found. IsFound parser.now text.now (Component field part) found.start found.end) }
{
    if let Some(start) = text.find('@') {
        return Ok(at_sign(start));
    }
    let Some((place, word)) = word_of(words, field) else {
        unreachable!()
    };
    let Some(written) = part_of(word, field, part) else {
        unreachable!()
    };
    let rules = Rules {
        field,
        quartz: parser.alternative_weekdays,
        sloppy: parser.sloppy_ranges,
        hint: hint_of(parser.year, field, words, place),
    };
    let read = as_read(alloc, written.text, rules.quartz)?;
    let refused = Segment {
        written,
        read: read.as_str(),
    };
    let (found, expected) = fault_of_part(refused, rules);
    Ok(found_within(text, found, written, expected))
}

/// The place of a piece that lies within another one, or else that of the other.
fn found_within(text: &str, piece: Piece<'_>, whole: Piece<'_>, expected: Expected) -> Finding
    requires small { whole.start + length whole.text.now < 2 ^ 64 }
    requires whole { IsWithin text.now whole.start (whole.start + length whole.text.now) whole.start (whole.start + length whole.text.now) }
    ensures { IsWithin text.now whole.entry.start (whole.entry.start + length whole.entry.text.now) result.start result.end }
{
    let (start, end) = (piece.start, piece.end());
    let lies_within = whole.start <= start && start < end && end <= whole.end();
    if lies_within && text.is_char_boundary(start) && text.is_char_boundary(end) {
        return Finding {
            start,
            end,
            expected,
        };
    }
    whole.finding(expected)
}

/// The part of a word at a place from 0, without the sign before the word.
fn part_of(word: Piece<'_>, field: PatternField, part: usize) -> Option<Piece<'_>>
    requires { word.start + length word.text.now < 2 ^ 64 }
    ensures { has_part part (without_sign field word.entry.text.now) ≡ true → IsSomeAnd result (λ p. IsPartIn word.entry.text.now word.entry.start part p) }
{
    let text = without_sign(field, word.text);
    let start = word.start + (word.text.len() - text.len());
    part_from(Piece { text, start }, part)
}

/// The part of a list at a place from 0.
fn part_from(list: Piece<'_>, part: usize) -> Option<Piece<'_>>
    requires { list.start + length list.text.now < 2 ^ 64 }
    ensures { has_part part list.entry.text.now ≡ true → IsSomeAnd result (λ p. IsPartIn list.entry.text.now list.entry.start part p) }
{
    let Some((text, after)) = list.text.split_once(',') else {
        return if part == 0 { Some(list) } else { None };
    };
    if part == 0 {
        return Some(Piece {
            text,
            start: list.start,
        });
    }
    let start = list.start + text.len() + 1;
    let rest = Piece { text: after, start };
    part_from(rest, part - 1)
}

/// Why a refused part may be in the word at a place: a space beside a sign, or six fields that end in a year.
fn hint_of(year: Year, field: PatternField, words: &[Piece<'_>], place: usize) -> Hint {
    let before = match place.checked_sub(1) {
        Some(before) => text_at(words, before),
        None => "",
    };
    let word = text_at(words, place);
    let after = text_at(words, place.saturating_add(1));
    if before.ends_with(',') || word.ends_with(',') || word.starts_with(',') {
        return Hint::Fields(FieldsHint::SpaceAfterComma);
    }
    if goes_on(before, word) || goes_on(word, after) {
        return Hint::Fields(FieldsHint::SpaceInPart);
    }
    if words.len() != WORDS_WITH_SECONDS {
        return Hint::None;
    }
    if field != PatternField::Weekday && !words.last().is_some_and(|last| is_year(last.text)) {
        return Hint::None;
    }
    if year == Year::Disallowed {
        return Hint::Fields(FieldsHint::SixWithoutYear);
    }
    Hint::Fields(FieldsHint::Six)
}

fn text_at<'t>(words: &[Piece<'t>], place: usize) -> &'t str {
    match words.get(place) {
        Some(word) => word.text,
        None => "",
    }
}

/// Whether a range or a step may go on from one word to the next: a number or a name, a dash or a slash, and a number or a name.
fn goes_on(word: &str, next: &str) -> bool {
    if word.ends_with(is_range_sign) {
        return next.starts_with(is_of_value);
    }
    next.starts_with(is_range_sign) && word.ends_with(is_of_value)
}

fn is_of_value(c: char) -> bool {
    c.is_ascii_alphanumeric()
}

fn is_range_sign(c: char) -> bool {
    c == '-' || c == '/'
}

fn is_digit(c: char) -> bool {
    c.is_ascii_digit()
}

/// Whether a word is a number of four digits.
fn is_year(word: &str) -> bool {
    word.len() == 4 && word.as_bytes().iter().all(|b| b.is_ascii_digit())
}

/// A part as the field reads it: in capitals, with numbers for names and `*` for `?`.
fn as_read(alloc: Global, part: &str, quartz: bool) -> Result<String, AllocError> {
    let raised = part.to_ascii_uppercase(alloc)?;
    let numbers = replace_names(alloc, raised.as_str(), quartz)?;
    let Some(numbers) = numbers else {
        return Ok(raised);
    };
    match replace_questions(alloc, numbers.as_str())? {
        Some(starred) => Ok(starred),
        None => Ok(numbers),
    }
}
