//! What to write in place of a field that cron doesn't take.
//!
//! Croner's parser says, as data, why it refuses the first part of the field that cron doesn't take; the words here say so much of that
//! as holds for cron too. If the line looks like one of another program, what it may have been meant as is told first.

use super::reasons::{fields_before, reason_of, words_of_cron};
use croncheck_output::front::{COMMAND_BYTES, push_front};
use croner::parser::{
    CronParser, Expected, ExpectedCharacter, ExpectedStar, ExpectedStep, ExpectedValue, FieldsHint,
    Hint, PatternFault, PatternField, Seconds, SignHint, Suggestion, TextHint, Year,
};
use crontab::bytes::{Kind, begins_with, cut, rest_of};
use crontab::line::{Fault, words_of};
use std::alloc::{AllocError, Global};
use std::fmt;

/// How many digits a year has.
const YEAR_LENGTH: usize = 4;

const MINUTES_PER_HOUR: u32 = 60;

const HOURS_PER_DAY: u32 = 24;

/// Appends to a text why cron refuses a field: cron's own words, the part of the list that it doesn't take, what is wrong there, and what
/// to write; where nothing of this is known, which values the field takes. Besides, it tells of a sign in an earlier field that isn't what
/// it looks like: cron may have passed over it, and taken the next field for this one.
pub(super) fn push_hint(
    alloc: Global,
    text: &mut String,
    fault: Fault,
    line: &[u8],
    field: &[u8],
    part: &[u8],
) -> Result<(), AllocError> {
    text.push_str(words_of_cron(fault))?;
    push_hint_of_field(alloc, text, fault, line, field, part)?;
    match foreign_sign_before(line, fields_before(fault)) {
        Some(sign) => {
            text.push_str("; in a field before it")?;
            push_sign(text, sign)
        }
        None => Ok(()),
    }
}

// Puts after cron's words what is wrong with a field, and what to write.
fn push_hint_of_field(
    alloc: Global,
    text: &mut String,
    fault: Fault,
    line: &[u8],
    field: &[u8],
    part: &[u8],
) -> Result<(), AllocError> {
    if let Some(sign) = foreign_sign(field) {
        return push_sign(text, sign);
    }
    if let Some(words) = words_of_another(fault, line, field, part) {
        return write!(text, ": {words}");
    }
    push_part(text, field, part)?;
    if let Some(found) = fault_in(alloc, fault, part)? {
        if push_expected(text, &found.expected, days_without_star(fault, line))? {
            return Ok(());
        }
    }
    text.push_str(values_of(fault))
}

// Puts after a text which part of a list is at fault, where it is one of several.
fn push_part(text: &mut String, field: &[u8], part: &[u8]) -> Result<(), AllocError> {
    if part.is_empty() || part.len() == field.len() {
        return Ok(());
    }
    text.push_str(": the list has ")?;
    push_front(text, part, COMMAND_BYTES)
}

// Which values a field takes.
fn values_of(fault: Fault) -> &'static str {
    match reason_of(fault).strip_prefix(words_of_cron(fault)) {
        Some(values) => values,
        None => "",
    }
}

// ---- signs that look like others

// The first such character of so many fields of a line.
fn foreign_sign_before(line: &[u8], count: u8) -> Option<char> {
    for place in 0..count {
        if let Some(sign) = foreign_sign(word_at(line, usize::from(place))) {
            return Some(sign);
        }
    }
    None
}

/// The first character of a field that isn't of ASCII and looks like a blank, a quote or nothing.
pub(super) fn foreign_sign(field: &[u8]) -> Option<char> {
    let Ok(text) = std::str::from_utf8(field) else {
        return None;
    };
    text.chars().find(|sign| is_foreign(*sign))
}

fn is_foreign(sign: char) -> bool {
    is_unseen(sign) || is_other_blank(sign) || is_curly(sign)
}

// Nothing is seen of it.
fn is_unseen(sign: char) -> bool {
    matches!(
        sign,
        '\u{200b}'..='\u{200f}' | '\u{2060}' | '\u{feff}' | '\u{ad}'
    )
}

// It looks like a blank.
fn is_other_blank(sign: char) -> bool {
    matches!(
        sign,
        '\u{a0}' | '\u{1680}' | '\u{2000}'..='\u{200a}'
            | '\u{2028}'
            | '\u{2029}'
            | '\u{202f}'
            | '\u{205f}'
            | '\u{3000}'
    )
}

// It is a typographic quote.
fn is_curly(sign: char) -> bool {
    matches!(sign, '\u{2018}'..='\u{201f}' | '\u{ab}' | '\u{bb}')
}

/// Puts after a text what is said of such a sign.
pub(super) fn push_sign(text: &mut String, sign: char) -> Result<(), AllocError> {
    let code = u32::from(sign);
    if sign == '\u{feff}' {
        return text.push_str(
            ": a byte order mark (U+FEFF) stands here, which is a part of the word: save the file without one",
        );
    }
    let words = if is_curly(sign) {
        "is a typographic quote, which has no meaning here: leave it out"
    } else if is_other_blank(sign) {
        "looks like a space, but is none to cron: write a space"
    } else {
        "is invisible, and a part of the word: take it out"
    };
    write!(text, ": U+{code:04X} {words}")
}

// ---- lines of other programs

// What is said of a line that another program takes, or a shell.
fn words_of_another(fault: Fault, line: &[u8], field: &[u8], part: &[u8]) -> Option<&'static str> {
    match fault {
        Fault::Minutes => match words_of_first(line, field) {
            Some(words) => Some(words),
            None => words_of_part(line, part),
        },
        _ => words_of_part(line, part),
    }
}

// The same of the first word of a line.
fn words_of_first(line: &[u8], word: &[u8]) -> Option<&'static str> {
    if is_one_of(word, &["export", "set", "setenv", "declare"]) {
        return Some(
            "this is no shell: a setting is NAME=value alone, and the commands see it: leave out the first word",
        );
    }
    if is_unset_name(line, word) {
        return Some("a setting has a = after its name, as MAILTO=root");
    }
    words_of_schedule(word)
}

/// What is said of the first word of a line that is a schedule of AWS, or an interval in words.
pub(super) fn words_of_schedule(word: &[u8]) -> Option<&'static str> {
    if word.starts_with(b"cron(") {
        return Some(
            "cron(..) is of AWS: write its first five fields alone, with * for ?, no year, and weekdays by name, since AWS counts them from 1 for Sunday",
        );
    }
    if word.starts_with(b"at(") {
        return Some(
            "at(..) is of AWS, and means one time: write minute, hour, day and month, as 30 9 1 5 * for 1 May at 9:30, which then comes each year",
        );
    }
    if word.starts_with(b"rate(") || is_word(word, "every") {
        return Some(
            "an interval is a step: write */5 * * * * for each fifth minute, 0 */2 * * * for each second hour",
        );
    }
    None
}

// Whether a word is a name of a setting, after which no `=` stands: capitals and underscores, two at least, and no month or weekday.
fn is_unset_name(line: &[u8], word: &[u8]) -> bool {
    let (_, content) = cut(line, Kind::Blank);
    let (_, after) = cut(content, Kind::Word);
    let (_, next) = cut(after, Kind::Blank);
    3 < word.len() && is_name_of_setting(word) && is_value(next)
}

// Whether a text may be the value of a setting: it doesn't begin with `=`, nor as a field does.
fn is_value(text: &[u8]) -> bool {
    match text {
        [] => false,
        [first, ..] => !first.is_ascii_digit() && *first != b'*' && *first != b'=',
    }
}

fn is_name_of_setting(word: &[u8]) -> bool {
    word.iter()
        .all(|byte| byte.is_ascii_uppercase() || *byte == b'_')
}

// The same of a part of any field.
fn words_of_part(line: &[u8], part: &[u8]) -> Option<&'static str> {
    if is_word(part, "?") {
        return Some(if has_year(line) {
            "cron has no ? and no field of years: write * for ?, leave out the year after the weekdays, and name these, since AWS counts them from 1 for Sunday"
        } else {
            "cron has no ?: write *"
        });
    }
    words_of_hashed(part)
}

/// What is said of a part that Jenkins takes.
pub(super) fn words_of_hashed(part: &[u8]) -> Option<&'static str> {
    if is_hashed(part) {
        Some(
            "H is a value that Jenkins picks: write a number of your own, as in 7, or 7-59/15 for H/15",
        )
    } else {
        None
    }
}

// Whether a part is `H`, alone or with a range or a step.
fn is_hashed(part: &[u8]) -> bool {
    begins_with(part, b'H') && matches!(rest_of(part), [] | [b'/' | b'(', ..])
}

/// What is said of a pattern of six fields that is one of AWS: a year stands last, and a `?` in place of the days or the weekdays. Whether
/// the parser takes six fields decides what to write.
pub(super) fn words_of_years(pattern: &[u8], takes_six: bool) -> Option<&'static str> {
    let has_open_day = is_word(word_at(pattern, 2), "?") || is_word(word_at(pattern, 4), "?");
    if !has_open_day || !has_year(pattern) || !word_at(pattern, 6).is_empty() {
        return None;
    }
    Some(if takes_six {
        "six fields with the year last are of AWS: write 0 in front, for the seconds, leave out a * at the end, and name weekdays, since AWS counts them from 1 for Sunday"
    } else {
        "six fields with the year last are of AWS: write the first five alone, with * for ?, and name weekdays, since AWS counts them from 1 for Sunday"
    })
}

// Whether the sixth word of a line is a star or a year, or begins with a year.
fn has_year(line: &[u8]) -> bool {
    let word = word_at(line, 5);
    let (year, rest) = word.split_at(YEAR_LENGTH.min(word.len()));
    is_word(word, "*") || is_year(year) && matches!(rest, [] | [b'-' | b',' | b'/', ..])
}

// The word of a line at a place, from 0; empty where the line has fewer.
fn word_at(line: &[u8], place: usize) -> &[u8] {
    let (_, mut rest) = cut(line, Kind::Blank);
    for _word in 0..place {
        let (_, after) = cut(rest, Kind::Word);
        let (_, next) = cut(after, Kind::Blank);
        rest = next;
    }
    let (word, _) = cut(rest, Kind::Word);
    word
}

// Whether a word is a number of four digits.
fn is_year(word: &[u8]) -> bool {
    word.len() == YEAR_LENGTH && word.iter().all(|byte| byte.is_ascii_digit())
}

fn is_one_of(word: &[u8], names: &[&str]) -> bool {
    names.iter().any(|name| is_word(word, name))
}

fn is_word(word: &[u8], name: &str) -> bool {
    word == name.as_bytes()
}

// ---- what croner's parser says of a part

// The field of a pattern.
fn field_of(fault: Fault) -> PatternField {
    match fault {
        Fault::Hours => PatternField::Hours,
        Fault::Days => PatternField::DayOfMonth,
        Fault::Months => PatternField::Month,
        Fault::Weekdays => PatternField::Weekday,
        _ => PatternField::Minutes,
    }
}

// Why croner's parser refuses a part of a field, which stands alone in a pattern. `None` if it takes the part, or refuses another field.
fn fault_in(alloc: Global, fault: Fault, part: &[u8]) -> Result<Option<PatternFault>, AllocError> {
    let Ok(part) = std::str::from_utf8(part) else {
        return Ok(None);
    };
    let pattern = pattern_of(alloc, fault, part)?;
    let parser = CronParser::builder()
        .seconds(Seconds::Disallowed)
        .year(Year::Disallowed)
        .build();
    let Ok(found) = parser.explain(alloc, pattern.as_str()) else {
        return Err(AllocError);
    };
    match found {
        Some(found) if found.field == Some(field_of(fault)) => Ok(Some(found)),
        _ => Ok(None),
    }
}

// A pattern of this part of a field alone.
fn pattern_of(alloc: Global, fault: Fault, part: &str) -> Result<String, AllocError> {
    match fault {
        Fault::Hours => format!(in alloc; "* {part} * * *"),
        Fault::Days => format!(in alloc; "* * {part} * *"),
        Fault::Months => format!(in alloc; "* * * {part} *"),
        Fault::Weekdays => format!(in alloc; "* * * * {part}"),
        _ => format!(in alloc; "{part} * * * *"),
    }
}

// Puts after a text what was expected, where it says more than which values the field takes, and holds for cron.
// `days` are the values of the field in place of a star, if a star would change the meaning.
fn push_expected(
    text: &mut String,
    expected: &Expected,
    days: Option<&'static str>,
) -> Result<bool, AllocError> {
    match expected {
        Expected::Step(ExpectedStep::RangeBefore { suggestion }) => {
            let stepped = Stepped {
                suggestion: *suggestion,
                days,
            };
            write!(text, ": a step may only follow * or a range{stepped}")?;
        }
        Expected::Character(ExpectedCharacter::Legal { hint, .. }) if holds_for_cron(*hint) => {
            write!(text, ": this sign has no meaning here.{hint}")?;
        }
        Expected::Value(
            ExpectedValue::Number {
                hint: Hint::None,
                ..
            },
        )
        | Expected::Value(ExpectedValue::Ascending { .. })
        | Expected::Character(ExpectedCharacter::Legal { .. })
        | Expected::Step(ExpectedStep::Shorter | ExpectedStep::FirstAlone { .. })
        | Expected::Star(ExpectedStar::QuestionAlone | ExpectedStar::OneQuestion)
        | Expected::Text(_)
        | Expected::Nickname(_)
        | Expected::Day(_) => return Ok(false),
        Expected::Step(ExpectedStep::Number { .. }) => text.push_str(
            ": a step is a number from 1 on, and follows * or a range: write */15 or 5-59/15",
        )?,
        Expected::Character(ExpectedCharacter::Name { .. })
        | Expected::Value(
            ExpectedValue::Number { .. }
            | ExpectedValue::NumberBeside { .. }
            | ExpectedValue::OneSign { .. },
        )
        | Expected::Step(ExpectedStep::WithoutUnit { .. })
        | Expected::Star(ExpectedStar::StarAlone | ExpectedStar::OneStar) => {
            write!(text, ": {expected}")?;
        }
    }
    Ok(true)
}

// Whether a hint of a sign holds for cron, which knows no signs of dates.
fn holds_for_cron(hint: Hint) -> bool {
    matches!(
        hint,
        Hint::Text(TextHint::Interval { .. } | TextHint::Quotes)
            | Hint::Fields(FieldsHint::TimeOfDay)
            | Hint::Sign(SignHint::NamesTogether | SignHint::Dash | SignHint::Midnight)
    )
}

// The values of a day field at fault as a range, if a star there would change the meaning: the other day field doesn't begin with one, so
// that a day then has to match both.
fn days_without_star(fault: Fault, line: &[u8]) -> Option<&'static str> {
    let (_, content) = cut(line, Kind::Blank);
    let words = words_of(content);
    match fault {
        Fault::Days if !begins_with(words.weekdays, b'*') => Some("1-31"),
        Fault::Weekdays if !begins_with(words.days, b'*') => Some("0-6"),
        _ => None,
    }
}

// What to write in place of a step after a number; where nothing says the same, an example.
#[derive(Clone, Copy)]
struct Stepped {
    suggestion: Suggestion,
    days: Option<&'static str>,
}

impl fmt::Display for Stepped {
    fn fmt<W: fmt::Write>(&self, f: &mut fmt::Formatter<W>) -> fmt::Result {
        match (self.suggestion, self.days) {
            (Suggestion::None, _) => f.write_str(": write */15 or 5-59/15"),
            (Suggestion::StarStep { step }, Some(days)) => write!(f, ": write {days}/{step}"),
            (suggestion, _) => write!(f, "{suggestion}"),
        }
    }
}

// ---- nicknames

/// What a word that looks like a nickname, and is none, may have been meant as. Its text says what to write.
#[derive(Clone, Copy)]
pub(super) enum Meant {
    /// A blank stands after the `@`.
    NoName,
    Noon,
    /// `@every` so many minutes, which divide an hour, and are fewer than it has.
    Minutes(u32),
    /// `@every` hour, as one hour or 60 minutes.
    Hour,
    /// `@every` so many hours, which divide a day: more than one, and fewer than a day has.
    Hours(u32),
    /// `@every` day, as 24 hours.
    Day,
    /// `@every` another length.
    Interval,
}

impl fmt::Display for Meant {
    fn fmt<W: fmt::Write>(&self, f: &mut fmt::Formatter<W>) -> fmt::Result {
        match self {
            Meant::NoName => f.write_str("no blank may follow the @: write @daily"),
            Meant::Noon => f.write_str("write 0 12 * * *"),
            Meant::Minutes(minutes) => write!(f, "write */{minutes} * * * *"),
            Meant::Hour => f.write_str("write @hourly"),
            Meant::Hours(hours) => write!(f, "write 0 */{hours} * * *"),
            Meant::Day => f.write_str("write @daily"),
            Meant::Interval => f.write_str(
                "an interval is a step, as */5 * * * * for each fifth minute, and begins anew with each hour or day",
            ),
        }
    }
}

/// Puts after a text what is to be written in place of a nickname that cron refuses, or answers that nothing is known of it.
pub(super) fn push_nickname_hint(
    text: &mut String,
    line: &[u8],
    name: &[u8],
) -> Result<bool, AllocError> {
    let Some(meant) = meant_by(line, name) else {
        return Ok(false);
    };
    match meant {
        Meant::NoName => write!(text, "bad time specifier: {meant}")?,
        Meant::Noon => write!(text, "bad time specifier: cron has no @noon: {meant}")?,
        Meant::Minutes(_) | Meant::Hour | Meant::Hours(_) | Meant::Day | Meant::Interval => {
            write!(text, "bad time specifier: cron has no @every: {meant}")?
        }
    }
    Ok(true)
}

/// What the name after the `@` of a line may have been meant as, if that is known.
pub(super) fn meant_by(line: &[u8], name: &[u8]) -> Option<Meant> {
    if name.is_empty() {
        Some(Meant::NoName)
    } else if name.eq_ignore_ascii_case(b"every") {
        Some(interval_of(second_word(line)))
    } else if name.eq_ignore_ascii_case(b"noon") {
        Some(Meant::Noon)
    } else {
        None
    }
}

// The second word of a line.
fn second_word(line: &[u8]) -> &[u8] {
    let (_, content) = cut(line, Kind::Blank);
    let (_, after) = cut(content, Kind::Word);
    let (_, rest) = cut(after, Kind::Blank);
    let (word, _) = cut(rest, Kind::Word);
    word
}

// What `@every` and a length, as `5m`, may have been meant as.
fn interval_of(length: &[u8]) -> Meant {
    match length {
        [digits @ .., b'm'] => match divisor_of(MINUTES_PER_HOUR, digits) {
            Some(minutes) if minutes == MINUTES_PER_HOUR => Meant::Hour,
            Some(minutes) => Meant::Minutes(minutes),
            None => Meant::Interval,
        },
        [digits @ .., b'h'] => match divisor_of(HOURS_PER_DAY, digits) {
            Some(hours) if hours == HOURS_PER_DAY => Meant::Day,
            Some(1) => Meant::Hour,
            Some(hours) => Meant::Hours(hours),
            None => Meant::Interval,
        },
        _ => Meant::Interval,
    }
}

// The number that these digits write, if it divides another one.
fn divisor_of(all: u32, digits: &[u8]) -> Option<u32> {
    let text = std::str::from_utf8(digits).ok()?;
    let number = text.parse::<u32>().ok()?;
    if number != 0 && all % number == 0 {
        Some(number)
    } else {
        None
    }
}
