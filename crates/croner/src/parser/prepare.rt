//! The first step: a text is put into capitals and trimmed, and its nickname and its names are replaced.

ghost use Rattle.std.specs.Prelude.{◌≡◌, Err, ◌++◌, ◌<◌, nat_le, Bool, None, false, [], ℕ, List, codes, length, option_map, slice_index, string_bytes, IfOk, OnOk, IfSome, MatchOption, if◌then◌else◌};
ghost use Rattle.croner_base.specs.Part.{contains_byte};
ghost use Rattle.croner.specs.parser.Cut.{months, weekdays, place_of, name_of, decimal_of, is_lost, weekday_number, replaced};
ghost use Rattle.croner.specs.parser.Grammar.{nickname_of, nicknamed, of_replaced};
ghost use Rattle.croner.specs.Private.parser.Steps.{HasNoName, IsAfterName, IsShown, AdvancesOrLost, Prepares, refusal_of};

use super::CronParser;
use super::characters::illegal_word;
use super::split::words;
use super::stop::{Cause, Stop};
use std::alloc::{AllocError, Global};

/// How many letters a name of a month or a weekday has.
pub const NAME_LENGTH: usize = 3;

impl CronParser {
    /// The text as a pattern keeps it: in capitals, trimmed, its nickname replaced, and with a number for each name.
    pub(super) fn prepare(&self, alloc: Global, given: &str) -> Result<String, Stop>
        ensures { Prepares self.now given.now result }
    {
        let raised = given.to_ascii_uppercase(alloc)?;
        let text = raised.as_str().trim();
        if text.is_empty() {
            return Err(Stop::Refused(Cause::Empty));
        }
        let nickname = self.nickname(alloc, text)?;
        let full = text_or(&nickname, text);
        match replace_names(alloc, full, self.alternative_weekdays)? {
            Some(prepared) => Ok(prepared),
            None => {
                let cause = self.cause_of_letter(alloc, full)?;
                Err(Stop::Refused(cause))
            }
        }
    }

    /// The text with its nickname replaced, if there is an `@`.
    fn nickname(&self, alloc: Global, text: &str) -> Result<Option<String>, AllocError>
        ensures { IfOk result (λ t. MatchOption t (nicknamed self.now text.now ≡ text.now) (λ t. string_bytes t ≡ nicknamed self.now text.now)) }
    {
        if !has_byte(text, b'@') {
            return Ok(None);
        }
        let seconds = self.seconds.is_required();
        let year = self.year.is_required();
        let full = pattern_of_nickname(alloc, text, seconds, year)?;
        Ok(Some(full))
    }

    /// Why a text with a letter that means nothing is refused: for its count of fields, or for the first field that has such a
    /// letter, or a character that is not legal there.
    fn cause_of_letter(&self, alloc: Global, full: &str) -> Result<Cause, AllocError>
        ensures { IfOk result (λ cause. of_replaced self.now full.now None ≡ Err (refusal_of cause)) }
    {
        let words = words(alloc, full)?;
        match self.fields_of(words.as_slice()) {
            Some(given) => {
                let field = illegal_word(alloc, given, self.alternative_weekdays)?;
                Ok(Cause::Illegal(field))
            }
            None => Ok(Cause::Invalid),
        }
    }
}

/// Whether a text has a byte.
pub fn has_byte(text: &str, byte: u8) -> bool
    ensures { result ≡ contains_byte byte text.now }
{
    text.as_bytes().iter().any(|b| *b == byte)
}

/// The copy of a text if there is one, or else the text.
pub fn text_or<'t>(copy: &'t Option<String>, text: &'t str) -> &'t str
    ensures { (expected : List ℕ) → MatchOption copy.now (expected ≡ text.now) (λ t. string_bytes t ≡ expected)
        → result.now ≡ expected }
{
    match copy {
        Some(copy) => copy.as_str(),
        None => text,
    }
}

/// The pattern that a nickname stands for. Any other text is itself.
fn nickname(text: &str) -> &str
    ensures { result.now ≡ nickname_of text.now }
{
    match text {
        "@YEARLY" | "@ANNUALLY" => "0 0 1 1 *",
        "@MONTHLY" => "0 0 1 * *",
        "@WEEKLY" => "0 0 * * SUN",
        "@DAILY" => "0 0 * * *",
        "@HOURLY" => "0 * * * *",
        _ => text,
    }
}

/// The pattern of a text with `@`: that of its nickname, if it is one, with the seconds before it and the year after
/// it if they are required.
pub fn pattern_of_nickname(
    alloc: Global,
    text: &str,
    seconds: bool,
    year: bool,
) -> Result<String, AllocError>
    ensures { IfOk result (λ t. string_bytes t
        ≡ (if seconds then codes "0 " else []) ++ nickname_of text.now ++ (if year then codes " *" else [])) }
{
    let mut full = String::new(alloc);
    if seconds {
        full.push_str("0 ")?;
    }
    full.push_str(nickname(text))?;
    if year {
        full.push_str(" *")?;
    }
    Ok(full)
}

/// The place of a month's name, 0 for January.
fn month_place(name: &str) -> Option<u8>
    ensures place { result ≡ place_of name.now 0 months }
    ensures small { IfSome result (λ n. n < 12) }
{
    match name {
        "JAN" => Some(0),
        "FEB" => Some(1),
        "MAR" => Some(2),
        "APR" => Some(3),
        "MAY" => Some(4),
        "JUN" => Some(5),
        "JUL" => Some(6),
        "AUG" => Some(7),
        "SEP" => Some(8),
        "OCT" => Some(9),
        "NOV" => Some(10),
        "DEC" => Some(11),
        _ => None,
    }
}

/// The place of a weekday's name, 0 for Sunday.
fn weekday_place(name: &str) -> Option<u8>
    ensures place { result ≡ place_of name.now 0 weekdays }
    ensures small { IfSome result (λ n. n < 7) }
{
    match name {
        "SUN" => Some(0),
        "MON" => Some(1),
        "TUE" => Some(2),
        "WED" => Some(3),
        "THU" => Some(4),
        "FRI" => Some(5),
        "SAT" => Some(6),
        _ => None,
    }
}

/// The number that stands for a name: months from 1, weekdays from 0 for Sunday, which is 7 directly after a dash. In
/// Quartz mode weekdays are counted from 1.
fn number_of(name: &str, after_dash: bool, quartz: bool) -> Option<u8>
    ensures { MatchOption result (name_of name.now ≡ None) (λ n. IsShown quartz after_dash name.now n) }
{
    if let Some(place) = month_place(name) {
        return Some(place + 1);
    }
    let place = weekday_place(name)?;
    Some(weekday_number(place, after_dash, quartz))
}

/// What follows the name that a text in capitals begins with; `None` if it begins with none.
pub fn text_after_name(text: &str) -> Option<&str>
    ensures { MatchOption result (HasNoName text.now) (λ rest. IsAfterName text.now rest.now) }
{
    let Some((name, rest)) = text.split_at_checked(NAME_LENGTH) else {
        return None;
    };
    number_of(name, false, false)?;
    Some(rest)
}

/// Whether a text may begin with a letter: it doesn't begin with a digit, or with a sign that ASCII has before the letters.
fn begins_with_letter(text: &str) -> bool
    ensures { result ≡ nat_le 65 (slice_index text.now 0) }
{
    match text.as_bytes() {
        [first, ..] => *first >= b'A',
        [] => false,
    }
}

/// The number of the weekday at a place from 0 for Sunday.
fn weekday_number(place: u8, after_dash: bool, quartz: bool) -> u8
    requires { place < 7 }
    ensures number { result ≡ weekday_number quartz after_dash place }
    ensures small { result < 8 }
{
    if quartz {
        place + 1
    } else if after_dash && place == 0 {
        7
    } else {
        place
    }
}

/// Appends a number below 20 to a text.
fn push_number(text: &mut String, number: u8) -> Result<(), AllocError>
    requires { number < 20 }
    ensures { OnOk result (string_bytes text.new ≡ string_bytes text.old ++ decimal_of number) }
{
    if number < 10 {
        return text.push(char::from(b'0' + number));
    }
    text.push('1')?;
    text.push(char::from(b'0' + (number - 10)))
}

/// Whether a letter means nothing by itself.
pub fn means_nothing(c: char) -> bool
    ensures { result ≡ is_lost c }
{
    c.is_ascii_uppercase() && c != 'L' && c != 'W'
}

/// Writes the replacement of the first piece of a text, a name or a character, and returns the rest of the text;
/// `None` if the text begins with a letter that means nothing.
fn push_piece<'t>(
    written: &mut String,
    text: &'t str,
    after_dash: bool,
    quartz: bool,
) -> Result<Option<&'t str>, AllocError>
    requires { 0 < length text.now }
    ensures { IfOk result (λ rest. AdvancesOrLost quartz after_dash text.now (string_bytes written.old) (string_bytes written.new) rest) }
{
    if !begins_with_letter(text) {
        return push_char(written, text);
    }
    if let Some((name, rest)) = text.split_at_checked(NAME_LENGTH) {
        if let Some(number) = number_of(name, after_dash, quartz) {
            push_number(written, number)?;
            return Ok(Some(rest));
        }
    }
    push_char(written, text)
}

/// Writes the first character of a text, and returns the rest; `None` if it is a letter that means nothing.
#[inline(always)]
fn push_char<'t>(written: &mut String, text: &'t str) -> Result<Option<&'t str>, AllocError>
    requires { 0 < length text.now }
    ensures { IfOk result (λ rest. (quartz : Bool) → (after_dash : Bool) → HasNoName text.now
        → AdvancesOrLost quartz after_dash text.now (string_bytes written.old) (string_bytes written.new) rest) }
{
    let mut chars = text.chars();
    match chars.next() {
        Some(c) if !means_nothing(c) => {
            written.push(c)?;
            Ok(Some(chars.as_str()))
        }
        _ => Ok(None),
    }
}

/// The text with a number in place of each name, in one pass; `None` if a letter is left that means nothing.
pub fn replace_names(alloc: Global, text: &str, quartz: bool) -> Result<Option<String>, AllocError>
    ensures { IfOk result (λ t. option_map string_bytes t ≡ replaced quartz false text.now) }
{
    let mut written = String::with_capacity(alloc, text.len())?;
    let mut rest = text;
    let mut after_dash = false;
    while !rest.is_empty() {
        let Some(next) = push_piece(&mut written, rest, after_dash, quartz)? else {
            return Ok(None);
        };
        after_dash = rest.as_bytes()[0] == b'-';
        rest = next;
    }
    Ok(Some(written))
}

/// The name of a month or a weekday at a byte of a text in capitals.
pub fn name_at(text: &str, at: usize) -> Option<&'static str> {
    let name = text.get(at..at.saturating_add(NAME_LENGTH))?;
    NAMES.iter().copied().find(|known| *known == name)
}

/// The names of months and weekdays.
const NAMES: [&str; 19] = [
    "JAN", "FEB", "MAR", "APR", "MAY", "JUN", "JUL", "AUG", "SEP", "OCT", "NOV", "DEC", "SUN",
    "MON", "TUE", "WED", "THU", "FRI", "SAT",
];
