//! The words of error messages, all in one place.

use super::fault::{
    Expected, ExpectedCharacter, ExpectedDay, ExpectedNickname, ExpectedStar, ExpectedStep,
    ExpectedText, ExpectedValue, FieldValues, FieldsHint, Hint, PatternFault, PatternField,
    SignHint, Suggestion, TextHint, ValueNames,
};
use super::{Seconds, Year};
use std::fmt;

/// The message of a refusal, without what the text says: `In the field minutes, at character 1: expected a number from 0 to 59.`
impl fmt::Display for PatternFault {
    fn fmt<W: fmt::Write>(&self, f: &mut fmt::Formatter<W>) -> fmt::Result {
        let character = self.character;
        let expected = self.expected;
        match self.field {
            Some(field) => {
                let name = field.name();
                write!(
                    f,
                    "In the field {name}, at character {character}: {expected}"
                )
            }
            None => write!(f, "At character {character}: {expected}"),
        }
    }
}

/// What was expected, in a sentence.
impl fmt::Display for Expected {
    fn fmt<W: fmt::Write>(&self, f: &mut fmt::Formatter<W>) -> fmt::Result {
        match self {
            Expected::Text(text) => write!(f, "{text}"),
            Expected::Nickname(nickname) => write!(f, "{nickname}"),
            Expected::Character(character) => write!(f, "{character}"),
            Expected::Value(value) => write!(f, "{value}"),
            Expected::Step(step) => write!(f, "{step}"),
            Expected::Star(star) => f.write_str(star.sentence()),
            Expected::Day(day) => f.write_str(day.sentence()),
        }
    }
}

impl fmt::Display for ExpectedText {
    fn fmt<W: fmt::Write>(&self, f: &mut fmt::Formatter<W>) -> fmt::Result {
        match *self {
            ExpectedText::Pattern => f.write_str("expected a pattern."),
            ExpectedText::Count {
                found,
                seconds,
                year,
                hint,
            } => {
                let fields = if found == 1 { "field" } else { "fields" };
                let counts = expected_counts(seconds, year);
                write!(
                    f,
                    "the pattern has {found} {fields}, but {counts} are expected.{hint}"
                )
            }
            ExpectedText::Settings => f.write_str(
                "these settings accept no text, since they want a year and no seconds.",
            ),
        }
    }
}

impl fmt::Display for ExpectedNickname {
    fn fmt<W: fmt::Write>(&self, f: &mut fmt::Formatter<W>) -> fmt::Result {
        match *self {
            ExpectedNickname::Known => f.write_str(
                "no such nickname: they are @yearly, @annually, @monthly, @weekly, @daily and @hourly.",
            ),
            ExpectedNickname::Daily => f.write_str(
                "no such nickname, but one that says the same: write @daily.",
            ),
            ExpectedNickname::OfTime => f.write_str(
                "@reboot names no time: the nicknames are @yearly, @annually, @monthly, @weekly, @daily and @hourly.",
            ),
            ExpectedNickname::Interval { pattern } => write!(
                f,
                "no such nickname: an interval is a step, as in {pattern} for each fifth minute."
            ),
            ExpectedNickname::WithoutYear => f.write_str(
                "these settings want a year, which a nickname doesn't have: write seven fields.",
            ),
            ExpectedNickname::OfTimeWithoutYear => f.write_str(
                "@reboot names no time, and these settings want a year, which a nickname doesn't have: write seven fields.",
            ),
            ExpectedNickname::KnownWithoutYear => f.write_str(
                "no such nickname, and these settings want a year, which a nickname doesn't have: write seven fields.",
            ),
            ExpectedNickname::InFields { pattern } => write!(
                f,
                "these settings want a year, which a nickname doesn't have: write {pattern}."
            ),
            ExpectedNickname::NoAtSign => f.write_str(
                "a pattern has no '@': it stands only in front of a nickname, as in @daily.",
            ),
        }
    }
}

impl fmt::Display for ExpectedCharacter {
    fn fmt<W: fmt::Write>(&self, f: &mut fmt::Formatter<W>) -> fmt::Result {
        match *self {
            ExpectedCharacter::Name { name } => {
                write!(f, "a name has three letters: write {name}.")
            }
            ExpectedCharacter::Legal {
                field,
                quartz,
                hint,
            } => {
                let values = values_of(field, quartz);
                let signs = signs_of(field);
                if hint == Hint::None {
                    return write!(f, "expected {values} and the signs {signs}.");
                }
                write!(
                    f,
                    "this character is not legal here.{hint} Legal here: {values} and the signs {signs}."
                )
            }
        }
    }
}

impl fmt::Display for ExpectedValue {
    fn fmt<W: fmt::Write>(&self, f: &mut fmt::Formatter<W>) -> fmt::Result {
        match *self {
            ExpectedValue::Number { values, hint } => write!(f, "expected {values}.{hint}"),
            ExpectedValue::NumberBeside {
                sign,
                after,
                values,
                hint,
            } => {
                let side = if after { "after" } else { "in front of" };
                write!(f, "expected {values} {side} the '{sign}'.{hint}")
            }
            ExpectedValue::Ascending {
                suggestion: Suggestion::None,
            } => f.write_str("a range runs from the lower value to the higher one."),
            ExpectedValue::Ascending { suggestion } => write!(f, "a range goes up{suggestion}."),
            ExpectedValue::OneSign { sign } => write!(f, "expected one '{sign}' in a part."),
        }
    }
}

impl fmt::Display for ExpectedStep {
    fn fmt<W: fmt::Write>(&self, f: &mut fmt::Formatter<W>) -> fmt::Result {
        match *self {
            ExpectedStep::Number { hint } => {
                write!(f, "expected a step from 1 to 65535 after the '/'.{hint}")
            }
            ExpectedStep::Shorter => f.write_str(
                "the step is too long: the value after the last one may be at most 65535.",
            ),
            ExpectedStep::FirstAlone { first } => write!(
                f,
                "this step reaches no second value. Write {first} alone, with no step."
            ),
            ExpectedStep::WithoutUnit { step } => {
                write!(f, "a step is a number alone: write */{step}.")
            }
            ExpectedStep::RangeBefore { suggestion } => write!(
                f,
                "expected '*' or a range before the '/'{suggestion}, or let the parser take sloppy ranges."
            ),
        }
    }
}

impl ExpectedStar {
    fn sentence(&self) -> &'static str {
        match self {
            ExpectedStar::StarAlone => {
                "a '*' names every value, and stands alone in its field or in front of a '/': leave it out, or leave out the rest."
            }
            ExpectedStar::QuestionAlone => {
                "a '?' stands for '*', which names every value: leave it out, or leave out the rest."
            }
            ExpectedStar::OneStar => "expected one '*', which names every value.",
            ExpectedStar::OneQuestion => "expected one '?', which stands for '*'.",
        }
    }
}

impl ExpectedDay {
    fn sentence(&self) -> &'static str {
        match self {
            ExpectedDay::Nth => "expected a number from 1 to 5 or L after the '#'.",
            ExpectedDay::LastAlone => {
                "L stands by itself between commas, for the last day of the month, or as LW, for the last one from Monday to Friday."
            }
            ExpectedDay::LastCountedBack => {
                "no day can be counted back from the last one: L is the last day of the month, and LW the last one from Monday to Friday."
            }
            ExpectedDay::LastOfWeekday => {
                "L after a weekday belongs in the field weekday: here L stands by itself between commas, for the last day of the month, or as LW, for the last one from Monday to Friday."
            }
            ExpectedDay::LastAfterWeekday => {
                "L may only follow a single weekday: 5L is the last Friday of the month."
            }
            ExpectedDay::NearestAfterDay => {
                "W may only follow a single day of the month: 15W is the day from Monday to Friday that is nearest to the 15th."
            }
            ExpectedDay::LastNearest => "the last day of the month from Monday to Friday is LW.",
        }
    }
}

/// The hint as a sentence to follow another, with a space before it; empty if there is none.
impl fmt::Display for Hint {
    fn fmt<W: fmt::Write>(&self, f: &mut fmt::Formatter<W>) -> fmt::Result {
        match self {
            Hint::None => Ok(()),
            Hint::Fields(hint) => f.write_str(hint.words()),
            Hint::Text(hint) => write!(f, "{hint}"),
            Hint::Sign(hint) => f.write_str(hint.words()),
        }
    }
}

impl FieldsHint {
    fn words(&self) -> &'static str {
        match self {
            FieldsHint::Six => {
                " Six fields begin with the second: where the last is a year, write 0 in front of the six."
            }
            FieldsHint::SixWithoutYear => {
                " Six fields begin with the second, and these settings take no year."
            }
            FieldsHint::SpaceAfterComma => {
                " A space begins a new field: leave it out beside the commas of a list."
            }
            FieldsHint::SpaceInPart => {
                " A space begins a new field: leave it out inside a range or a step."
            }
            FieldsHint::NoSecond => " These settings take no second: leave out the first field.",
            FieldsHint::NoYear => " These settings take no year: leave out the last field.",
            FieldsHint::NoSecondAndYear => {
                " These settings take neither a second nor a year: leave out the first field and the last."
            }
            FieldsHint::SecondInFront => " Write 0 in front, for the second.",
            FieldsHint::YearAtEnd => " Write * at the end, for any year.",
            FieldsHint::SecondAndYear => {
                " Write 0 in front, for the second, and * at the end, for any year."
            }
            FieldsHint::TimeOfDay => " The minute and the hour are two fields, the minute first.",
        }
    }
}

impl fmt::Display for TextHint {
    fn fmt<W: fmt::Write>(&self, f: &mut fmt::Formatter<W>) -> fmt::Result {
        match *self {
            TextHint::Command => f.write_str(
                " If a user, a command or a comment stands here, leave it out: a pattern ends before it.",
            ),
            TextHint::CommandAfter { fields } => write!(
                f,
                " If a user, a command or a comment follows the first {fields} fields, leave all of it out: a pattern ends before it."
            ),
            TextHint::Interval { pattern } => write!(
                f,
                " An interval is a step, as in {pattern} for each fifth minute."
            ),
            TextHint::LineFeed { character } => write!(
                f,
                " The text has a line feed at character {character}, and a pattern is one line."
            ),
            TextHint::AtSign { nickname } => {
                write!(f, " A nickname begins with '@': write {nickname}.")
            }
            TextHint::Quotes => f.write_str(" Leave out the quotes."),
            TextHint::Setting => f.write_str(
                " A setting such as TZ=UTC is no part of a pattern: leave it out.",
            ),
            TextHint::Comment => f.write_str(" A comment is no pattern."),
        }
    }
}

impl SignHint {
    fn words(&self) -> &'static str {
        match self {
            SignHint::Elsewhere { sign } => sign_words(*sign),
            SignHint::StarForQuestion => {
                " ? stands only in the day of month and in the weekday: write *."
            }
            SignHint::NamesTogether => " A comma stands between two names.",
            SignHint::Dash => " A range is written with a dash (-).",
            SignHint::MonthElsewhere => {
                " Names of months stand in the month, and have three letters."
            }
            SignHint::WeekdayElsewhere => {
                " Names of weekdays stand in the weekday, and have three letters."
            }
            SignHint::Midnight => " Midnight is 0.",
        }
    }
}

/// Where a sign is legal, as a sentence to follow another.
fn sign_words(sign: char) -> &'static str {
    match sign {
        'L' => " L stands in the day of month, and after a weekday.",
        'W' => " W stands only in the day of month, after a day or after L.",
        '?' => " ? stands only in the day of month and in the weekday.",
        '#' => " # stands only in the weekday, after a weekday, as in FRI#2.",
        '+' => " + stands only in the weekday, once, in front of the whole field.",
        _ => "",
    }
}

/// The values of a field, in words.
fn values_of(field: PatternField, quartz: bool) -> &'static str {
    match field {
        PatternField::Seconds | PatternField::Minutes => "numbers from 0 to 59",
        PatternField::Hours => "numbers from 0 to 23",
        PatternField::DayOfMonth => "numbers from 1 to 31",
        PatternField::Month => "numbers from 1 to 12, names from JAN to DEC",
        PatternField::Weekday if quartz => {
            "numbers from 1 (Sunday) to 7 (Saturday), names from SUN to SAT"
        }
        PatternField::Weekday => "numbers from 0 to 7 (0 and 7 are Sunday), names from SUN to SAT",
        PatternField::Year => "numbers from 1 to 5000",
    }
}

/// The signs of a field, in words.
fn signs_of(field: PatternField) -> &'static str {
    match field {
        PatternField::DayOfMonth => {
            "star (*), slash (/), comma (,), dash (-), question mark (?), L (last day) and W (nearest day from Monday to Friday)"
        }
        PatternField::Weekday => {
            "star (*), slash (/), comma (,), dash (-), question mark (?), number sign (#) and L after a weekday (FRI#2, FRI#L) and one plus (+) in front"
        }
        PatternField::Seconds
        | PatternField::Minutes
        | PatternField::Hours
        | PatternField::Month
        | PatternField::Year => "star (*), slash (/), comma (,) and dash (-)",
    }
}

/// The counts of fields that settings accept, with the names of the fields.
fn expected_counts(seconds: Seconds, year: Year) -> &'static str {
    match (seconds, year) {
        (Seconds::Optional, Year::Optional) => {
            "5 (minute, hour, day, month, weekday), 6 (the second in front) or 7 (and the year at the end)"
        }
        (Seconds::Optional, Year::Disallowed) => {
            "5 (minute, hour, day, month, weekday) or 6 (the second in front)"
        }
        (Seconds::Required, Year::Optional) => {
            "6 (second, minute, hour, day, month, weekday) or 7 (the year at the end)"
        }
        (Seconds::Required, Year::Disallowed) => "6 (second, minute, hour, day, month, weekday)",
        (Seconds::Disallowed, Year::Required) => "no fields",
        (Seconds::Disallowed, Year::Optional | Year::Disallowed) => {
            "5 (minute, hour, day, month, weekday)"
        }
        (Seconds::Optional | Seconds::Required, Year::Required) => {
            "7 (second, minute, hour, day, month, weekday, year)"
        }
    }
}

/// `a number from 1 to 12 or a name from JAN to DEC`.
impl fmt::Display for FieldValues {
    fn fmt<W: fmt::Write>(&self, f: &mut fmt::Formatter<W>) -> fmt::Result {
        let least = self.least;
        let greatest = self.greatest;
        match self.names {
            ValueNames::Numbers => write!(f, "a number from {least} to {greatest}"),
            ValueNames::Months => write!(
                f,
                "a number from {least} to {greatest} or a name from JAN to DEC"
            ),
            ValueNames::Weekdays => write!(
                f,
                "a number from {least} to {greatest} (0 and 7 are Sunday) or a name from SUN to SAT"
            ),
            ValueNames::QuartzWeekdays => write!(
                f,
                "a number from {least} (Sunday) to {greatest} (Saturday) or a name from SUN to SAT"
            ),
        }
    }
}

/// `: write 22-23,0-2`, or empty if there is no suggestion.
impl fmt::Display for Suggestion {
    fn fmt<W: fmt::Write>(&self, f: &mut fmt::Formatter<W>) -> fmt::Result {
        match *self {
            Suggestion::None => Ok(()),
            Suggestion::StarStep { step } => write!(f, ": write */{step}"),
            Suggestion::RangeStep { first, last, step } => {
                write!(f, ": write {first}-{last}/{step}")
            }
            Suggestion::Around {
                first,
                greatest,
                least,
                last,
                names,
            } => {
                let up = Values {
                    first,
                    last: greatest,
                    names,
                };
                if last < least {
                    return write!(f, ": write {up}");
                }
                let on = Values {
                    first: least,
                    last,
                    names,
                };
                write!(f, ": write {up},{on}")
            }
        }
    }
}

/// A range of values, or one value.
#[derive(Clone, Copy)]
struct Values {
    first: u16,
    last: u16,
    names: ValueNames,
}

impl fmt::Display for Values {
    fn fmt<W: fmt::Write>(&self, f: &mut fmt::Formatter<W>) -> fmt::Result {
        let first = Value {
            number: self.first,
            names: self.names,
        };
        if self.first == self.last {
            return write!(f, "{first}");
        }
        let last = Value {
            number: self.last,
            names: self.names,
        };
        write!(f, "{first}-{last}")
    }
}

/// A value, as a number or by its name.
#[derive(Clone, Copy)]
struct Value {
    number: u16,
    names: ValueNames,
}

impl fmt::Display for Value {
    fn fmt<W: fmt::Write>(&self, f: &mut fmt::Formatter<W>) -> fmt::Result {
        let number = self.number;
        match value_name(number, self.names) {
            Some(name) => f.write_str(name),
            None => write!(f, "{number}"),
        }
    }
}

fn value_name(number: u16, names: ValueNames) -> Option<&'static str> {
    match names {
        ValueNames::Numbers => None,
        ValueNames::Months => month_name(number),
        ValueNames::Weekdays => weekday_name(number),
        ValueNames::QuartzWeekdays => weekday_name(number.saturating_sub(1)),
    }
}

fn month_name(number: u16) -> Option<&'static str> {
    match number {
        1 => Some("JAN"),
        2 => Some("FEB"),
        3 => Some("MAR"),
        4 => Some("APR"),
        5 => Some("MAY"),
        6 => Some("JUN"),
        7 => Some("JUL"),
        8 => Some("AUG"),
        9 => Some("SEP"),
        10 => Some("OCT"),
        11 => Some("NOV"),
        12 => Some("DEC"),
        _ => None,
    }
}

fn weekday_name(number: u16) -> Option<&'static str> {
    match number {
        0 | 7 => Some("SUN"),
        1 => Some("MON"),
        2 => Some("TUE"),
        3 => Some("WED"),
        4 => Some("THU"),
        5 => Some("FRI"),
        6 => Some("SAT"),
        _ => None,
    }
}
