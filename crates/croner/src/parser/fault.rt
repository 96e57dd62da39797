//! The parts of an error message: the kind of error, the field, the place in the text, and what was expected there.

use super::{Seconds, Year};

/// The kind of a refusal: the variant of `CronError` that `parse` returns.
#[derive(Debug, Clone, Copy, PartialEq, Eq)]
pub enum FaultKind {
    /// `CronError::EmptyPattern`: nothing but white space.
    EmptyPattern,
    /// `CronError::InvalidPattern`: a count of fields that the settings don't accept.
    InvalidPattern,
    /// `CronError::IllegalCharacters`: a character that is not legal in its field.
    IllegalCharacters,
    /// `CronError::ComponentError`: a field that can't be read.
    ComponentError,
}

/// A field of a pattern.
#[derive(Debug, Clone, Copy, PartialEq, Eq)]
pub enum PatternField {
    Seconds,
    Minutes,
    Hours,
    DayOfMonth,
    Month,
    Weekday,
    Year,
}

impl PatternField {
    ghost use Rattle.std.specs.Prelude.{◌≡◌, ◌<◌};
    ghost use Rattle.croner.specs.parser.Faults.{place_of_field};

    /// The place of the field in a pattern of seven fields, 0 for the seconds.
    ///
    /// ```
    /// let place = PatternField::Weekday.place(); // 5
    /// ```
    pub fn place(self) -> usize
        ensures place { result ≡ place_of_field self }
        ensures small { result < 7 }
    {
        match self {
            PatternField::Seconds => 0,
            PatternField::Minutes => 1,
            PatternField::Hours => 2,
            PatternField::DayOfMonth => 3,
            PatternField::Month => 4,
            PatternField::Weekday => 5,
            PatternField::Year => 6,
        }
    }

    /// The name of the field in messages.
    pub(super) fn name(self) -> &'static str {
        match self {
            PatternField::Seconds => "seconds",
            PatternField::Minutes => "minutes",
            PatternField::Hours => "hours",
            PatternField::DayOfMonth => "day of month",
            PatternField::Month => "month",
            PatternField::Weekday => "weekday",
            PatternField::Year => "year",
        }
    }
}

/// What may have gone wrong at the place of a fault, besides what was expected there.
#[derive(Debug, Clone, Copy, PartialEq, Eq)]
pub enum Hint {
    /// There is nothing to add.
    None,
    /// The count of fields, or where one ends.
    Fields(FieldsHint),
    /// What the text is, or what it has besides a pattern.
    Text(TextHint),
    /// A sign or a name that means nothing there.
    Sign(SignHint),
}

/// What may have gone wrong with the count of fields.
#[derive(Debug, Clone, Copy, PartialEq, Eq)]
pub enum FieldsHint {
    /// Six fields begin with the second; with a `0` before them the last is the year.
    Six,
    /// Six fields begin with the second, and these settings have no year.
    SixWithoutYear,
    /// A space beside a comma: a space begins a new field.
    SpaceAfterComma,
    /// A space inside a range or a step: a space begins a new field.
    SpaceInPart,
    /// These settings have no second: the first field is one too many.
    NoSecond,
    /// These settings have no year: the last field is one too many.
    NoYear,
    /// These settings have neither a second nor a year.
    NoSecondAndYear,
    /// A second is required: a `0` before the pattern means the same.
    SecondInFront,
    /// A year is required: a `*` at the end means the same.
    YearAtEnd,
    /// A second and a year are required: a `0` before the pattern and a `*` at its end mean the same.
    SecondAndYear,
    /// The minute and the hour are two fields.
    TimeOfDay,
}

/// What a text may be that is no pattern, or what it may have besides one.
#[derive(Debug, Clone, Copy, PartialEq, Eq)]
pub enum TextHint {
    /// A pattern ends before the command of a crontab's line.
    Command,
    /// A pattern ends before the command of a crontab's line, which comes after so many fields.
    CommandAfter { fields: usize },
    /// An interval is written as a step, as in this pattern.
    Interval { pattern: &'static str },
    /// There is a line feed at this character, from 1, and another line after it.
    LineFeed { character: usize },
    /// A nickname begins with `@`.
    AtSign { nickname: &'static str },
    /// A pattern has no quotes around it.
    Quotes,
    /// A pattern has no setting before it.
    Setting,
    /// A comment is no pattern.
    Comment,
}

/// What may have been meant by a sign, a name or a number.
#[derive(Debug, Clone, Copy, PartialEq, Eq)]
pub enum SignHint {
    /// The sign is legal in other fields: `L`, `W`, `?`, `#` or `+`.
    Elsewhere { sign: char },
    /// A field that has no `?` is just `?`: `*` means the same.
    StarForQuestion,
    /// Two names need a comma between them.
    NamesTogether,
    /// A dash is `-` alone.
    Dash,
    /// The name is that of a month, in another field.
    MonthElsewhere,
    /// The name is that of a weekday, in another field.
    WeekdayElsewhere,
    /// The hour of midnight is 0.
    Midnight,
}

/// What to write in place of a refused part, if there is something that means the same.
#[derive(Debug, Clone, Copy, PartialEq, Eq)]
pub enum Suggestion {
    /// There is none.
    None,
    /// A step from the field's least value on: `*/10`.
    StarStep {
        step: u16,
    },
    /// A step in a range: `5-59/10`.
    RangeStep {
        first: u16,
        last: u16,
        step: u16,
    },
    /// A range that went past the field's greatest value, as one or two: `22-23,0-2`.
    Around {
        first: u16,
        greatest: u16,
        least: u16,
        last: u16,
        names: ValueNames,
    },
}

/// How the values of a field may be written.
#[derive(Debug, Clone, Copy, PartialEq, Eq)]
pub enum ValueNames {
    /// As numbers.
    Numbers,
    /// As names of months.
    Months,
    /// As names of weekdays, 0 and 7 for Sunday.
    Weekdays,
    /// As names of weekdays, 1 for Sunday.
    QuartzWeekdays,
}

/// The values that a field may have.
#[derive(Debug, Clone, Copy, PartialEq, Eq)]
pub struct FieldValues {
    /// The least number.
    pub least: u16,
    /// The greatest number.
    pub greatest: u16,
    /// The names for them, if there are any.
    pub names: ValueNames,
}

/// What was expected at the place of a fault.
#[derive(Debug, Clone, Copy, PartialEq, Eq)]
pub enum Expected {
    /// Another text.
    Text(ExpectedText),
    /// Another nickname, or none.
    Nickname(ExpectedNickname),
    /// Another character.
    Character(ExpectedCharacter),
    /// Another value, or another range.
    Value(ExpectedValue),
    /// Another step.
    Step(ExpectedStep),
    /// A star or a question mark alone, or one of them.
    Star(ExpectedStar),
    /// Another use of `#`, `L` or `W`.
    Day(ExpectedDay),
}

/// What was expected of a whole text.
#[derive(Debug, Clone, Copy, PartialEq, Eq)]
pub enum ExpectedText {
    /// A pattern, not just white space.
    Pattern,
    /// Another count of fields: these settings accept others.
    Count {
        found: usize,
        seconds: Seconds,
        year: Year,
        hint: Hint,
    },
    /// Other settings: these accept no text.
    Settings,
}

/// What was expected of a text with `@`.
#[derive(Debug, Clone, Copy, PartialEq, Eq)]
pub enum ExpectedNickname {
    /// One of the six nicknames.
    Known,
    /// The nickname `@daily`, which means the same as `@midnight`.
    Daily,
    /// One of the six nicknames; `@reboot` names no time.
    OfTime,
    /// A step in place of `@every`, as in this pattern.
    Interval { pattern: &'static str },
    /// Seven fields: the settings require a year.
    WithoutYear,
    /// Seven fields: `@reboot` names no time, and the settings require a year.
    OfTimeWithoutYear,
    /// Seven fields: there is no such nickname, and the settings require a year.
    KnownWithoutYear,
    /// The pattern in seven fields: the nickname has too few for these settings.
    InFields { pattern: &'static str },
    /// No `@`: it may only begin a nickname.
    NoAtSign,
}

/// What was expected in place of an illegal character.
#[derive(Debug, Clone, Copy, PartialEq, Eq)]
pub enum ExpectedCharacter {
    /// A name of three letters: the one that the text begins with.
    Name {
        name: &'static str,
    },
    /// A character that is legal in the field.
    Legal {
        field: PatternField,
        quartz: bool,
        hint: Hint,
    },
}

/// What was expected of a value, or of two with a sign between them.
#[derive(Debug, Clone, Copy, PartialEq, Eq)]
pub enum ExpectedValue {
    /// A number of the field, or a name for it.
    Number {
        values: FieldValues,
        hint: Hint,
    },
    /// A number of the field before or after a sign, or a name for it.
    NumberBeside {
        sign: char,
        after: bool,
        values: FieldValues,
        hint: Hint,
    },
    /// A range that goes up.
    Ascending {
        suggestion: Suggestion,
    },
    /// One such sign in a part.
    OneSign {
        sign: char,
    },
}

/// What was expected of a step.
#[derive(Debug, Clone, Copy, PartialEq, Eq)]
pub enum ExpectedStep {
    /// The step, a number from 1 on.
    Number { hint: Hint },
    /// A step that doesn't pass the greatest number.
    Shorter,
    /// The first value alone: the step doesn't reach a second one.
    FirstAlone { first: u16 },
    /// A step from the field's least value on, without the unit after it.
    WithoutUnit { step: u16 },
    /// A star or a range before the `/`.
    RangeBefore { suggestion: Suggestion },
}

/// What was expected of a star or a question mark.
#[derive(Debug, Clone, Copy, PartialEq, Eq)]
pub enum ExpectedStar {
    /// A star alone in its field.
    StarAlone,
    /// A question mark alone in its field.
    QuestionAlone,
    /// One star.
    OneStar,
    /// One question mark.
    OneQuestion,
}

/// What was expected of `#`, `L` or `W`.
#[derive(Debug, Clone, Copy, PartialEq, Eq)]
pub enum ExpectedDay {
    /// A number from 1 to 5 or `L` after the `#`.
    Nth,
    /// `L` alone, or `LW`, in the day of month.
    LastAlone,
    /// `L` or `LW` in the day of month: days can't be counted back from the last one.
    LastCountedBack,
    /// `L` alone, or `LW`, in the day of month: after a weekday it belongs in the weekday field.
    LastOfWeekday,
    /// One weekday before the `L`.
    LastAfterWeekday,
    /// One day of the month before the `W`.
    NearestAfterDay,
    /// `LW`.
    LastNearest,
}

/// A fault of a text that [`CronParser::parse`](super::CronParser::parse) refuses: where it is, and what was expected there.
///
/// It holds no text. As a string it is the message of the refusal, without what the text says there.
///
/// ```
/// let parser = CronParser::new();
/// if let Some(fault) = parser.explain(alloc, "0 9 * * MONDAY")? {
///     let field = fault.field; // Some(PatternField::Weekday)
///     let (start, end) = (fault.start, fault.end); // the byte 11 alone: the D
///     println!(rt; "{fault}")?;
/// }
/// ```
#[derive(Debug, Clone, Copy, PartialEq, Eq)]
pub struct PatternFault {
    /// The kind of the refusal.
    pub kind: FaultKind,
    /// The field that contains it; `None` for an empty text, a wrong count, and a text with `@`.
    pub field: Option<PatternField>,
    /// The byte of the text at which it begins, from 0.
    pub start: usize,
    /// The byte after its last one.
    pub end: usize,
    /// The number of its first character in the text, from 1.
    pub character: usize,
    /// What was expected there.
    pub expected: Expected,
}
