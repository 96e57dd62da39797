//! What is wrong in a refused part of a list, and where.

use super::fault::{
    Expected, ExpectedDay, ExpectedStar, ExpectedStep, ExpectedValue, FieldValues, FieldsHint,
    Hint, PatternField, SignHint, Suggestion, ValueNames,
};
use super::pieces::Piece;
use croner_base::time::{YEAR_LOWER_LIMIT, YEAR_UPPER_LIMIT};

const FIRST_YEAR: u16 = YEAR_LOWER_LIMIT as u16;

const LAST_YEAR: u16 = YEAR_UPPER_LIMIT as u16;

/// How the parts of a field are read, and what may have caused a refused number.
#[derive(Clone, Copy)]
pub struct Rules {
    pub field: PatternField,
    pub quartz: bool,
    pub sloppy: bool,
    pub hint: Hint,
}

impl Rules {
    /// The least and the greatest number of the field.
    fn bounds(self) -> (u16, u16) {
        match self.field {
            PatternField::Seconds | PatternField::Minutes => (0, 59),
            PatternField::Hours => (0, 23),
            PatternField::DayOfMonth => (1, 31),
            PatternField::Month => (1, 12),
            PatternField::Weekday if self.quartz => (1, 7),
            PatternField::Weekday => (0, 7),
            PatternField::Year => (FIRST_YEAR, LAST_YEAR),
        }
    }

    /// A number of the field was expected.
    fn number(self) -> Expected {
        Expected::Value(ExpectedValue::Number {
            values: self.values(),
            hint: self.hint,
        })
    }

    /// A number of the field was expected in place of a part of it.
    fn number_for(self, part: Segment<'_>) -> Expected {
        let mut rules = self;
        if self.hint == Hint::None && self.field == PatternField::Hours && part.read == "24" {
            rules.hint = Hint::Sign(SignHint::Midnight);
        }
        if self.hint == Hint::None && are_names(part.written.text) {
            rules.hint = Hint::Sign(SignHint::NamesTogether);
        }
        rules.number()
    }

    /// A number of the field was expected beside a sign.
    fn number_beside(self, sign: char, after: bool) -> Expected {
        Expected::Value(ExpectedValue::NumberBeside {
            sign,
            after,
            values: self.values(),
            hint: self.hint,
        })
    }

    /// A step was expected. The only possible hint is a space before or after it.
    fn step(self) -> Expected {
        let space = Hint::Fields(FieldsHint::SpaceInPart);
        let hint = if self.hint == space {
            space
        } else {
            Hint::None
        };
        Expected::Step(ExpectedStep::Number { hint })
    }

    /// The values that the field may have.
    fn values(self) -> FieldValues {
        let (least, greatest) = self.bounds();
        FieldValues {
            least,
            greatest,
            names: self.names(),
        }
    }

    /// How the values of the field may be written, besides as numbers.
    fn names(self) -> ValueNames {
        match self.field {
            PatternField::Month => ValueNames::Months,
            PatternField::Weekday if self.quartz => ValueNames::QuartzWeekdays,
            PatternField::Weekday => ValueNames::Weekdays,
            PatternField::Seconds
            | PatternField::Minutes
            | PatternField::Hours
            | PatternField::DayOfMonth
            | PatternField::Year => ValueNames::Numbers,
        }
    }

    fn has(self, number: u16) -> bool {
        let (least, greatest) = self.bounds();
        least <= number && number <= greatest
    }
}

/// A segment of a part: as it is written, and as it is read.
#[derive(Clone, Copy)]
pub struct Segment<'t> {
    pub written: Piece<'t>,
    pub read: &'t str,
}

/// What comes before a sign, the sign, and what follows it.
#[derive(Clone, Copy)]
struct Sides<'t> {
    left: Segment<'t>,
    sign: Piece<'t>,
    right: Segment<'t>,
}

impl<'t> Segment<'t> {
    /// The two sides of the first such sign. A sign is the same as written and as read.
    fn split(self, sign: char) -> Option<Sides<'t>> {
        let (left, right) = self.read.split_once(sign)?;
        let at = self.written.text.find(sign)?;
        let start = self.written.start.saturating_add(at);
        let sign_text = self.written.text.get(at..at.saturating_add(1))?;
        Some(Sides {
            left: Segment {
                written: Piece {
                    text: self.written.text.get(..at)?,
                    start: self.written.start,
                },
                read: left,
            },
            sign: Piece {
                text: sign_text,
                start,
            },
            right: Segment {
                written: Piece {
                    text: self.written.text.get(at.saturating_add(1)..)?,
                    start: start.saturating_add(1),
                },
                read: right,
            },
        })
    }

    fn number(self) -> Option<u16> {
        self.read.parse::<u16>().ok()
    }

    fn is_empty(self) -> bool {
        self.written.text.is_empty()
    }
}

/// The place of the fault of a refused part, and what was expected there.
pub fn fault_of_part(part: Segment<'_>, rules: Rules) -> (Piece<'_>, Expected) {
    let head = head_of(part);
    let found = if part.read == "*" {
        Some((part.written, Expected::Star(expected_of_star(part))))
    } else if let Some(sides) = head.split('/') {
        fault_of_step(part, sides, rules)
    } else if let Some(sides) = head.split('-') {
        fault_of_range(part, sides, rules)
    } else if let Some(sides) = head.split('W').or(head.split('w')) {
        fault_of_nearest(sides, rules)
    } else {
        fault_of_number(part, head, rules)
    };
    match found.or(fault_of_nth(part)) {
        Some(found) => found,
        None => (part.written, rules.number()),
    }
}

/// What was expected of a `*`, or a `?` for it, with something beside it: that it be alone.
fn expected_of_star(part: Segment<'_>) -> ExpectedStar {
    if part.written.text == "?" {
        return ExpectedStar::QuestionAlone;
    }
    ExpectedStar::StarAlone
}

/// One such sign was expected in a part.
fn one_sign(sign: char) -> Expected {
    Expected::Value(ExpectedValue::OneSign { sign })
}

/// The part before its first `#`.
fn head_of(part: Segment<'_>) -> Segment<'_> {
    match part.split('#') {
        Some(sides) => sides.left,
        None => part,
    }
}

/// The text after a `#`, if it is neither `L` nor a number from 1 to 5.
fn fault_of_nth(part: Segment<'_>) -> Option<(Piece<'_>, Expected)> {
    let sides = part.split('#')?;
    if part.read.ends_with('L') {
        return None;
    }
    if sides.right.split('#').is_some() {
        return Some((sides.right.written, one_sign('#')));
    }
    match sides.right.number() {
        Some(1..=5) => None,
        _ if sides.right.is_empty() => Some((sides.sign, Expected::Day(ExpectedDay::Nth))),
        _ => Some((sides.right.written, Expected::Day(ExpectedDay::Nth))),
    }
}

/// A number of the field beside a sign: what is wrong with it.
fn fault_of_side<'t>(
    side: Segment<'t>,
    sign: Piece<'t>,
    after: bool,
    rules: Rules,
) -> Option<(Piece<'t>, Expected)> {
    if side.is_empty() {
        return Some((sign, rules.number_beside('-', after)));
    }
    fault_of_value(side, rules)
}

/// What is wrong with a text that should be one value of the field.
fn fault_of_value<'t>(value: Segment<'t>, rules: Rules) -> Option<(Piece<'t>, Expected)> {
    if let Some(number) = value.number() {
        if rules.has(number) {
            return None;
        }
        return Some((value.written, rules.number_for(value)));
    }
    let expected = match fault_of_modifier(value, rules) {
        Some(day) => Expected::Day(day),
        None if is_many(value.written.text, b'*') => Expected::Star(ExpectedStar::OneStar),
        None if is_many(value.written.text, b'?') => Expected::Star(ExpectedStar::OneQuestion),
        None => rules.number(),
    };
    Some((value.written, expected))
}

/// The place of an `L` or a `W`, if there is one in what should be a number.
fn fault_of_modifier(value: Segment<'_>, rules: Rules) -> Option<ExpectedDay> {
    let has_last = value.read.contains('L');
    if has_last && rules.field == PatternField::Weekday {
        return Some(ExpectedDay::LastAfterWeekday);
    }
    if rules.field != PatternField::DayOfMonth {
        return None;
    }
    if has_last {
        return Some(ExpectedDay::LastAlone);
    }
    if value.read.contains('W') {
        return Some(ExpectedDay::NearestAfterDay);
    }
    None
}

/// Whether a text is two or more of one character.
fn is_many(text: &str, character: u8) -> bool {
    text.len() > 1 && text.as_bytes().iter().all(|b| *b == character)
}

/// Whether letters that are read as a number are several names.
fn are_names(text: &str) -> bool {
    text.len() > 3 && text.as_bytes().iter().all(|b| b.is_ascii_alphabetic())
}

fn fault_of_range<'t>(
    part: Segment<'t>,
    sides: Sides<'t>,
    rules: Rules,
) -> Option<(Piece<'t>, Expected)> {
    if let Some(second) = sides.right.split('-') {
        return Some((second.sign, one_sign('-')));
    }
    let faulty = fault_of_side(sides.left, sides.sign, false, rules);
    let faulty = faulty.or(fault_of_side(sides.right, sides.sign, true, rules));
    if let Some((place, Expected::Day(ExpectedDay::LastAlone))) = faulty {
        if sides.left.read == "L" && sides.right.number().is_some() {
            return Some((place, Expected::Day(ExpectedDay::LastCountedBack)));
        }
    }
    if faulty.is_some() {
        return faulty;
    }
    let (first, last) = (sides.left.number()?, sides.right.number()?);
    if first <= last {
        return None;
    }
    let suggestion = if part.read.len()
        == sides
            .left
            .read
            .len()
            .saturating_add(sides.right.read.len())
            .saturating_add(1)
    {
        suggestion_of_range(sides.left, sides.right, rules)
    } else {
        Suggestion::None
    };
    Some((
        part.written,
        Expected::Value(ExpectedValue::Ascending { suggestion }),
    ))
}

/// A range that went past the greatest value, as ranges that go up. Years don't start over.
fn suggestion_of_range(left: Segment<'_>, right: Segment<'_>, rules: Rules) -> Suggestion {
    let (Some(first), Some(last)) = (left.number(), right.number()) else {
        return Suggestion::None;
    };
    if rules.field == PatternField::Year {
        return Suggestion::None;
    }
    let (least, greatest) = rules.bounds();
    let is_weekday = rules.field == PatternField::Weekday;
    Suggestion::Around {
        first,
        greatest,
        least: if is_weekday { 1 } else { least },
        last,
        names: names_of(left, right, rules),
    }
}

fn names_of(left: Segment<'_>, right: Segment<'_>, rules: Rules) -> ValueNames {
    if !is_name(left) || !is_name(right) {
        return ValueNames::Numbers;
    }
    rules.names()
}

fn is_name(part: Segment<'_>) -> bool {
    part.written.text.len() == 3
        && part
            .written
            .text
            .as_bytes()
            .iter()
            .all(|b| b.is_ascii_alphabetic())
}

fn fault_of_step<'t>(
    part: Segment<'t>,
    sides: Sides<'t>,
    rules: Rules,
) -> Option<(Piece<'t>, Expected)> {
    if let Some(second) = sides.right.split('/') {
        return Some((second.sign, one_sign('/')));
    }
    if sides.right.is_empty() {
        return Some((sides.sign, rules.step()));
    }
    let step = match sides.right.number() {
        Some(step) if step > 0 => step,
        _ => {
            let expected = match fault_of_modifier(sides.right, rules) {
                Some(day) => Expected::Day(day),
                None => rules.step(),
            };
            return Some((sides.right.written, expected));
        }
    };
    let range = sides.left.split('-');
    let found = match range {
        Some(range) => fault_of_range(sides.left, range, rules),
        None => fault_of_start(part, sides.left, step, rules),
    };
    match found {
        Some((place, Expected::Value(ExpectedValue::Ascending { .. }))) => Some((
            place,
            Expected::Value(ExpectedValue::Ascending {
                suggestion: Suggestion::None,
            }),
        )),
        Some(found) => Some(found),
        None if fault_of_nth(part).is_some() => None,
        None => Some((
            sides.right.written,
            Expected::Step(expected_of_long_step(part, sides.left, rules)),
        )),
    }
}

/// What to write in place of a step that reaches no second value.
fn expected_of_long_step(part: Segment<'_>, left: Segment<'_>, rules: Rules) -> ExpectedStep {
    if part.read.contains('#') {
        return ExpectedStep::Shorter;
    }
    let (least, _) = rules.bounds();
    let start = match left.split('-') {
        Some(range) => range.left.number(),
        None => left.number(),
    };
    ExpectedStep::FirstAlone {
        first: start.unwrap_or(least),
    }
}

/// What is wrong before a `/`, if that is no range.
fn fault_of_start<'t>(
    part: Segment<'t>,
    left: Segment<'t>,
    step: u16,
    rules: Rules,
) -> Option<(Piece<'t>, Expected)> {
    if left.read == "*" {
        return None;
    }
    let number = left.number();
    if !left.is_empty() {
        let found = fault_of_value(left, rules);
        if found.is_some() {
            return found;
        }
    }
    if rules.sloppy {
        return None;
    }
    if is_too_long(number, step, rules) {
        let expected = expected_of_long_step(part, left, rules);
        return Some((part.written, Expected::Step(expected)));
    }
    let suggestion = if part.read.contains('#') {
        Suggestion::None
    } else {
        suggestion_of_step(number, step, rules)
    };
    Some((
        part.written,
        Expected::Step(ExpectedStep::RangeBefore { suggestion }),
    ))
}

/// Whether a step from a number, or from nothing, goes beyond the greatest number of 16 bits after its last value.
fn is_too_long(number: Option<u16>, step: u16, rules: Rules) -> bool {
    let (least, greatest) = rules.bounds();
    let first = number.unwrap_or(least);
    let left_over = greatest
        .saturating_sub(first)
        .checked_rem(step)
        .unwrap_or(0);
    let last = greatest.saturating_sub(left_over);
    last.checked_add(step).is_none()
}

/// A step from a number, or from nothing, as it may be written.
fn suggestion_of_step(number: Option<u16>, step: u16, rules: Rules) -> Suggestion {
    let (least, last) = rules.bounds();
    match number {
        Some(first) if first != least => Suggestion::RangeStep { first, last, step },
        _ => Suggestion::StarStep { step },
    }
}

fn fault_of_nearest<'t>(sides: Sides<'t>, rules: Rules) -> Option<(Piece<'t>, Expected)> {
    if sides.left.is_empty() {
        if sides.right.read == "L" {
            return Some((sides.sign, Expected::Day(ExpectedDay::LastNearest)));
        }
        return Some((sides.sign, rules.number_beside('W', false)));
    }
    fault_of_value(sides.left, rules)
}

/// What an `L` in the days may have been meant for.
fn fault_of_last(part: Segment<'_>) -> ExpectedDay {
    match part.read.strip_suffix('L') {
        Some("0" | "1" | "2" | "3" | "4" | "5" | "6" | "7") => ExpectedDay::LastOfWeekday,
        _ => ExpectedDay::LastAlone,
    }
}

fn fault_of_number<'t>(
    part: Segment<'t>,
    head: Segment<'t>,
    rules: Rules,
) -> Option<(Piece<'t>, Expected)> {
    if rules.field == PatternField::DayOfMonth && part.read.contains('L') {
        return Some((part.written, Expected::Day(fault_of_last(part))));
    }
    if head.is_empty() {
        let sides = part.split('#')?;
        return Some((sides.sign, rules.number_beside('#', false)));
    }
    if let Some(last) = head.split('L').or(head.split('l')) {
        if last.left.is_empty() || !last.right.is_empty() {
            return Some((part.written, Expected::Day(ExpectedDay::LastAfterWeekday)));
        }
        return fault_of_value(last.left, rules);
    }
    fault_of_value(head, rules)
}
