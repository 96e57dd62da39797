//! What `either-day` says: the days of both fields, and what to write where both are meant.

use super::fields::{Written, push_code};
use croncheck_output::front::push_spaced;
use croncheck_warnings::warnings::{Fields, bounds_of_field};
use croner::parser::PatternField;
use crontab::field::SteppedRange;
use crontab::list::parts_of;
use std::alloc::{AllocError, Global};

/// How many days a week has. By this number `date +%u` knows Sunday.
const DAYS_OF_WEEK: u64 = 7;

/// Which days start a job whose day fields are joined by "or", and what to write for the days that both fields name.
pub(super) fn push_either_day(
    alloc: Global,
    text: &mut String,
    fields: &Fields<'_>,
    written: &Written<'_>,
) -> Result<bool, AllocError> {
    let days = parts_in(alloc, PatternField::DayOfMonth, fields)?;
    let weekdays = parts_in(alloc, PatternField::Weekday, fields)?;
    text.push_str("This starts ")?;
    push_days(text, days.as_slice(), fields.days)?;
    text.push_str(" and also ")?;
    push_weekdays(text, weekdays.as_slice(), fields.weekdays)?;
    text.push_str(". For ")?;
    push_both(text, days.as_slice(), weekdays.as_slice())?;
    if written.is_crontab {
        text.push_str(": ")?;
        push_line(text, fields, written, weekdays.as_slice())?;
    } else {
        text.push_str(", write +")?;
        push_spaced(text, fields.weekdays)?;
        text.push_str(" for the weekday: croner takes that, cron doesn't.")?;
    }
    Ok(true)
}

// The parts of a field as cron reads them: none where it wouldn't take the field.
fn parts_in(
    alloc: Global,
    field: PatternField,
    fields: &Fields<'_>,
) -> Result<Vec<SteppedRange>, AllocError> {
    match parts_of(alloc, bounds_of_field(field), fields.text_of(field))? {
        Some(parts) => Ok(parts),
        None => Ok(Vec::new(alloc)),
    }
}

// ---- the days in words

// What the parts of a day field are, where short words say it.
#[derive(Clone, Copy)]
enum Shape {
    // Each is one value.
    Values,
    // One range without a step.
    Range { first: u64, last: u64 },
    // Neither.
    Other,
}

fn shape_of(parts: &[SteppedRange]) -> Shape {
    match parts {
        [] => Shape::Other,
        [part] if is_plain_range(part) => Shape::Range {
            first: part.first,
            last: part.last,
        },
        _ if parts.iter().all(|part| is_value(part)) => Shape::Values,
        _ => Shape::Other,
    }
}

fn is_plain_range(part: &SteppedRange) -> bool {
    !part.is_star && part.step == 1 && part.first < part.last
}

fn is_value(part: &SteppedRange) -> bool {
    !part.is_star && part.first == part.last
}

// Puts days of the month into a text, as `on the 13th`.
fn push_days(text: &mut String, parts: &[SteppedRange], field: &[u8]) -> Result<(), AllocError> {
    match shape_of(parts) {
        Shape::Values => {
            text.push_str("on the ")?;
            push_ordinals(text, parts)
        }
        Shape::Range { first, last } => {
            text.push_str("from the ")?;
            push_ordinal(text, first)?;
            text.push_str(" to the ")?;
            push_ordinal(text, last)
        }
        Shape::Other => {
            text.push_str("on the days of the month ")?;
            push_code(text, field)
        }
    }
}

// Puts weekdays into a text, as `on every Friday`.
fn push_weekdays(
    text: &mut String,
    parts: &[SteppedRange],
    field: &[u8],
) -> Result<(), AllocError> {
    match shape_of(parts) {
        Shape::Values => {
            text.push_str("on every ")?;
            push_names(text, parts)
        }
        Shape::Range { first, last } => {
            text.push_str("on every day from ")?;
            push_weekday(text, first)?;
            text.push_str(" to ")?;
            push_weekday(text, last)
        }
        Shape::Other => {
            text.push_str("on the weekdays ")?;
            push_code(text, field)
        }
    }
}

fn push_ordinals(text: &mut String, parts: &[SteppedRange]) -> Result<(), AllocError> {
    for k in 0..parts.len() {
        text.push_str(sign_before(k, parts.len()))?;
        push_ordinal(text, parts[k].first)?;
    }
    Ok(())
}

fn push_names(text: &mut String, parts: &[SteppedRange]) -> Result<(), AllocError> {
    for k in 0..parts.len() {
        text.push_str(sign_before(k, parts.len()))?;
        push_weekday(text, parts[k].first)?;
    }
    Ok(())
}

// What stands in front of an item of so many, by its place.
fn sign_before(place: usize, count: usize) -> &'static str {
    if place == 0 {
        ""
    } else if count <= place.saturating_add(1) {
        " and "
    } else {
        ", "
    }
}

// Puts a day of the month into a text, as `13th`.
fn push_ordinal(text: &mut String, day: u64) -> Result<(), AllocError> {
    let ending = match day {
        1 | 21 | 31 => "st",
        2 | 22 => "nd",
        3 | 23 => "rd",
        _ => "th",
    };
    write!(text, "{day}{ending}")
}

fn push_weekday(text: &mut String, weekday: u64) -> Result<(), AllocError> {
    text.push_str(name_of_weekday(weekday))
}

fn name_of_weekday(weekday: u64) -> &'static str {
    match weekday {
        1 => "Monday",
        2 => "Tuesday",
        3 => "Wednesday",
        4 => "Thursday",
        5 => "Friday",
        6 => "Saturday",
        _ => "Sunday",
    }
}

// ---- both days

// Puts the days that both fields name into a text, as `Friday the 13th only`.
fn push_both(
    text: &mut String,
    days: &[SteppedRange],
    weekdays: &[SteppedRange],
) -> Result<(), AllocError> {
    match (days, weekdays) {
        ([day], [weekday]) if is_value(day) && is_value(weekday) => {
            push_weekday(text, weekday.first)?;
            text.push_str(" the ")?;
            push_ordinal(text, day.first)?;
            text.push_str(" only")
        }
        _ => text.push_str("days that match both"),
    }
}

// Puts a line into a text whose command tests the weekday.
fn push_line(
    text: &mut String,
    fields: &Fields<'_>,
    written: &Written<'_>,
    weekdays: &[SteppedRange],
) -> Result<(), AllocError> {
    text.push('`')?;
    push_spaced(text, fields.minutes)?;
    text.push(' ')?;
    push_spaced(text, fields.hours)?;
    text.push(' ')?;
    push_spaced(text, fields.days)?;
    text.push(' ')?;
    push_spaced(text, fields.months)?;
    text.push_str(" * ")?;
    if let Some(user) = written.user {
        push_spaced(text, user)?;
        text.push(' ')?;
    }
    push_test(text, weekdays)?;
    text.push_str("...`")
}

// Puts the test of the weekday into a text; none where each weekday passes it.
fn push_test(text: &mut String, weekdays: &[SteppedRange]) -> Result<(), AllocError> {
    match count_named(weekdays) {
        DAYS_OF_WEEK => Ok(()),
        1 => {
            text.push_str("[ \"$(date +\\%u)\" = ")?;
            push_named(text, weekdays)?;
            text.push_str(" ] && ")
        }
        _ => {
            text.push_str("date +\\%u | grep -q \"[")?;
            push_named(text, weekdays)?;
            text.push_str("]\" && ")
        }
    }
}

fn count_named(weekdays: &[SteppedRange]) -> u64 {
    let mut count: u64 = 0;
    for number in 1..=DAYS_OF_WEEK {
        if names(weekdays, number) {
            count = count.saturating_add(1);
        }
    }
    count
}

// Puts the numbers of the weekdays that parts name into a text, as `date +%u` prints them.
fn push_named(text: &mut String, weekdays: &[SteppedRange]) -> Result<(), AllocError> {
    for number in 1..=DAYS_OF_WEEK {
        if names(weekdays, number) {
            write!(text, "{number}")?;
        }
    }
    Ok(())
}

// Whether parts name a weekday: Sunday is 0 and 7.
fn names(weekdays: &[SteppedRange], number: u64) -> bool {
    weekdays.iter().any(|part| names_value(part, number)
        || number == DAYS_OF_WEEK && names_value(part, 0))
}

fn names_value(part: &SteppedRange, value: u64) -> bool {
    part.first <= value
        && value <= part.last
        && value.saturating_sub(part.first).checked_rem(part.step) == Some(0)
}
