//! What is said of a field by what stands there: what cron makes of it, and what to write.

use super::days::push_either_day;
use croncheck_output::front::{COMMAND_BYTES, push_front, push_spaced};
use croncheck_report::report::JobReport;
use croncheck_warnings::warnings::{
    Fields, Warning, bounds_of_field, fields_of_pattern, fields_of_schedule, is_beyond, turn_of,
    warning_text,
};
use croner::parser::PatternField;
use crontab::bytes::begins_with;
use crontab::field::{FieldBounds, Names, SteppedRange, part_of};
use crontab::list::{names_nothing, parts_of};
use crontab::notes::{has_large_number, has_passed_over};
use std::alloc::{AllocError, Global};

/// The bounds of a number that cron takes for a value or a step.
const ANY_NUMBER: FieldBounds = FieldBounds {
    first: 0,
    last: 2_147_483_646,
    names: Names::None,
};

/// What the texts of warnings repeat of a job or a pattern.
#[derive(Clone, Copy)]
pub(super) struct Written<'l> {
    /// Its fields, where it has fields.
    pub(super) fields: Option<Fields<'l>>,
    /// Its user, where the file names one.
    pub(super) user: Option<&'l [u8]>,
    /// It is a job of a crontab, and not a pattern alone.
    pub(super) is_crontab: bool,
}

/// What the texts of its warnings repeat of a job. The only error is lack of memory.
pub(super) fn written_of<'l>(
    alloc: Global,
    job: &JobReport<'l, '_>,
) -> Result<Written<'l>, AllocError> {
    let is_crontab = job.command.is_some();
    let fields = if is_crontab {
        fields_of_schedule(job.schedule)
    } else {
        fields_of_bytes(alloc, job.schedule)?
    };
    Ok(Written {
        fields,
        user: job.user,
        is_crontab,
    })
}

fn fields_of_bytes<'l>(alloc: Global, pattern: &'l [u8]) -> Result<Option<Fields<'l>>, AllocError> {
    match std::str::from_utf8(pattern) {
        Ok(pattern) => fields_of_pattern(alloc, pattern),
        Err(_) => Ok(None),
    }
}

/// The text of a warning of a job: what its own field becomes and what to write, where the warning is of a field. The only error is lack
/// of memory.
pub(super) fn text_of(
    alloc: Global,
    warning: Warning,
    written: &Written<'_>,
) -> Result<String, AllocError> {
    let mut text = String::new(alloc);
    if let Some(fields) = &written.fields {
        if push_own(alloc, &mut text, warning, fields, written)? {
            return Ok(text);
        }
    }
    warning_text(alloc, warning)
}

// Puts into a text what a warning says of these fields, or answers that it says nothing of them.
fn push_own(
    alloc: Global,
    text: &mut String,
    warning: Warning,
    fields: &Fields<'_>,
    written: &Written<'_>,
) -> Result<bool, AllocError> {
    match warning {
        Warning::PassedOver(field) => push_passed_over(alloc, text, field, fields),
        Warning::LargeNumber(field) => push_large_number(text, fields.text_of(field)),
        Warning::StepBeyond(field) => push_step_beyond(text, field, fields, written),
        Warning::UnevenStep(field) => push_uneven_step(text, field, fields),
        Warning::EitherDay => push_either_day(alloc, text, fields, written),
        Warning::RangeDown(_)
        | Warning::WholeHour
        | Warning::ShortMonths
        | Warning::Gone
        | Warning::Never
        | Warning::NoCommand
        | Warning::LooksLikeField
        | Warning::User
        | Warning::Percent
        | Warning::Continued
        | Warning::ControlByte
        | Warning::NoNewline
        | Warning::CarriageReturn
        | Warning::EmptyItem
        | Warning::OtherName(_)
        | Warning::Preset(_) => Ok(false),
    }
}

/// Puts a text of the user's into a text, between the signs that mark code.
pub(super) fn push_code(text: &mut String, bytes: &[u8]) -> Result<(), AllocError> {
    text.push('`')?;
    push_front(text, bytes, COMMAND_BYTES)?;
    text.push('`')
}

// ---- passed-over

// What cron reads of a field of which it passes over bytes, and which value is meant where only the hyphens look otherwise.
fn push_passed_over(
    alloc: Global,
    text: &mut String,
    field: PatternField,
    fields: &Fields<'_>,
) -> Result<bool, AllocError> {
    let (bounds, whole) = (bounds_of_field(field), fields.text_of(field));
    let Some(front) = front_read(bounds, whole) else {
        return Ok(false);
    };
    text.push_str("Cron reads only ")?;
    push_front(text, front, COMMAND_BYTES)?;
    text.push_str(" of ")?;
    push_code(text, whole)?;
    if push_dash(alloc, text, bounds, whole)? {
        return Ok(true);
    }
    text.push_str(" and ignores the rest. Write ")?;
    push_spaced(text, front)?;
    text.push_str(" if that is meant.")?;
    Ok(true)
}

// What stands in front of the bytes that cron passes over.
fn front_read(bounds: FieldBounds, field: &[u8]) -> Option<&[u8]> {
    let mut start: usize = 0;
    for piece in field.split(|byte| *byte == b',') {
        let (_, tail) = part_of(bounds, piece)?;
        if !tail.is_empty() {
            let end = start.saturating_add(piece.len().saturating_sub(tail.len()));
            let (front, _) = field.split_at(end.min(field.len()));
            return Some(front);
        }
        start = start.saturating_add(piece.len()).saturating_add(1);
    }
    None
}

// Puts after a text which sign is no hyphen, and the field with hyphens, if cron then reads all of it.
fn push_dash(
    alloc: Global,
    text: &mut String,
    bounds: FieldBounds,
    field: &[u8],
) -> Result<bool, AllocError> {
    let Ok(field) = std::str::from_utf8(field) else {
        return Ok(false);
    };
    let Some(dash) = field.chars().find(|sign| is_dash(*sign)) else {
        return Ok(false);
    };
    let meant = with_hyphens(alloc, field)?;
    if !is_read_whole(alloc, bounds, meant.as_bytes())? {
        return Ok(false);
    }
    write!(text, ", since `{dash}` isn't a hyphen. Write {meant}.")?;
    Ok(true)
}

// Whether a sign looks like a hyphen, and is none.
fn is_dash(sign: char) -> bool {
    matches!(
        sign,
        '\u{2010}'..='\u{2015}' | '\u{2212}' | '\u{fe58}' | '\u{fe63}' | '\u{ff0d}'
    )
}

// A text with a hyphen in place of each sign that looks like one.
fn with_hyphens(alloc: Global, text: &str) -> Result<String, AllocError> {
    let mut meant = String::new(alloc);
    for sign in text.chars() {
        meant.push(if is_dash(sign) { '-' } else { sign })?;
    }
    Ok(meant)
}

// Whether cron takes a field to its end, and each part of it names something.
fn is_read_whole(alloc: Global, bounds: FieldBounds, field: &[u8]) -> Result<bool, AllocError> {
    match parts_of(alloc, bounds, field)? {
        Some(parts) => Ok(!has_passed_over(bounds, field) && !any_down(parts.as_slice())),
        None => Ok(false),
    }
}

fn any_down(parts: &[SteppedRange]) -> bool {
    parts.iter().any(|part| names_nothing(part))
}

// ---- large-number

// What cron makes of the first number of a field that is too large for it.
fn push_large_number(text: &mut String, field: &[u8]) -> Result<bool, AllocError> {
    for word in field.split(|byte| !byte.is_ascii_alphanumeric()) {
        if let Some(kept) = number_kept(word) {
            text.push_str("Cron reads ")?;
            push_front(text, word, COMMAND_BYTES)?;
            write!(
                text,
                " as {kept}, since it keeps only 32 bits of a number. Write {kept}."
            )?;
            return Ok(true);
        }
    }
    Ok(false)
}

// What cron keeps of a number that is too large for it. `None` for any other word.
fn number_kept(word: &[u8]) -> Option<u64> {
    if !has_large_number(ANY_NUMBER, word) {
        return None;
    }
    let (part, _) = part_of(ANY_NUMBER, word)?;
    Some(part.first)
}

// ---- step-beyond

// A part of a field, with its text.
#[derive(Clone, Copy)]
struct Piece<'l> {
    text: &'l [u8],
    part: SteppedRange,
}

// The part that a piece of a field begins with, with its text.
fn piece_of(bounds: FieldBounds, piece: &[u8]) -> Option<Piece<'_>> {
    let (part, tail) = part_of(bounds, piece)?;
    let length = piece.len().saturating_sub(tail.len());
    let (text, _) = piece.split_at(length.min(piece.len()));
    Some(Piece { text, part })
}

// The first part of a field whose step leads past the end of its range.
fn first_beyond(bounds: FieldBounds, field: &[u8]) -> Option<Piece<'_>> {
    for piece in field.split(|byte| *byte == b',') {
        let found = piece_of(bounds, piece)?;
        if is_beyond(&found.part) {
            return Some(found);
        }
    }
    None
}

// The only value of a step that leads past the end of its range.
fn push_step_beyond(
    text: &mut String,
    field: PatternField,
    fields: &Fields<'_>,
    written: &Written<'_>,
) -> Result<bool, AllocError> {
    let Some(piece) = first_beyond(bounds_of_field(field), fields.text_of(field)) else {
        return Ok(false);
    };
    let (name, place, first) = (plural_of(field), place_of_start(field), piece.part.first);
    push_code(text, piece.text)?;
    write!(text, " in {name} starts {place} {first} only.")?;
    if !(written.is_crontab && is_star_for_both(field, fields)) {
        write!(text, " Write {first}.")?;
    }
    Ok(true)
}

// Whether a day field begins with a star for which cron needs both days: the other one doesn't begin with a star.
fn is_star_for_both(field: PatternField, fields: &Fields<'_>) -> bool {
    let (days, weekdays) = (
        begins_with(fields.days, b'*'),
        begins_with(fields.weekdays, b'*'),
    );
    match field {
        PatternField::DayOfMonth => days && !weekdays,
        PatternField::Weekday => weekdays && !days,
        PatternField::Seconds
        | PatternField::Minutes
        | PatternField::Hours
        | PatternField::Month
        | PatternField::Year => false,
    }
}

// The values of a field.
fn plural_of(field: PatternField) -> &'static str {
    match field {
        PatternField::Seconds => "seconds",
        PatternField::Minutes => "minutes",
        PatternField::Hours => "hours",
        PatternField::DayOfMonth => "days of the month",
        PatternField::Month => "months",
        PatternField::Weekday => "weekdays",
        PatternField::Year => "years",
    }
}

// What stands in front of a value of a field, where something starts then.
fn place_of_start(field: PatternField) -> &'static str {
    match field {
        PatternField::Seconds => "at second",
        PatternField::Minutes => "at minute",
        PatternField::Hours => "at hour",
        PatternField::DayOfMonth => "on day",
        PatternField::Month => "in month",
        PatternField::Weekday => "on weekday",
        PatternField::Year => "in year",
    }
}

// ---- uneven-step

// The values of a star with a step that doesn't divide its field, how far apart they are, and a step that does.
fn push_uneven_step(
    text: &mut String,
    field: PatternField,
    fields: &Fields<'_>,
) -> Result<bool, AllocError> {
    let Some(whole) = whole_of(field) else {
        return Ok(false);
    };
    let Some(piece) = piece_of(bounds_of_field(field), fields.text_of(field)) else {
        return Ok(false);
    };
    let (name, turn, step) = (plural_of(field), turn_of(field), piece.part.step);
    push_code(text, piece.text)?;
    write!(text, " starts at {name} ")?;
    let last = push_values(text, turn, step)?;
    let rest = turn.saturating_sub(last);
    let even = even_step(turn, step);
    write!(
        text,
        " of each {whole}: {step} {name} apart, then {rest}. Write */{even} for equal intervals."
    )?;
    Ok(true)
}

// What has all values of a field of a time.
fn whole_of(field: PatternField) -> Option<&'static str> {
    match field {
        PatternField::Seconds => Some("minute"),
        PatternField::Minutes => Some("hour"),
        PatternField::Hours => Some("day"),
        PatternField::DayOfMonth
        | PatternField::Month
        | PatternField::Weekday
        | PatternField::Year => None,
    }
}

// Puts the multiples of a step below a number into a text, and answers the last one.
fn push_values(text: &mut String, turn: u64, step: u64) -> Result<u64, AllocError> {
    let mut last = 0;
    for value in 0..turn {
        if value.checked_rem(step) == Some(0) {
            let between = if value == 0 {
                ""
            } else if turn <= value.saturating_add(step) {
                " and "
            } else {
                ", "
            };
            write!(text, "{between}{value}")?;
            last = value;
        }
    }
    Ok(last)
}

// The greatest step below one that divides a number.
fn even_step(turn: u64, step: u64) -> u64 {
    let mut even = 1;
    for less in 1..step.min(turn) {
        if turn.checked_rem(less) == Some(0) {
            even = less;
        }
    }
    even
}
