//! Why a line is refused, in words.

use super::hints::{push_hint, push_nickname_hint};
use super::refused_pattern::push_pattern_reason;
use croncheck_output::front::{COMMAND_BYTES, push_front};
use croncheck_report::report::Why;
use crontab::bytes::{Kind, begins_with, cut, is_quote, rest_of, trim_end};
use crontab::line::{Fault, WEEKDAYS, words_of};
use crontab::notes::{is_nickname, takes};
use crontab::setting::has;
use std::alloc::{AllocError, Global};

/// The byte that cron takes for the end of the file.
const END_OF_FILE: u8 = 255;

// The bytes of a line that are at fault.
pub(super) fn bytes_at_fault(line: &[u8], start: usize, end: usize) -> &[u8] {
    let (front, _) = line.split_at(end.min(line.len()));
    let (_, piece) = front.split_at(start.min(front.len()));
    piece
}

// Why a line is refused, of which these bytes are at fault.
pub(super) fn push_why(
    alloc: Global,
    text: &mut String,
    line: &[u8],
    piece: &[u8],
    why: &Why,
) -> Result<(), AllocError> {
    match why {
        Why::Cron(fault) => push_reason(alloc, text, *fault, line, piece),
        Why::AfterOpenLine(fault) => {
            push_reason(alloc, text, *fault, line, piece)?;
            text.push_str(
                "; the line before ends in a backslash, but cron has no continued lines: write the command on one line",
            )
        }
        Why::Pattern(fault, _) => push_pattern_reason(text, line, fault),
        Why::Crate(refusal) => write!(text, "{refusal}"),
        Why::NotText => text.push_str("a pattern is text in UTF-8"),
        Why::NoUser => text.push_str(
            "bad username: no user of this name is known; a user's name stands here, then one blank and the command",
        ),
    }
}

// Why cron refuses a line, of which these bytes are at fault: its own words first, where it has some.
fn push_reason(
    alloc: Global,
    text: &mut String,
    fault: Fault,
    line: &[u8],
    piece: &[u8],
) -> Result<(), AllocError> {
    match fault {
        Fault::Minutes | Fault::Hours | Fault::Days | Fault::Months | Fault::Weekdays =>
            push_field_reason(alloc, text, fault, line, piece),
        Fault::Nickname if is_cut_nickname(piece) => text.push_str(
            "bad time specifier: a carriage return ends the word: save the file with Unix line ends",
        ),
        Fault::Nickname => push_nickname_reason(text, line, piece),
        _ => text.push_str(reason_of(fault)),
    }
}

// Why cron refuses a nickname.
fn push_nickname_reason(text: &mut String, line: &[u8], piece: &[u8]) -> Result<(), AllocError> {
    if push_nickname_hint(text, line, rest_of(piece))? {
        return Ok(());
    }
    text.push_str(reason_of(Fault::Nickname))
}

// Why cron refuses a field, of which this part is at fault.
fn push_field_reason(
    alloc: Global,
    text: &mut String,
    fault: Fault,
    line: &[u8],
    part: &[u8],
) -> Result<(), AllocError> {
    let said = words_of_cron(fault);
    let field = field_at_fault(line, fault);
    if field.is_empty() {
        let count = fields_before(fault);
        return write!(
            text,
            "{said}: the line has only {count} of the five fields that stand before the command"
        );
    }
    if has(field, END_OF_FILE) {
        text.push_str(said)?;
        return text.push_str(": cron takes the byte 255 for the end of the file");
    }
    match fault {
        Fault::Minutes => push_minute_reason(alloc, text, line, field, part),
        Fault::Weekdays if takes(alloc, WEEKDAYS, field)? => {
            text.push_str(said)?;
            text.push_str(
                ": the command begins with the byte 255, which cron takes for the end of the file",
            )
        }
        _ => push_hint(alloc, text, fault, line, field, part),
    }
}

// The field of a line that is at fault.
fn field_at_fault(line: &[u8], fault: Fault) -> &[u8] {
    let (_, content) = cut(line, Kind::Blank);
    let words = words_of(content);
    match fault {
        Fault::Hours => words.hours,
        Fault::Days => words.days,
        Fault::Months => words.months,
        Fault::Weekdays => words.weekdays,
        _ => words.minutes,
    }
}

// Why cron refuses the first word of a line, which it takes for minutes.
fn push_minute_reason(
    alloc: Global,
    text: &mut String,
    line: &[u8],
    field: &[u8],
    part: &[u8],
) -> Result<(), AllocError> {
    let (_, content) = cut(line, Kind::Blank);
    if is_carriage_return(content) {
        return text.push_str(
            "bad minute: the line is a carriage return, which is no blank to cron: save the file with Unix line ends",
        );
    }
    match value_of(content) {
        Some([]) => push_unset(text, content),
        Some([first, ..]) if is_quote(*first) => text.push_str(
            "bad minute: this is no setting to cron: a value that begins with a quote ends with the same one, and only spaces follow",
        ),
        _ => push_hint(alloc, text, Fault::Minutes, line, field, part),
    }
}

// Why a name and a `=` without a value are refused.
fn push_unset(text: &mut String, content: &[u8]) -> Result<(), AllocError> {
    let (name, _) = cut(content, Kind::Name);
    text.push_str("bad minute: a setting has a value, and an empty one stands in quotes: write ")?;
    push_front(text, name, COMMAND_BYTES)?;
    text.push_str("=\"\"")
}

// How many fields stand in front of the one at fault.
pub(super) fn fields_before(fault: Fault) -> u8 {
    match fault {
        Fault::Hours => 1,
        Fault::Days => 2,
        Fault::Months => 3,
        Fault::Weekdays => 4,
        _ => 0,
    }
}

// Whether a nickname's word is one but for a carriage return after it.
fn is_cut_nickname(piece: &[u8]) -> bool {
    let name = trim_end(rest_of(piece));
    name.len() < rest_of(piece).len() && is_nickname(name)
}

// Whether a text has nothing but carriage returns and other spaces.
fn is_carriage_return(text: &[u8]) -> bool {
    has(text, b'\r') && trim_end(text).is_empty()
}

// What stands after a name and a `=`, without the spaces in front of it.
fn value_of(text: &[u8]) -> Option<&[u8]> {
    let (name, after) = cut(text, Kind::Name);
    let (_, sign) = cut(after, Kind::Space);
    if name.is_empty() || !begins_with(sign, b'=') {
        return None;
    }
    let (_, value) = cut(rest_of(sign), Kind::Space);
    Some(value)
}

// What cron itself says of a field that it refuses.
pub(super) fn words_of_cron(fault: Fault) -> &'static str {
    match fault {
        Fault::Hours => "bad hour",
        Fault::Days => "bad day-of-month",
        Fault::Months => "bad month",
        Fault::Weekdays => "bad day-of-week",
        _ => "bad minute",
    }
}

// Why cron refuses a line, by the fault alone: its own words first, where it has some.
pub(super) fn reason_of(fault: Fault) -> &'static str {
    match fault {
        Fault::Nul =>
            "bad line: cron ends it at the byte 0, and reads what follows as a further one",
        Fault::Minutes =>
            "bad minute: write numbers from 0 to 59, as in 5 or 0,30 or 10-20 or */15",
        Fault::Hours => "bad hour: write numbers from 0 to 23, as in 5 or 6,18 or 9-17 or */2",
        Fault::Days =>
            "bad day-of-month: write numbers from 1 to 31, as in 5 or 1,15 or 1-7 or */2",
        Fault::Months =>
            "bad month: write numbers from 1 to 12, or jan to dec, as in 5 or jan,jul or 3-5 or */3",
        Fault::Weekdays =>
            "bad day-of-week: write numbers from 0 to 7, or sun to sat, as in 5 or mon,fri or 1-5 or *; the command follows",
        Fault::Nickname => {
            "bad time specifier: write @yearly, @monthly, @weekly, @daily, @hourly or @reboot, in small letters"
        }
        Fault::User => "bad command: a user's name stands here, then one blank and the command",
        Fault::Command =>
            "bad command: it may not begin with *; a line has five fields in front of the command",
        Fault::LongCommand => "command too long: cron takes up to 998 characters",
    }
}
