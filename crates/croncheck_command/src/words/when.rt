//! The words of `--from` and `--until`.
ghost use Rattle.std.specs.Prelude.{IfOk, IfSome, ◌≤◌};
ghost use Rattle.croncheck_command.specs.Words.{IsNamedWhen};

use super::{NoCall, told_of_misuse};
use croncheck_moments::moment::{Moment, read_moment};
use jiff::Timestamp;
use jiff::civil::Date;
use jiff_fmt::friendly::parse_unsigned_duration;
use std::alloc::{AllocError, Global};

/// How the options of moments are written.
pub(super) const FROM: &str = "--from <DATETIME|DATE|@SECONDS|now>";

pub(super) const UNTIL: &str = "--until <DATETIME|DATE|@SECONDS|now>";

/// How the word of a moment is written.
const MOMENT_FORM: &str =
    "write 2024-10-27T00:00:00, 2024-10-27, 18:00, tomorrow, +7d, @1729980000 or now";

/// What is told of a date that the calendar doesn't have.
const NO_DATE: &str = "there is no such date: look at its month and its day";

/// How many bytes the form of a date has.
const DATE_LENGTH: usize = 10;

/// How many bytes a time without its seconds has.
const MINUTE_LENGTH: usize = 5;

const LAST_HOUR: i8 = 23;

const LAST_MINUTE: i8 = 59;

const SECONDS_PER_DAY: u64 = 86_400;

const SECONDS_PER_WEEK: u64 = 604_800;

/// The longest length after `+`, in seconds: 1000 years of 365 days.
const MOST_SECONDS: u64 = 31_536_000_000;

/// When something begins or ends, as a word says it.
#[derive(Clone, Copy, Drop)]
pub enum When {
    Moment(Moment),
    /// `tomorrow`: the date after the one that the zone's clock shows.
    Tomorrow,
    /// `18:00`: the next date and time at which the zone's clock shows this time of day.
    Clock { hour: i8, minute: i8 },
    /// `+7d`: so many seconds later, up to 31,536,000,000.
    Later(u64),
}

/// When the word of an option says. The error is what is told of a word that says no such thing, or lack of memory.
pub(super) fn when_of(alloc: Global, option: &str, word: &str) -> Result<When, NoCall>
    ensures { IfOk result IsNamedWhen }
{
    if let Some(moment) = read_moment(alloc, word)? {
        return Ok(When::Moment(moment));
    }
    match other_form(alloc, word)? {
        Some(when) => Ok(when),
        None => Err(told_of_misuse(alloc, option, word, form_of_moment(word))),
    }
}

// When a word says that isn't of the form of a moment.
fn other_form(alloc: Global, word: &str) -> Result<Option<When>, AllocError>
    ensures { IfOk result (λ found. IfSome found IsNamedWhen) }
{
    if word == "tomorrow" {
        return Ok(Some(When::Tomorrow));
    }
    if let Some(seconds) = seconds_later(word) {
        return Ok(Some(When::Later(seconds)));
    }
    match clock_of(word) {
        Some(clock) => Ok(Some(clock)),
        None => other_moment(alloc, word),
    }
}

// The moment of a word that is an instant, as `2024-10-27T00:00:00Z`, or a date and time without `T` or without seconds.
fn other_moment(alloc: Global, word: &str) -> Result<Option<When>, AllocError>
    ensures { IfOk result (λ found. IfSome found IsNamedWhen) }
{
    if let Ok(instant) = word.parse::<Timestamp>() {
        return Ok(Some(When::Moment(Moment::Second(instant.as_second()))));
    }
    let Some((date, time)) = date_and_time(word) else {
        return Ok(None);
    };
    let seconds = if time.len() == MINUTE_LENGTH {
        ":00"
    } else {
        ""
    };
    let text = format!(in alloc; "{date}T{time}{seconds}")?;
    match read_moment(alloc, text.as_str())? {
        Some(moment) => Ok(Some(When::Moment(moment))),
        None => Ok(None),
    }
}

fn date_and_time(word: &str) -> Option<(&str, &str)> {
    match word.split_once('T') {
        Some(parts) => Some(parts),
        None => word.split_once(' '),
    }
}

// The seconds of a length after `+`, as `+7d` and `+1h 30m`.
fn seconds_later(word: &str) -> Option<u64>
    ensures { IfSome result (λ seconds. seconds ≤ 31_536_000_000) }
{
    let length = word.strip_prefix('+')?;
    let seconds = match seconds_of_days(length) {
        Some(seconds) => seconds,
        None => parse_unsigned_duration(length.as_bytes()).ok()?.as_secs(),
    };
    if seconds <= MOST_SECONDS {
        Some(seconds)
    } else {
        None
    }
}

fn seconds_of_days(length: &str) -> Option<u64> {
    if let Some(days) = length.strip_suffix('d') {
        return days.parse::<u64>().ok()?.checked_mul(SECONDS_PER_DAY);
    }
    let weeks = length.strip_suffix('w')?;
    weeks.parse::<u64>().ok()?.checked_mul(SECONDS_PER_WEEK)
}

// The time of day of a word, as `18:00`.
fn clock_of(word: &str) -> Option<When>
    ensures { IfSome result IsNamedWhen }
{
    let (hour, minute) = word.split_once(':')?;
    let (hour, minute) = (hour.parse::<i8>().ok()?, minute.parse::<i8>().ok()?);
    if 0 <= hour && hour <= LAST_HOUR && 0 <= minute && minute <= LAST_MINUTE {
        Some(When::Clock { hour, minute })
    } else {
        None
    }
}

// What is told of a word that names no moment: that the date doesn't exist, where it has the form of one.
fn form_of_moment(word: &str) -> &'static str {
    let date = match date_and_time(word) {
        Some((date, _)) => date,
        None => word,
    };
    if has_form_of_date(date.as_bytes()) && date.parse::<Date>().is_err() {
        NO_DATE
    } else {
        MOMENT_FORM
    }
}

// Whether a text has the form `YYYY-MM-DD`, of any digits.
fn has_form_of_date(text: &[u8]) -> bool {
    if text.len() != DATE_LENGTH {
        return false;
    }
    for k in 0..DATE_LENGTH {
        if !fits_at(k, text[k]) {
            return false;
        }
    }
    true
}

// Whether a byte may stand at a place of that form.
fn fits_at(place: usize, byte: u8) -> bool {
    match place {
        4 | 7 => byte == b'-',
        _ => byte.is_ascii_digit(),
    }
}
