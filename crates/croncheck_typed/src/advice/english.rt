//! Times in plain English, as `every weekday at 9:30`.

use std::alloc::{AllocError, Global};

/// The hours of half a day.
const HALF_DAY: u8 = 12;

const LAST_HOUR: u8 = 23;

const LAST_MINUTE: u8 = 59;

/// A time of day.
#[derive(Clone, Copy)]
pub(super) struct Clock {
    pub(super) hour: u8,
    pub(super) minute: u8,
}

/// What to write in place of a time in plain English.
pub(super) fn advice_on_english(alloc: Global, text: &str) -> Result<Option<String>, AllocError> {
    let text = text.to_ascii_lowercase(alloc)?;
    let heard = heard_in(text.as_str());
    let Some(days) = heard.days else {
        return Ok(None);
    };
    if !heard.is_understood {
        return Ok(None);
    }
    let Clock { hour, minute } = heard.clock.unwrap_or(MIDNIGHT);
    let advice = format!(in alloc;
        "Write {minute} {hour} * * {days}: the minute, the hour, the day, the month and the weekday"
    )?;
    Ok(Some(advice))
}

const MIDNIGHT: Clock = Clock { hour: 0, minute: 0 };

const NOON: Clock = Clock {
    hour: 12,
    minute: 0,
};

/// What was understood of a text.
#[derive(Clone, Copy)]
struct Heard {
    /// The field of the weekdays.
    days: Option<&'static str>,
    clock: Option<Clock>,
    /// Each word was understood.
    is_understood: bool,
}

fn heard_in(text: &str) -> Heard {
    let mut heard = Heard {
        days: None,
        clock: None,
        is_understood: true,
    };
    for word in text.split_whitespace() {
        heard = with_word(heard, word);
    }
    heard
}

// With one more word.
fn with_word(heard: Heard, word: &str) -> Heard {
    if is_of_no_weight(word) {
        return heard;
    }
    if let Some(days) = weekdays_called(word) {
        return Heard {
            days: Some(days),
            ..heard
        };
    }
    with_time(heard, word)
}

// With one more word, which is a time or isn't understood.
fn with_time(heard: Heard, word: &str) -> Heard {
    let clock = match (word, heard.clock) {
        ("am", Some(clock)) => clock_in_half(clock.hour, clock.minute, Half::Morning),
        ("pm", Some(clock)) => clock_in_half(clock.hour, clock.minute, Half::Afternoon),
        _ => clock_of(word),
    };
    Heard {
        clock,
        is_understood: heard.is_understood && clock.is_some(),
        ..heard
    }
}

fn is_of_no_weight(word: &str) -> bool {
    matches!(
        word,
        "every" | "each" | "at" | "on" | "the" | "o'clock" | "run" | "runs"
    )
}

// The field of the weekdays that a word calls.
fn weekdays_called(word: &str) -> Option<&'static str> {
    match word {
        "day" | "days" | "daily" => Some("*"),
        "weekday" | "weekdays" => Some("MON-FRI"),
        "weekend" | "weekends" => Some("SAT,SUN"),
        _ => weekday_called(word),
    }
}

fn weekday_called(word: &str) -> Option<&'static str> {
    match word {
        "monday" | "mondays" | "mon" => Some("MON"),
        "tuesday" | "tuesdays" | "tue" => Some("TUE"),
        "wednesday" | "wednesdays" | "wed" => Some("WED"),
        "thursday" | "thursdays" | "thu" => Some("THU"),
        "friday" | "fridays" | "fri" => Some("FRI"),
        "saturday" | "saturdays" | "sat" => Some("SAT"),
        "sunday" | "sundays" | "sun" => Some("SUN"),
        _ => None,
    }
}

/// The time that a word writes, as `9`, `9:30`, `09:30:00`, `9am`, `noon`.
pub(super) fn clock_of(word: &str) -> Option<Clock> {
    match word {
        "noon" => Some(NOON),
        "midnight" => Some(MIDNIGHT),
        _ => clock_in_digits(word),
    }
}

// The half of the day that a time is in, where it says that.
#[derive(Clone, Copy)]
enum Half {
    Unsaid,
    Morning,
    Afternoon,
}

fn clock_in_digits(word: &str) -> Option<Clock> {
    let (time, half) = time_and_half(word);
    let mut parts = time.split(':');
    let hour = number_of(parts.next()?)?;
    let minute = number_of(parts.next().unwrap_or("0"))?;
    match (parts.next(), parts.next()) {
        (None | Some("00"), None) => clock_in_half(hour, minute, half),
        _ => None,
    }
}

fn time_and_half(word: &str) -> (&str, Half) {
    if let Some(time) = word.strip_suffix("am") {
        return (time, Half::Morning);
    }
    match word.strip_suffix("pm") {
        Some(time) => (time, Half::Afternoon),
        None => (word, Half::Unsaid),
    }
}

// The number of one or two digits.
fn number_of(digits: &str) -> Option<u8> {
    if digits.is_empty() || 2 < digits.len() || !digits.chars().all(|sign| sign.is_ascii_digit()) {
        return None;
    }
    digits.parse::<u8>().ok()
}

// The time with this hour and minute in a half of the day. There is none at 13 am, or after 23:59.
fn clock_in_half(hour: u8, minute: u8, half: Half) -> Option<Clock> {
    if LAST_MINUTE < minute {
        return None;
    }
    let hour = match half {
        Half::Unsaid if hour <= LAST_HOUR => hour,
        Half::Morning if hour == HALF_DAY => 0,
        Half::Morning if hour < HALF_DAY => hour,
        Half::Afternoon if hour == HALF_DAY => HALF_DAY,
        Half::Afternoon if hour < HALF_DAY => hour.saturating_add(HALF_DAY),
        _ => return None,
    };
    Some(Clock { hour, minute })
}
