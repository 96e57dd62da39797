//! Calendar events of systemd, as `Mon..Fri *-*-* 09:00`.

use super::english::{Clock, clock_of};
use std::alloc::{AllocError, Global};

/// What to write in place of a calendar event of systemd, with or without weekdays.
pub(super) fn advice_on_event(alloc: Global, text: &str) -> Result<Option<String>, AllocError> {
    let Some(event) = event_of(text) else {
        return Ok(None);
    };
    let weekdays = weekdays_of(alloc, event.weekdays)?;
    let Clock { hour, minute } = event.clock;
    let days = event.days;
    let advice = format!(in alloc;
        "This is a calendar event of systemd. Write {minute} {hour} {days} * {weekdays}"
    )?;
    Ok(Some(advice))
}

#[derive(Clone, Copy)]
struct Event<'t> {
    weekdays: &'t str,
    days: &'t str,
    clock: Clock,
}

// The parts of an event: its weekdays or `*`, its days of the month, and its time.
fn event_of(text: &str) -> Option<Event<'_>> {
    let mut words = text.split_whitespace();
    let (first, second, third) = (words.next()?, words.next()?, words.next());
    if words.next().is_some() {
        return None;
    }
    match third {
        Some(time) => event_on(first, second, time),
        None => event_on("*", first, second),
    }
}

fn event_on<'t>(weekdays: &'t str, date: &'t str, time: &str) -> Option<Event<'t>> {
    Some(Event {
        weekdays,
        days: date.strip_prefix("*-*-")?,
        clock: clock_of(time)?,
    })
}

// Weekdays as a pattern has them: a range has a dash, and names are in capitals.
fn weekdays_of(alloc: Global, weekdays: &str) -> Result<String, AllocError> {
    let mut text = String::new(alloc);
    for (place, part) in weekdays.split("..").enumerate() {
        if 0 < place {
            text.push('-')?;
        }
        text.push_str(part.to_ascii_uppercase(alloc)?.as_str())?;
    }
    Ok(text)
}
