//! Texts that are no pattern and no line, and what to write in their place.

mod english;
mod fields;
mod interval;
pub mod quartz;
mod signs;
mod systemd;

use english::advice_on_english;
use fields::advice_on_fields;
use interval::advice_on_interval;
use signs::{advice_on_dash, advice_on_stars};
use std::alloc::{AllocError, Global};
use systemd::advice_on_event;

/// How many bytes a text may have at most that advice is given on.
const MOST_BYTES: usize = 200;

/// The fields that a pattern has at least.
const LEAST_FIELDS: usize = 5;

/// What to write in place of a text that is no pattern, as whole sentences, if that is known. A text with a control character, and one of more than
/// 200 bytes, has none. The only error is lack of memory.
pub fn advice(alloc: Global, text: &str) -> Result<Option<String>, AllocError> {
    let text = text.trim();
    if MOST_BYTES < text.len() || text.chars().any(|sign| sign.is_control()) {
        return Ok(None);
    }
    match advice_on_front(alloc, text)? {
        Some(advice) => Ok(Some(advice)),
        None => advice_on_text(alloc, text),
    }
}

// What to write in place of a text with something in front of its fields.
fn advice_on_front(alloc: Global, text: &str) -> Result<Option<String>, AllocError> {
    if let Some((name, zone, pattern)) = setting_in_front(text) {
        return advice_on_setting(alloc, name, zone, pattern);
    }
    match pattern_of_key(text) {
        Some(pattern) => advice_on_key(alloc, pattern),
        None => advice_on_dash(alloc, text),
    }
}

// The same of any other text.
fn advice_on_text(alloc: Global, text: &str) -> Result<Option<String>, AllocError> {
    if let Some(advice) = advice_on_stars(alloc, text)? {
        return Ok(Some(advice));
    }
    if let Some(advice) = advice_on_comment(alloc, text)? {
        return Ok(Some(advice));
    }
    match advice_on_words(alloc, text)? {
        Some(advice) => Ok(Some(advice)),
        None => advice_on_fields(alloc, text),
    }
}

// The same of a text that has another form than fields.
fn advice_on_words(alloc: Global, text: &str) -> Result<Option<String>, AllocError> {
    if let Some(advice) = advice_on_event(alloc, text)? {
        return Ok(Some(advice));
    }
    match advice_on_interval(alloc, text)? {
        Some(advice) => Ok(Some(advice)),
        None => advice_on_english(alloc, text),
    }
}

// ---- a setting in front

// The setting of a zone in front of a text, with its zone and what follows.
fn setting_in_front(text: &str) -> Option<(&'static str, &str, &str)> {
    if let Some((zone, pattern)) = after_name(text, "CRON_TZ=") {
        return Some(("CRON_TZ", zone, pattern));
    }
    let (zone, pattern) = after_name(text, "TZ=")?;
    Some(("TZ", zone, pattern))
}

fn after_name<'t>(text: &'t str, name: &str) -> Option<(&'t str, &'t str)> {
    let rest = text.strip_prefix(name)?;
    let (zone, pattern) = rest.split_once(' ')?;
    Some((zone, pattern.trim()))
}

fn advice_on_setting(
    alloc: Global,
    name: &str,
    zone: &str,
    pattern: &str,
) -> Result<Option<String>, AllocError> {
    let text = format!(in alloc;
        "{name}={zone} is no part of a pattern. Leave it out and give --zone {zone}: croncheck next '{pattern}' --zone {zone}"
    )?;
    Ok(Some(text))
}

// ---- a key of YAML in front

// The value of a key of YAML under which patterns stand, without its quotes.
fn pattern_of_key(text: &str) -> Option<&str> {
    let item = text.strip_prefix('-').unwrap_or(text).trim();
    match item.strip_prefix("cron:") {
        Some(value) => Some(without_quotes(value)),
        None => Some(without_quotes(item.strip_prefix("schedule:")?)),
    }
}

fn without_quotes(value: &str) -> &str {
    value.trim().trim_matches(is_quote)
}

fn is_quote(sign: char) -> bool {
    sign == '\'' || sign == '"'
}

fn advice_on_key(alloc: Global, pattern: &str) -> Result<Option<String>, AllocError> {
    let text = format!(in alloc;
        "`cron:` is a key of a YAML file. Leave it out: croncheck next '{pattern}'"
    )?;
    Ok(Some(text))
}

// ---- a comment at the end

fn advice_on_comment(alloc: Global, text: &str) -> Result<Option<String>, AllocError> {
    let Some((front, _)) = text.split_once(" #") else {
        return Ok(None);
    };
    let pattern = front.trim();
    if pattern.split_whitespace().count() < LEAST_FIELDS {
        return Ok(None);
    }
    let place = front.chars().count().saturating_add(2);
    let text = format!(in alloc;
        "A comment begins at character {place}, and a pattern has none. Leave it out: croncheck next '{pattern}'"
    )?;
    Ok(Some(text))
}

// ---- a blank in a list

/// What to write in place of a pattern in which a blank stands beside a comma, so that the list becomes two fields. `None` for any other
/// text. The only error is lack of memory.
pub fn advice_on_split_list(alloc: Global, text: &str) -> Result<Option<String>, AllocError> {
    for place in 0..text.split_whitespace().count() {
        let (before, field) = (
            field_at(text, place),
            field_at(text, place.saturating_add(1)),
        );
        if is_split(before, field) {
            let advice = format!(in alloc;
                "A blank begins a new field. Write {before}{field} without the blank"
            )?;
            return Ok(Some(advice));
        }
    }
    Ok(None)
}

// The field at a place, from 0; empty where there is none.
fn field_at(text: &str, place: usize) -> &str {
    text.split_whitespace().nth(place).unwrap_or("")
}

// Whether a list goes on in the next field, which isn't empty.
fn is_split(before: &str, field: &str) -> bool {
    !field.is_empty() && (before.ends_with(',') || field.starts_with(','))
}
