//! Fields that other programs take, and people.

use super::english::{Clock, clock_of};
use std::alloc::{AllocError, Global};

/// The fields that a pattern has at least, and at most.
const LEAST_FIELDS: usize = 5;

const MOST_FIELDS: usize = 7;

/// What to write in place of the first field of a text for which that is known, if the text has as many fields as a pattern may have.
pub(super) fn advice_on_fields(alloc: Global, text: &str) -> Result<Option<String>, AllocError> {
    let count = text.split_whitespace().count();
    if count < LEAST_FIELDS || MOST_FIELDS < count {
        return Ok(None);
    }
    for field in text.split_whitespace() {
        if let Some(advice) = advice_on_field(alloc, field)? {
            return Ok(Some(advice));
        }
    }
    Ok(None)
}

fn advice_on_field(alloc: Global, field: &str) -> Result<Option<String>, AllocError> {
    if let Some(advice) = words_of_field(field) {
        return Ok(Some(String::from_str(alloc, advice)?));
    }
    match hour_with_half(alloc, field)? {
        Some(Clock { hour, .. }) => {
            let advice = format!(in alloc;
                "An hour is a number from 0 to 23: write {hour} in place of {field}"
            )?;
            Ok(Some(advice))
        }
        None => Ok(None),
    }
}

// The hour of a field with `am` or `pm`.
fn hour_with_half(alloc: Global, field: &str) -> Result<Option<Clock>, AllocError> {
    let field = field.to_ascii_lowercase(alloc)?;
    let word = field.as_str();
    if word.ends_with("am") || word.ends_with("pm") {
        Ok(clock_of(word))
    } else {
        Ok(None)
    }
}

fn words_of_field(field: &str) -> Option<&'static str> {
    if is_by_chance(field) {
        return Some(
            "A ~ is a time by chance in cronie and in OpenBSD's cron, and has no meaning here. Write a number of your own",
        );
    }
    if field == "R" || field.starts_with("R(") {
        return Some(
            "R is a number by chance in croniter, and has no meaning here. Write a number of your own",
        );
    }
    words_of_days(field)
}

// Whether a field has a range with `~`.
fn is_by_chance(field: &str) -> bool {
    field.contains('~')
        && field
            .chars()
            .all(|sign| sign == '~' || sign.is_ascii_digit())
}

fn words_of_days(field: &str) -> Option<&'static str> {
    if field.eq_ignore_ascii_case("weekdays") || field.eq_ignore_ascii_case("weekday") {
        return Some("Monday to Friday are a range: write MON-FRI");
    }
    if field.eq_ignore_ascii_case("weekends") || field.eq_ignore_ascii_case("weekend") {
        return Some("Saturday and Sunday are a list: write SAT,SUN");
    }
    None
}
