//! Weekdays of patterns that look like Quartz's.

use std::alloc::{AllocError, Global};

/// How many fields stand in front of the weekdays where there are seconds.
const BEFORE_WEEKDAYS: usize = 5;

/// How many fields a pattern of Quartz has, without years and with them.
const SIX: usize = 6;

const SEVEN: usize = 7;

/// What Quartz makes of the weekdays of a pattern, if it has six or seven fields of which one is `?`, and its weekdays are numbers alone. The
/// only error is lack of memory.
pub fn note_on_quartz(alloc: Global, text: &str) -> Result<Option<String>, AllocError> {
    let count = text.split_whitespace().count();
    if count != SIX && count != SEVEN || !text.split_whitespace().any(|field| field == "?") {
        return Ok(None);
    }
    let weekdays = text.split_whitespace().nth(BEFORE_WEEKDAYS).unwrap_or("");
    match names_of(alloc, weekdays)? {
        Some(names) => {
            let note = format!(in alloc;
                "Quartz, whose patterns have a ?, counts weekdays from 1 for Sunday: there {weekdays} is {names}. For that, give --for quartz"
            )?;
            Ok(Some(note))
        }
        None => Ok(None),
    }
}

// The weekdays that a field of numbers names in Quartz. `None` for a field with other signs than these, `-` and `,`.
fn names_of(alloc: Global, field: &str) -> Result<Option<String>, AllocError> {
    let mut names = String::new(alloc);
    for sign in field.chars() {
        match words_of(sign) {
            Some(words) => names.push_str(words)?,
            None => return Ok(None),
        }
    }
    Ok(if names.is_empty() { None } else { Some(names) })
}

fn words_of(sign: char) -> Option<&'static str> {
    match sign {
        '1' => Some("Sunday"),
        '2' => Some("Monday"),
        '3' => Some("Tuesday"),
        '4' => Some("Wednesday"),
        '5' => Some("Thursday"),
        '6' => Some("Friday"),
        '7' => Some("Saturday"),
        '-' => Some(" to "),
        ',' => Some(", "),
        _ => None,
    }
}
