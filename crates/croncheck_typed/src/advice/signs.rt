//! Signs that are no part of a field.

use std::alloc::{AllocError, Global};

/// What to write in place of a text with a dash in front of its fields.
pub(super) fn advice_on_dash(alloc: Global, text: &str) -> Result<Option<String>, AllocError> {
    let Some(pattern) = text.strip_prefix('-') else {
        return Ok(None);
    };
    let pattern = pattern.trim();
    if !pattern.starts_with(is_first_of_field) {
        return Ok(None);
    }
    let advice = format!(in alloc;
        "Some crons take a - in front of a line and then write no log. Here, leave out the -: croncheck next '{pattern}'"
    )?;
    Ok(Some(advice))
}

fn is_first_of_field(sign: char) -> bool {
    sign == '*' || sign.is_ascii_digit()
}

/// What to write in place of a text with a sign that only looks like a star.
pub(super) fn advice_on_stars(alloc: Global, text: &str) -> Result<Option<String>, AllocError> {
    let Some(sign) = text.chars().find(|sign| looks_like_star(*sign)) else {
        return Ok(None);
    };
    let pattern = with_stars(alloc, text)?;
    let code = u32::from(sign);
    let advice = format!(in alloc;
        "`{sign}` (U+{code:04X}) only looks like a star. Write '{pattern}'"
    )?;
    Ok(Some(advice))
}

fn looks_like_star(sign: char) -> bool {
    matches!(
        sign,
        '\u{2217}'
            | '\u{204e}'
            | '\u{2731}'
            | '\u{ff0a}'
            | '\u{fe61}'
            | '\u{66d}'
            | '\u{26b9}'
            | '\u{2716}'
            | '\u{d7}'
            | '\u{22c6}'
    )
}

// A text with a star in place of each such sign.
fn with_stars(alloc: Global, text: &str) -> Result<String, AllocError> {
    let mut starred = String::new(alloc);
    for sign in text.chars() {
        starred.push(star_for(sign))?;
    }
    Ok(starred)
}

fn star_for(sign: char) -> char {
    if looks_like_star(sign) { '*' } else { sign }
}
