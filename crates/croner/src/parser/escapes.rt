//! What a message repeats of a text.

use croner_base::excerpt::Excerpt;
use std::alloc::{AllocError, Global};

/// The text at a place, in quotes, and the part of a list that contains it. A character past ASCII is followed by its number,
/// since it may look like another.
pub fn found_at(alloc: Global, text: &str, start: usize, end: usize) -> Result<String, AllocError> {
    let (front, piece, rest) = cut(text, start, end);
    let part = part_around(text, front, rest);
    let number = code_point_of(alloc, piece)?;
    if part.len() <= piece.len() {
        let piece = Excerpt::of(piece);
        return format!(in alloc; "{piece}{number}");
    }
    let piece = Excerpt::of_one_of_two(piece);
    let part = Excerpt::of_one_of_two(part);
    format!(in alloc; "{piece}{number} in {part}")
}

/// The number of a text's only character, as ` (U+2013)`; nothing if that is ASCII, or is shown by its number.
fn code_point_of(alloc: Global, piece: &str) -> Result<String, AllocError> {
    let Some(c) = only_char(piece) else {
        return Ok(String::new(alloc));
    };
    if c.is_ascii() || is_escaped(alloc, piece)? {
        return Ok(String::new(alloc));
    }
    let code = u32::from(c);
    format!(in alloc; " (U+{code:04X})")
}

/// The character of a text that has exactly one.
fn only_char(text: &str) -> Option<char> {
    let mut chars = text.chars();
    let c = chars.next()?;
    match chars.next() {
        None => Some(c),
        Some(_) => None,
    }
}

/// Whether a text's first character is shown by its number.
fn is_escaped(alloc: Global, piece: &str) -> Result<bool, AllocError> {
    let shown = Excerpt::of(piece);
    let shown = format!(in alloc; "{shown}")?;
    Ok(shown.starts_with("'\\"))
}

/// A text in three: what comes before a place, the place, and what follows it.
fn cut(text: &str, start: usize, end: usize) -> (&str, &str, &str) {
    let front = text.get(..start).unwrap_or("");
    let piece = text.get(start..end).unwrap_or(text);
    let rest = text.get(end..).unwrap_or("");
    (front, piece, rest)
}

/// The part of a list that contains a place, given what comes before the place and what follows it.
fn part_around<'t>(text: &'t str, front: &str, rest: &str) -> &'t str {
    let mut from = 0;
    for (at, c) in front.char_indices() {
        if is_between_parts(c) {
            from = at.saturating_add(c.len_utf8());
        }
    }
    let left = rest.find(is_between_parts).unwrap_or(rest.len());
    let to = text.len().saturating_sub(rest.len()).saturating_add(left);
    text.get(from..to).unwrap_or("")
}

fn is_between_parts(c: char) -> bool {
    c == ',' || c.is_whitespace()
}
