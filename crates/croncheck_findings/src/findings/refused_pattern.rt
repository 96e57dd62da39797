//! Why croner's parser refuses a pattern, and what to write in its place where its own words don't say that.

use super::hints::{
    Meant, foreign_sign, meant_by, push_sign, words_of_hashed, words_of_schedule, words_of_years,
};
use super::reasons::bytes_at_fault;
use croner::parser::PatternFault;
use crontab::bytes::{Kind, begins_with, cut, rest_of};
use std::alloc::AllocError;

/// The bytes between which a field stands, and those between which a part of its list does.
const ENDS_OF_FIELD: &[u8] = b" \t";

const ENDS_OF_PART: &[u8] = b" \t,";

/// Puts after a text why the parser refuses the pattern of a line, and after it the hint that a crontab's line would have.
pub(super) fn push_pattern_reason(
    text: &mut String,
    line: &[u8],
    fault: &PatternFault,
) -> Result<(), AllocError> {
    write!(text, "{fault}")?;
    let (_, pattern) = cut(line, Kind::Blank);
    let (first, _) = cut(pattern, Kind::Word);
    if begins_with(first, b'@') {
        return push_meant(text, meant_by(pattern, rest_of(first)));
    }
    if let Some(sign) = foreign_sign(piece_at(pattern, fault.start, ENDS_OF_FIELD)) {
        text.push_str(" Hint")?;
        push_sign(text, sign)?;
        return text.push('.');
    }
    match words_of_another(pattern, first, fault) {
        Some(words) => write!(text, " Hint: {words}."),
        None => Ok(()),
    }
}

// Puts after a text what a nickname was meant as, where the parser's words don't say that.
fn push_meant(text: &mut String, meant: Option<Meant>) -> Result<(), AllocError> {
    match meant {
        Some(Meant::Interval) | None => Ok(()),
        Some(meant) => write!(text, " Hint: {meant}."),
    }
}

// What is said of a pattern with this first word, which has this fault, that another program takes.
fn words_of_another(pattern: &[u8], first: &[u8], fault: &PatternFault) -> Option<&'static str> {
    if let Some(words) = words_of_schedule(first) {
        return Some(words);
    }
    match words_of_hashed(piece_at(pattern, fault.start, ENDS_OF_PART)) {
        Some(words) => Some(words),
        None => words_of_years(pattern, fault.field.is_some()),
    }
}

// The bytes around a place of a text, between those that end a piece.
fn piece_at<'p>(text: &'p [u8], at: usize, ends: &[u8]) -> &'p [u8] {
    let (front, rest) = text.split_at(at.min(text.len()));
    let before = front
        .iter()
        .rev()
        .take_while(|byte| !ends.contains(*byte))
        .count();
    let after = rest.iter().take_while(|byte| !ends.contains(*byte)).count();
    bytes_at_fault(
        text,
        front.len().saturating_sub(before),
        front.len().saturating_add(after),
    )
}
