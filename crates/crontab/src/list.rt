//! The list of parts of a field, and the text that means the same to croner's parser.
ghost use Rattle.std.specs.Prelude.{◌≡◌, ◌≤◌, length, fold, option_map, string_bytes, IfOk, IfSome, OnOk};
ghost use Rattle.crontab.specs.List.{parts_of, refused_in, names_nothing, is_uneven, step_text, range_text, added, first_text, text_of, field_text};

use crate::bytes::begins_with;
use crate::field::{FieldBounds, SteppedRange, part_of};
use std::alloc::{AllocError, Global};

/// The byte that cron takes for the end of the file, where it follows a part.
const END_OF_FILE: u8 = 255;

/// The greatest step that is written: from here on a step is larger than any field's values.
const MOST_STEP: u64 = 9_999;

/// The parts of a field, in order, or `None` where cron refuses it. Reading stops after the first part that no
/// comma directly follows.
///
/// The only error is lack of memory.
pub fn parts_of(
    alloc: Global,
    bounds: FieldBounds,
    field: &[u8],
) -> Result<Option<Vec<SteppedRange>>, AllocError>
    ensures { IfOk result (λ found. option_map (λ parts. parts.items) found ≡ parts_of bounds field.now) }
{
    let mut parts = Vec::new(alloc);
    for piece in field.split(|byte| *byte == b',') {
        let Some((part, tail)) = part_of(bounds, piece) else {
            return Ok(None);
        };
        if begins_with(tail, END_OF_FILE) {
            return Ok(None);
        }
        parts.push(part)?;
        if !tail.is_empty() {
            return Ok(Some(parts));
        }
    }
    Ok(Some(parts))
}

/// The place of the part for which cron refuses a field: the byte of the field at which it begins, from 0, and the byte after
/// its last one. `None` where cron accepts the field.
pub(crate) fn refused_in(bounds: FieldBounds, field: &[u8]) -> Option<(usize, usize)>
    ensures place { result ≡ refused_in bounds field.now }
    ensures order { IfSome result (λ found. found.0 ≤ found.1) }
    ensures within { IfSome result (λ found. found.1 ≤ length field.now) }
{
    let mut start = 0;
    for piece in field.split(|byte| *byte == b',') {
        let end = start + piece.len();
        let Some((_, tail)) = part_of(bounds, piece) else {
            return Some((start, end));
        };
        if begins_with(tail, END_OF_FILE) {
            return Some((start, end));
        }
        if !tail.is_empty() {
            return None;
        }
        start = end + 1;
    }
    None
}

/// Whether a part names no value: its range runs down.
pub fn names_nothing(part: &SteppedRange) -> bool
    ensures { result ≡ names_nothing part.now }
{
    part.last < part.first
}

/// Whether a field is a single star whose step is below `turn` and doesn't divide it.
pub fn is_uneven(turn: u64, parts: &[SteppedRange]) -> bool
    ensures { result ≡ is_uneven turn parts.now }
{
    match parts {
        [part] => part.is_star && 0 < part.step && part.step < turn && turn % part.step != 0,
        _ => false,
    }
}

// The step of a part, as it is written after its range.
fn step_text(alloc: Global, step: u64) -> Result<String, AllocError>
    ensures { IfOk result (λ text. string_bytes text ≡ step_text step) }
{
    if step == 1 {
        return Ok(String::new(alloc));
    }
    let told = step.min(MOST_STEP);
    format!(in alloc; "/{told}")
}

fn range_text(alloc: Global, part: &SteppedRange) -> Result<String, AllocError>
    ensures { IfOk result (λ text. string_bytes text ≡ range_text part.now) }
{
    let (first, last) = (part.first, part.last);
    if first == last && part.step == 1 {
        return format!(in alloc; "{first}");
    }
    let step = step_text(alloc, part.step)?;
    format!(in alloc; "{first}-{last}{step}")
}

fn add(alloc: Global, text: &mut String, part: &SteppedRange) -> Result<(), AllocError>
    ensures { OnOk result (string_bytes text.new ≡ added (string_bytes text.old) part.now) }
{
    if names_nothing(part) {
        return Ok(());
    }
    if !text.is_empty() {
        text.push(',')?;
    }
    let range = range_text(alloc, part)?;
    text.push_str(range.as_str())
}

fn first_text(alloc: Global, part: &SteppedRange) -> Result<String, AllocError>
    ensures { IfOk result (λ text. string_bytes text ≡ first_text part.now) }
{
    if part.is_star {
        let step = step_text(alloc, part.step)?;
        return format!(in alloc; "*{step}");
    }
    let mut text = String::new(alloc);
    add(alloc, &mut text, part)?;
    Ok(text)
}

fn all_text(
    alloc: Global,
    first: &SteppedRange,
    more: &[SteppedRange],
) -> Result<String, AllocError>
    ensures { IfOk result (λ text. string_bytes text ≡ fold added (first_text first.now) more.now) }
{
    let mut text = first_text(alloc, first)?;
    for part in more {
        add(alloc, &mut text, part)?;
    }
    Ok(text)
}

fn text_of(alloc: Global, parts: &[SteppedRange]) -> Result<String, AllocError>
    ensures { IfOk result (λ text. string_bytes text ≡ text_of parts.now) }
{
    match parts {
        [] => Ok(String::new(alloc)),
        [first, ..] if first.is_star && first.step == 1 => String::from_str(alloc, "*"),
        [first, more @ ..] => all_text(alloc, first, more),
    }
}

/// The text that means to croner's parser what the field means to cron, or `None` where cron refuses the field. It
/// is empty where the field names no value.
///
/// The only error is lack of memory.
pub fn field_text(
    alloc: Global,
    bounds: FieldBounds,
    field: &[u8],
) -> Result<Option<String>, AllocError>
    ensures { IfOk result (λ text. option_map string_bytes text ≡ field_text bounds field.now) }
{
    let Some(parts) = parts_of(alloc, bounds, field)? else {
        return Ok(None);
    };
    let text = text_of(alloc, parts.as_slice())?;
    Ok(Some(text))
}
