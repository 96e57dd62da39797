//! What is said of a name that no warning has.

use super::ALLOWABLE;
use croncheck_output::front::{COMMAND_BYTES, push_front};
use std::alloc::{AllocError, Global};
use strsim::levenshtein;

/// Appends to a text that no warning has this name, and which name is nearest to it. A name that is longer than a text shows it isn't
/// compared. The only error is lack of memory; the text's end is then unspecified.
pub fn push_unknown(alloc: Global, text: &mut String, name: &[u8]) -> Result<(), AllocError> {
    text.push_str("No warning that may be allowed has the name ")?;
    push_front(text, name, COMMAND_BYTES)?;
    if name.len() > COMMAND_BYTES {
        return text.push_str("; none is so long.");
    }
    let nearest = nearest_name(alloc, name)?;
    write!(text, "; the nearest is {nearest}.")
}

/// The name of a warning that is nearest to this name, by the number of letters to change; the first one if several are as
/// near. The only error is lack of memory.
pub fn nearest_name(alloc: Global, name: &[u8]) -> Result<&'static str, AllocError> {
    let text = std::str::from_utf8(name).unwrap_or("");
    let (mut nearest, mut fewest) = (0, usize::MAX);
    for place in 0..ALLOWABLE.len() {
        let changes = levenshtein(alloc, text, name_at(place))?;
        if changes < fewest {
            fewest = changes;
            nearest = place;
        }
    }
    Ok(name_at(nearest))
}

// The name at a place of the list.
fn name_at(place: usize) -> &'static str {
    match ALLOWABLE.get(place) {
        Some(name) => name,
        None => "",
    }
}
