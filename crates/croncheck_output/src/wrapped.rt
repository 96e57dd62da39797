//! Texts that are broken into lines.
ghost use Rattle.std.specs.Prelude.{◌≡◌, ◌++◌, OnOk, IfOk, IsTrue, string_bytes};
ghost use Rattle.std.specs.List.{list_all, join_with_byte};
ghost use Rattle.croncheck_output.specs.Wrapped.{words_of, lines_of, wrapped_text, is_within};
ghost use Rattle.croncheck_output.specs.Private.Wrapping.{takes, front_of, length_with_word};

use std::alloc::{AllocError, Global};

/// A text broken into lines: a line takes the next word if it then has at most `most` bytes. Between two lines stands `between`.
///
/// Joined by spaces, the lines are the text. No line has more than `most` bytes, and so none has more columns, unless it is a
/// single word. The only error is lack of memory.
#[tactic(auto, using(crate::proofs::WrappedLines::lines_in_order, crate::proofs::WrappedLines::lines_within))]
pub fn wrapped_text(
    alloc: Global,
    text: &str,
    most: usize,
    between: &str,
) -> Result<String, AllocError>
    ensures value { IfOk result (λ lines. string_bytes lines ≡ wrapped_text most between.now text.now) }
    ensures order { join_with_byte 32 (lines_of most (words_of text.now)) ≡ text.now }
    ensures within { IsTrue (list_all (is_within most) (lines_of most (words_of text.now))) }
{
    let mut lines = String::new(alloc);
    push_wrapped(&mut lines, text, most, between)?;
    Ok(lines)
}

fn push_wrapped(
    lines: &mut String,
    text: &str,
    most: usize,
    between: &str,
) -> Result<(), AllocError>
    ensures { OnOk result (string_bytes lines.new ≡ string_bytes lines.old ++ wrapped_text most between.now text.now) }
{
    let mut used = None;
    for word in text.split(' ') {
        push_word(lines, front_of(most, between, used, word), word)?;
        used = Some(length_with_word(most, used, word));
    }
    Ok(())
}

fn push_word(lines: &mut String, front: &str, word: &str) -> Result<(), AllocError>
    ensures { OnOk result (string_bytes lines.new ≡ string_bytes lines.old ++ (front.now ++ word.now)) }
{
    lines.push_str(front)?;
    lines.push_str(word)
}

// What stands in front of a word after a line of so many bytes, if one is begun.
fn front_of<'b>(most: usize, between: &'b str, used: Option<usize>, word: &str) -> &'b str
    ensures { result.now ≡ front_of most between.now used word.now }
{
    match used {
        Some(used) if takes(most, used, word) => " ",
        Some(_) => between,
        None => "",
    }
}

// How many bytes the line has with the word.
fn length_with_word(most: usize, used: Option<usize>, word: &str) -> usize
    ensures { result ≡ length_with_word most used word.now }
{
    match used {
        Some(used) if takes(most, used, word) => used + 1 + word.len(),
        _ => word.len(),
    }
}

// Whether a line of so many bytes takes a word.
fn takes(most: usize, used: usize, word: &str) -> bool
    ensures { result ≡ takes most used word.now }
{
    word.len() < most.saturating_sub(used)
}
