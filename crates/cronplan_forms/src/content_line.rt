//! Content lines of a calendar.
ghost use Rattle.std.specs.Prelude.{◌≡◌, ◌++◌, ◌≤◌, IfOk, OnOk, IsTrue, string_bytes};
ghost use Rattle.std.specs.List.{list_all};
ghost use Rattle.cronplan_forms.specs.ContentLines.{line_end, placed, used_with, content_line, unfolded, are_short, is_no_return};

use std::alloc::AllocError;

/// The most bytes of a line of the file, without its carriage return and line feed.
const MOST_BYTES: usize = 75;

/// Appends a content line to a text, with its carriage return and line feed, folded by RFC 5545, section 3.1.
///
/// No line of the file has more than 75 bytes, and a fold is never within a character. Without its folds it is the given line. The only
/// error is lack of memory; the text's end is then unspecified.
#[tactic(auto, using(crate::proofs::FoldedLines::short, crate::proofs::FoldedLines::whole))]
pub fn push_content_line(text: &mut String, line: &str) -> Result<(), AllocError>
    ensures value { OnOk result (string_bytes text.new ≡ string_bytes text.old ++ content_line line.now) }
    ensures short { IsTrue (are_short 0 (content_line line.now)) }
    ensures whole { IsTrue (list_all is_no_return line.now) → unfolded (content_line line.now) ≡ line.now ++ line_end }
{
    let mut used = 0;
    for c in line.chars() {
        used = push_placed(text, used, c)?;
    }
    text.push_str("\r\n")
}

// Appends a character after so many bytes of its line, or in the next line if it doesn't fit. Returns how many bytes its line then has.
fn push_placed(text: &mut String, used: usize, c: char) -> Result<usize, AllocError>
    requires { used ≤ 75 }
    ensures value { OnOk result (string_bytes text.new ≡ string_bytes text.old ++ placed used c) }
    ensures used { IfOk result (λ n. n ≡ used_with used c) }
    ensures few { IfOk result (λ n. n ≤ 75) }
{
    let size = c.len_utf8();
    if used + size > MOST_BYTES {
        text.push_str("\r\n ")?;
        text.push(c)?;
        return Ok(1 + size);
    }
    text.push(c)?;
    Ok(used + size)
}
