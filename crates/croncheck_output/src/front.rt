//! The front of a text, where not all of it is shown.
ghost use Rattle.std.specs.Prelude.{◌≡◌, ◌≤◌, ◌++◌, length, OnOk, string_bytes};
ghost use Rattle.croncheck_output.specs.Escaped.{spaced};
ghost use Rattle.croncheck_output.specs.Front.{continues, start_at, cut_at, left_out_text, front_text};

use crate::escaped::push_replaced;
use std::alloc::AllocError;

/// How many bytes of a command are shown at most.
pub const COMMAND_BYTES: usize = 40;

/// What stands where something is left out.
const LEFT_OUT: &str = "..";

/// Appends bytes of a line to a text, as they are shown, but a tab as a space. The only error is lack of memory; the
/// text's end is then unspecified.
pub fn push_spaced(text: &mut String, bytes: &[u8]) -> Result<(), AllocError>
    ensures { OnOk result (string_bytes text.new ≡ string_bytes text.old ++ spaced bytes.now) }
{
    push_replaced(text, bytes, b'\t', " ")
}

/// Appends the first of some bytes to a text as `push_spaced` does, at most `most`, and `..` if there are more. No
/// character of UTF-8 is cut. The error is as that of `push_spaced`.
pub fn push_front(text: &mut String, bytes: &[u8], most: usize) -> Result<(), AllocError>
    ensures { OnOk result (string_bytes text.new ≡ string_bytes text.old ++ front_text most bytes.now) }
{
    let (front, rest) = bytes.split_at(cut_at(bytes, most));
    push_spaced(text, front)?;
    push_left_out(text, !rest.is_empty())
}

/// Appends `..` to a text if something is left out of it. The error is as that of `push_spaced`.
pub fn push_left_out(text: &mut String, is_left_out: bool) -> Result<(), AllocError>
    ensures { OnOk result (string_bytes text.new ≡ string_bytes text.old ++ left_out_text is_left_out) }
{
    if is_left_out {
        text.push_str(LEFT_OUT)?;
    }
    Ok(())
}

/// How many of some bytes stand in front where they are cut in two: at most `most`, so that no character of UTF-8 is
/// cut.
pub fn cut_at(bytes: &[u8], most: usize) -> usize
    ensures value { result ≡ cut_at most bytes.now }
    ensures bound { result ≤ length bytes.now }
{
    if bytes.len() <= most {
        bytes.len()
    } else {
        start_at(bytes, most)
    }
}

// The last place up to `most` where no character of UTF-8 is cut, if that is one of the last four; else `most`.
fn start_at(bytes: &[u8], most: usize) -> usize
    ensures value { result ≡ start_at most bytes.now }
    ensures bound { result ≤ most }
{
    if !continues(bytes, most) {
        most
    } else if !continues(bytes, most.saturating_sub(1)) {
        most.saturating_sub(1)
    } else if !continues(bytes, most.saturating_sub(2)) {
        most.saturating_sub(2)
    } else if !continues(bytes, most.saturating_sub(3)) {
        most.saturating_sub(3)
    } else {
        most
    }
}

// Whether the byte at a place continues a character of UTF-8.
fn continues(bytes: &[u8], at: usize) -> bool
    ensures { result ≡ continues bytes.now at }
{
    match bytes.get(at) {
        Some(byte) => 0x80 <= *byte && *byte < 0xc0,
        None => false,
    }
}
