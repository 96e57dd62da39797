//! Bytes of a file as they are shown: nothing among them that a terminal acts on, or that nobody sees.
ghost use Rattle.std.specs.Prelude.{◌≡◌, ◌++◌, take, length, ◌<◌, ◌≤◌, IfOk, OnOk, IsTrue, string_bytes, drop};
ghost use Rattle.std.specs.List.{All, list_all};
ghost use Rattle.std.specs.Str.{encode_utf8_all};
ghost use Rattle.bstr.specs.Escape.{escaped};
ghost use Rattle.bstr.specs.Utf8.{decoded};
ghost use Rattle.crontab.specs.Setting.{has};
ghost use Rattle.croncheck_output.specs.Escaped.{front_shown, front_size, bytes_shown, is_harmless, is_printed, replaced, exact_text};

use bstr::{ByteSlice, decode_utf8};
use croner_base::excerpt::ShownCharacter;
use crontab::bytes::{Kind, cut, rest_of};
use crontab::setting::has;
use std::alloc::{AllocError, Global};

/// Some bytes as they are shown. Text in UTF-8 stands as it is, but for a character that a terminal acts on or that nobody sees: such a
/// character stands as `\t`, `\n`, `\r` or by its number, as `\u{1b}`. A byte that isn't part of such text stands by its value, as
/// `\xFF`. The only error is lack of memory.
pub fn shown_text(alloc: Global, bytes: &[u8]) -> Result<String, AllocError>
    ensures shown { IfOk result (λ text. string_bytes text ≡ bytes_shown bytes.now) }
    ensures harmless { IfOk result (λ text. IsTrue (list_all is_harmless (string_bytes text))) }
    ensures same { IsTrue (list_all is_printed bytes.now) → IfOk result (λ text. string_bytes text ≡ bytes.now) }
{
    let mut text = String::new(alloc);
    push_shown(&mut text, bytes)?;
    Ok(text)
}

/// Appends some bytes to a text, as they are shown. The only error is lack of memory; the text's end is then unspecified.
pub fn push_shown(text: &mut String, bytes: &[u8]) -> Result<(), AllocError>
    ensures { OnOk result (string_bytes text.new ≡ string_bytes text.old ++ bytes_shown bytes.now) }
{
    let mut rest = bytes;
    while !rest.is_empty() {
        rest = push_front(text, rest)?;
    }
    Ok(())
}

// Appends the first character of some bytes to a text, or their first byte where they begin with no character. Returns the bytes after
// it.
fn push_front<'b>(text: &mut String, bytes: &'b [u8]) -> Result<&'b [u8], AllocError>
    requires { 0 < length bytes.now }
    ensures shown { OnOk result (string_bytes text.new ≡ string_bytes text.old ++ front_shown (decoded bytes.now).char bytes.now) }
    ensures rest { IfOk result (λ rest. rest.now ≡ drop (front_size (decoded bytes.now).char (decoded bytes.now).size) bytes.now) }
    ensures shorter { IfOk result (λ rest. length rest.now < length bytes.now) }
{
    match decode_utf8(bytes) {
        (Some(c), size) => {
            let shown = ShownCharacter::of(c);
            write!(text, "{shown}")?;
            Ok(bytes.split_at(size).1)
        }
        (None, _) => {
            let (first, rest) = bytes.split_at(1);
            let escaped = first.escape_bytes();
            write!(text, "{escaped}")?;
            Ok(rest)
        }
    }
}

/// Some bytes as they are shown, but for a backslash, which stands as two: so it can be told from the backslash of a character that
/// stands by its name or number. The only error is lack of memory.
pub fn exact_text(alloc: Global, bytes: &[u8]) -> Result<String, AllocError>
    ensures { IfOk result (λ text. string_bytes text ≡ exact_text bytes.now) }
{
    let mut text = String::new(alloc);
    push_replaced(&mut text, bytes, b'\\', "\\\\")?;
    Ok(text)
}

/// Appends some bytes to a text, as they are shown, with another text in place of each byte of one value. The only error is lack of
/// memory; the text's end is then unspecified.
pub(crate) fn push_replaced(
    text: &mut String,
    bytes: &[u8],
    sign: u8,
    replacement: &str,
) -> Result<(), AllocError>
    ensures { OnOk result (string_bytes text.new ≡ string_bytes text.old ++ replaced sign replacement.now bytes.now) }
{
    let mut rest = bytes;
    while has(rest, sign) {
        rest = push_piece(text, rest, sign, replacement)?;
    }
    push_shown(text, rest)
}

// Appends to a text what stands before the first such byte, as it is shown, and the other text. Returns the bytes after it.
#[tactic(auto, using(crate::proofs::SpacedBytes::one_piece))]
fn push_piece<'b>(
    text: &mut String,
    bytes: &'b [u8],
    sign: u8,
    replacement: &str,
) -> Result<&'b [u8], AllocError>
    requires { IsTrue (has sign bytes.now) }
    ensures shown { IfOk result (λ rest. string_bytes text.new ++ replaced sign replacement.now rest.now ≡ string_bytes text.old ++ replaced sign replacement.now bytes.now) }
    ensures shorter { IfOk result (λ rest. length rest.now < length bytes.now) }
{
    let (piece, after) = cut(bytes, Kind::But(sign));
    push_shown(text, piece)?;
    text.push_str(replacement)?;
    Ok(rest_of(after))
}
