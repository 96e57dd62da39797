//! The escapes of a command of a GitHub workflow.
ghost use Rattle.std.specs.Prelude.{◌≡◌, ◌++◌, ◌<◌, length, option_map, IfOk, OnOk, IsTrue};
ghost use Rattle.std.specs.List.{list_all};
ghost use Rattle.croncheck_forms.specs.Annotations.{message_escape, property_escape, escape_of, escaped_byte, escaped_bytes, ends_nothing};

use std::alloc::{AllocError, Global};

/// Bytes as they stand in the value of a property of a command, if `is_property`, or else in its message.
///
/// None of them ends the command's line; none in a property ends its value. The only error is lack of memory.
pub fn escape(alloc: Global, bytes: &[u8], is_property: bool) -> Result<Vec<u8>, AllocError>
    ensures value { IfOk result (λ text. text.items ≡ escaped_bytes is_property bytes.now) }
    ensures closed { IfOk result (λ text. IsTrue (list_all (ends_nothing is_property) text.items)) }
{
    let mut text = Vec::new(alloc);
    push_escaped(&mut text, bytes, is_property)?;
    Ok(text)
}

/// Appends bytes to a line, as they stand in the value of a property, if `is_property`, or else in the
/// message.
///
/// None of them ends the command's line; none in a property ends its value. The only error is lack of memory.
pub fn push_escaped(line: &mut Vec<u8>, bytes: &[u8], is_property: bool) -> Result<(), AllocError>
    ensures { OnOk result (line.new.items ≡ line.old.items ++ escaped_bytes is_property bytes.now) }
{
    let mut rest = bytes;
    while !rest.is_empty() {
        rest = push_first(line, rest, is_property)?;
    }
    Ok(())
}

// Puts the first of some bytes after a line. Those after it are left.
#[tactic(auto, using(crate::proofs::Annotated::one_escaped))]
fn push_first<'b>(
    line: &mut Vec<u8>,
    bytes: &'b [u8],
    is_property: bool,
) -> Result<&'b [u8], AllocError>
    requires { 0 < length bytes.now }
    ensures put { IfOk result (λ rest. line.new.items ++ escaped_bytes is_property rest.now ≡ line.old.items ++ escaped_bytes is_property bytes.now) }
    ensures shorter { IfOk result (λ rest. length rest.now < length bytes.now) }
{
    match bytes {
        [first, rest @ ..] => {
            push_byte(line, *first, is_property)?;
            Ok(rest)
        }
        [] => Ok(bytes),
    }
}

fn push_byte(line: &mut Vec<u8>, byte: u8, is_property: bool) -> Result<(), AllocError>
    ensures { OnOk result (line.new.items ≡ line.old.items ++ escaped_byte is_property byte) }
{
    match escape_of(byte, is_property) {
        Some(escape) => line.extend_from_slice(escape.as_bytes()),
        None => line.extend_from_slice(&[byte]),
    }
}

// What stands for a byte that doesn't stand for itself.
fn escape_of(byte: u8, is_property: bool) -> Option<&'static str>
    ensures { option_map (λ escape. escape.now) result ≡ escape_of is_property byte }
{
    if is_property {
        property_escape(byte)
    } else {
        message_escape(byte)
    }
}

fn property_escape(byte: u8) -> Option<&'static str>
    ensures { option_map (λ escape. escape.now) result ≡ property_escape byte }
{
    match byte {
        b':' => Some("%3A"),
        b',' => Some("%2C"),
        _ => message_escape(byte),
    }
}

fn message_escape(byte: u8) -> Option<&'static str>
    ensures { option_map (λ escape. escape.now) result ≡ message_escape byte }
{
    match byte {
        b'%' => Some("%25"),
        b'\r' => Some("%0D"),
        b'\n' => Some("%0A"),
        _ => None,
    }
}
