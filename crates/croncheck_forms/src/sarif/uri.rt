//! The names of files as URIs.
ghost use Rattle.std.specs.Prelude.{◌≡◌, ◌++◌, ◌∷◌, ◌<◌, ◌/◌, ◌%◌, [], length, IfOk, OnOk, string_bytes};
ghost use Rattle.croncheck_forms.specs.Sarif.{is_uri_byte, hex_digit, uri_byte, uri_of};

use std::alloc::{AllocError, Global};

/// The name of a file as a relative URI. A byte other than a letter, a digit, one of `-._~` or a slash stands by its
/// value, as `%20`.
///
/// The only error is lack of memory.
pub fn uri_of(alloc: Global, name: &str) -> Result<String, AllocError>
    ensures { IfOk result (λ uri. string_bytes uri ≡ uri_of name.now) }
{
    let mut uri = String::new(alloc);
    push_uri(&mut uri, name.as_bytes())?;
    Ok(uri)
}

fn push_uri(uri: &mut String, name: &[u8]) -> Result<(), AllocError>
    ensures { OnOk result (string_bytes uri.new ≡ string_bytes uri.old ++ uri_of name.now) }
{
    let mut rest = name;
    while !rest.is_empty() {
        rest = push_first(uri, rest)?;
    }
    Ok(())
}

// Puts the first of some bytes after a URI. Those after it are left.
#[tactic(auto, using(crate::proofs::Sarifs::one_in_uri))]
fn push_first<'b>(uri: &mut String, bytes: &'b [u8]) -> Result<&'b [u8], AllocError>
    requires { 0 < length bytes.now }
    ensures put { IfOk result (λ rest. string_bytes uri.new ++ uri_of rest.now ≡ string_bytes uri.old ++ uri_of bytes.now) }
    ensures shorter { IfOk result (λ rest. length rest.now < length bytes.now) }
{
    match bytes {
        [first, rest @ ..] => {
            push_byte(uri, *first)?;
            Ok(rest)
        }
        [] => Ok(bytes),
    }
}

fn push_byte(uri: &mut String, byte: u8) -> Result<(), AllocError>
    ensures { OnOk result (string_bytes uri.new ≡ string_bytes uri.old ++ uri_byte byte) }
{
    if is_uri_byte(byte) {
        push_ascii(uri, byte)
    } else {
        push_escape(uri, byte)
    }
}

// A byte of ASCII.
fn push_ascii(uri: &mut String, byte: u8) -> Result<(), AllocError>
    requires { byte < 128 }
    ensures { OnOk result (string_bytes uri.new ≡ string_bytes uri.old ++ byte ∷ []) }
{
    uri.push(char::from(byte))
}

fn push_escape(uri: &mut String, byte: u8) -> Result<(), AllocError>
    ensures { OnOk result (string_bytes uri.new ≡ string_bytes uri.old ++ 37 ∷ hex_digit (byte / 16) ∷ hex_digit (byte % 16) ∷ []) }
{
    uri.push('%')?;
    push_ascii(uri, hex_digit(byte / 16))?;
    push_ascii(uri, hex_digit(byte % 16))
}

// Whether a byte stands for itself.
fn is_uri_byte(byte: u8) -> bool
    ensures { result ≡ is_uri_byte byte }
{
    byte.is_ascii_alphanumeric()
        || byte == b'-'
        || byte == b'.'
        || byte == b'_'
        || byte == b'~'
        || byte == b'/'
}

// The sign of a value below 16.
fn hex_digit(value: u8) -> u8
    requires { value < 16 }
    ensures value { result ≡ hex_digit value }
    ensures ascii { result < 128 }
{
    if value < 10 { 48 + value } else { 55 + value }
}
