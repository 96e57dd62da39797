//! Bytes that hide what stands in a line, or turn its order, where it is shown.
ghost use Rattle.std.specs.Prelude.{◌≡◌};
ghost use Rattle.croncheck_warnings.specs.Hidden.{is_control, is_hiding, begins_hiding, begins_hidden, has_hidden, without_return, has_hidden_within};

use super::command::has_carriage_return;
use crontab::bytes::rest_of;

/// The first byte in UTF-8 of the characters that nobody sees or that turn the order.
const FIRST: u8 = 0xe2;

fn is_control(byte: u8) -> bool
    ensures { result ≡ is_control byte }
{
    byte < 32 && byte != b'\t' || byte == 127
}

// Whether two bytes after the first make one of these characters.
fn is_hiding(a: u8, b: u8) -> bool
    ensures { result ≡ is_hiding a b }
{
    a == 0x80 && (b == 0x8b || 0xaa <= b && b <= 0xae) || a == 0x81 && 0xa6 <= b && b <= 0xa9
}

fn begins_hiding(text: &[u8]) -> bool
    ensures { result ≡ begins_hiding text.now }
{
    match text {
        [a, b, ..] => is_hiding(*a, *b),
        _ => false,
    }
}

fn begins_hidden(text: &[u8]) -> bool
    ensures { result ≡ begins_hidden text.now }
{
    match text {
        [] => false,
        [first, rest @ ..] => is_control(*first) || *first == FIRST && begins_hiding(rest),
    }
}

/// Whether a text has a control byte but the tab, or one of the characters U+200B, U+202A to U+202E and U+2066 to U+2069.
pub fn has_hidden(text: &[u8]) -> bool
    ensures { result ≡ has_hidden text.now }
{
    let mut rest = text;
    while !rest.is_empty() {
        if begins_hidden(rest) {
            return true;
        }
        rest = rest_of(rest);
    }
    false
}

fn without_return(text: &[u8]) -> &[u8]
    ensures { result.now ≡ without_return text.now }
{
    if !has_carriage_return(text) {
        return text;
    }
    let (front, _) = text.split_at(text.len().saturating_sub(1));
    front
}

/// The same as `has_hidden`, but that a carriage return at the end of the text doesn't count.
pub fn has_hidden_within(text: &[u8]) -> bool
    ensures { result ≡ has_hidden_within text.now }
{
    has_hidden(without_return(text))
}
