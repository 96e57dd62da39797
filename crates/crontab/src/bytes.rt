//! The bytes of a line, and how cron cuts it.
ghost use Rattle.std.specs.Prelude.{◌≡◌, ◌≤◌, ◌+◌, length};
ghost use Rattle.std.specs.List.{prefix_len, suffix_len};
ghost use Rattle.crontab.specs.Bytes.{is_blank, is_space, is_quote, is_digit, is_alphanumeric, is_of, front, text_after, begins_with, rest_of, text_before, trim_end};

/// A kind of byte. A text is cut where a run of one kind ends.
#[derive(Clone, Copy)]
pub enum Kind {
    /// A space or a tab: what separates fields.
    Blank,
    /// Anything but a blank.
    Word,
    /// What C calls a space.
    Space,
    /// A letter or a digit of ASCII.
    Alphanumeric,
    /// A byte of a name without quotes: anything but a space and `=`.
    Name,
    /// Every byte but this one.
    But(u8),
}

pub(crate) fn is_blank(byte: u8) -> bool
    ensures { result ≡ is_blank byte }
{
    byte == b' ' || byte == b'\t'
}

fn is_space(byte: u8) -> bool
    ensures { result ≡ is_space byte }
{
    byte == b' ' || (9 <= byte && byte <= 13)
}

/// Whether a byte is a quote, double or single.
pub fn is_quote(byte: u8) -> bool
    ensures { result ≡ is_quote byte }
{
    byte == b'"' || byte == b'\''
}

/// Whether a byte is a digit of ASCII.
pub fn is_digit(byte: u8) -> bool
    ensures { result ≡ is_digit byte }
{
    b'0' <= byte && byte <= b'9'
}

fn is_alphanumeric(byte: u8) -> bool
    ensures { result ≡ is_alphanumeric byte }
{
    is_digit(byte) || (b'A' <= byte && byte <= b'Z') || (b'a' <= byte && byte <= b'z')
}

/// Whether a byte is of a kind.
pub fn is_of(kind: Kind, byte: u8) -> bool
    ensures { result ≡ is_of kind byte }
{
    match kind {
        Kind::Blank => is_blank(byte),
        Kind::Word => !is_blank(byte),
        Kind::Space => is_space(byte),
        Kind::Alphanumeric => is_alphanumeric(byte),
        Kind::Name => !(is_space(byte) || byte == b'='),
        Kind::But(other) => byte != other,
    }
}

fn front_len(text: &[u8], kind: Kind) -> usize
    ensures len { result ≡ prefix_len (is_of kind) text.now }
    ensures within { result ≤ length text.now }
{
    text.iter().take_while(|byte| is_of(kind, **byte)).count()
}

/// The bytes of a kind that a text begins with, and what follows them.
pub fn cut(text: &[u8], kind: Kind) -> (&[u8], &[u8])
    ensures front { result.0.now ≡ front kind text.now }
    ensures after { result.1.now ≡ text_after kind text.now }
    ensures lengths { length result.0.now + length result.1.now ≡ length text.now }
{
    text.split_at(front_len(text, kind))
}

/// Whether a text begins with this byte.
pub fn begins_with(text: &[u8], byte: u8) -> bool
    ensures { result ≡ begins_with byte text.now }
{
    match text {
        [first, ..] => *first == byte,
        [] => false,
    }
}

/// The text without its first byte. An empty text stays empty.
pub fn rest_of(text: &[u8]) -> &[u8]
    ensures { result.now ≡ rest_of text.now }
{
    match text {
        [_, rest @ ..] => rest,
        [] => text,
    }
}

/// The text up to its end `after`: without as many of its last bytes as `after` has, and empty where `after` is
/// longer.
pub fn text_before<'l>(text: &'l [u8], after: &[u8]) -> &'l [u8]
    ensures { result.now ≡ text_before text.now after.now }
{
    let (front, _) = text.split_at(text.len().saturating_sub(after.len()));
    front
}

fn back_len(text: &[u8]) -> usize
    ensures len { result ≡ suffix_len is_space text.now }
    ensures within { result ≤ length text.now }
{
    text.iter()
        .rev()
        .take_while(|byte| is_space(**byte))
        .count()
}

/// The text without what C calls spaces at its end.
pub fn trim_end(text: &[u8]) -> &[u8]
    ensures { result.now ≡ trim_end text.now }
{
    let (front, _) = text.split_at(text.len() - back_len(text));
    front
}
