//! Words of a call that are lines of a crontab, or fields of one.
ghost use Rattle.std.specs.Prelude.{◌≡◌, ◌==◌, not, length};
ghost use Rattle.std.specs.List.{list_all, list_any};
ghost use Rattle.croncheck_typed.specs.Line.{begins_as_path, is_blank, is_field, is_field_byte, is_zone_byte, begins_with_capital, may_be_line, may_be_zone};

/// Whether a word may be a line of a crontab: it has a blank or begins with `@`, and it doesn't begin as a path does.
pub fn may_be_line(word: &str) -> bool
    ensures { result ≡ may_be_line word.now }
{
    let bytes = word.as_bytes();
    !begins_as_path(bytes) && (bytes.starts_with("@".as_bytes()) || has_blank(bytes))
}

// Whether a text begins with `/`, `.` or `~`.
fn begins_as_path(text: &[u8]) -> bool
    ensures { result ≡ begins_as_path text.now }
{
    text.starts_with("/".as_bytes())
        || text.starts_with(".".as_bytes())
        || text.starts_with("~".as_bytes())
}

fn has_blank(text: &[u8]) -> bool
    ensures { result ≡ list_any is_blank text.now }
{
    text.iter().any(|byte| is_blank(*byte))
}

fn is_blank(byte: u8) -> bool
    ensures { result ≡ is_blank byte }
{
    byte == b' ' || byte == b'\t'
}

/// Whether a word may be a field of a pattern: it isn't empty, and has only ASCII letters, digits and `*`, `,`, `-`, `/`, `?`, `#`, `+`.
pub fn is_field(word: &str) -> bool
    ensures { result ≡ is_field word.now }
{
    has_bytes(word.as_bytes()) && are_of_field(word.as_bytes())
}

fn has_bytes(text: &[u8]) -> bool
    ensures { result ≡ not (length text.now == 0) }
{
    !text.is_empty()
}

fn are_of_field(text: &[u8]) -> bool
    ensures { result ≡ list_all is_field_byte text.now }
{
    text.iter().all(|byte| is_field_byte(*byte))
}

fn is_field_byte(byte: u8) -> bool
    ensures { result ≡ is_field_byte byte }
{
    byte.is_ascii_alphanumeric()
        || byte == b'*'
        || byte == b','
        || byte == b'-'
        || byte == b'/'
        || byte == b'?'
        || byte == b'#'
        || byte == b'+'
}

/// Whether a word may be the name of a zone with its region, such as `Europe/Paris`: it begins with an ASCII capital and has a `/`, and
/// only ASCII letters, digits and `_`, `+`, `-`, `/`.
pub fn may_be_zone(word: &str) -> bool
    ensures { result ≡ may_be_zone word.now }
{
    let bytes = word.as_bytes();
    begins_with_capital(bytes) && has_slash(bytes) && are_of_zone(bytes)
}

fn has_slash(text: &[u8]) -> bool
    ensures { result ≡ list_any (λ b. b == 47) text.now }
{
    text.iter().any(|byte| *byte == b'/')
}

fn are_of_zone(text: &[u8]) -> bool
    ensures { result ≡ list_all is_zone_byte text.now }
{
    text.iter().all(|byte| is_zone_byte(*byte))
}

fn begins_with_capital(text: &[u8]) -> bool
    ensures { result ≡ begins_with_capital text.now }
{
    match text {
        [first, ..] => first.is_ascii_uppercase(),
        [] => false,
    }
}

fn is_zone_byte(byte: u8) -> bool
    ensures { result ≡ is_zone_byte byte }
{
    byte.is_ascii_alphanumeric() || byte == b'_' || byte == b'+' || byte == b'-' || byte == b'/'
}
