//! Lines that set a variable.
ghost use Rattle.std.specs.Prelude.{◌≡◌, ◌==◌, ◌≤◌, length, take, option_map};
ghost use Rattle.std.specs.List.{list_any, slice_split};
ghost use Rattle.crontab.specs.Bytes.{is_blank, begins_with};
ghost use Rattle.crontab.specs.Setting.{setting_length, has, text_after_quoted, text_after_name, is_value, is_assigned, is_setting, setting_name, sets_zone, value_text, setting_value, is_quoted, without_quote, begins_home, has_home, has_comment, is_to_expand, is_not_expanded};

use crate::bytes::{Kind, begins_with, cut, is_blank, is_quote, rest_of};

/// How many bytes of a line cron looks at.
const SETTING_LENGTH: usize = 998;

/// Whether the text of a line, from its first byte that is no blank on, sets a variable.
pub fn is_setting(text: &[u8]) -> bool
    ensures { result ≡ is_setting text.now }
{
    is_assigned(text_after_name(start_of(text)))
}

/// Whether a setting's variable is `CRON_TZ` or `TZ`.
pub fn sets_zone(text: &[u8]) -> bool
    ensures { result ≡ sets_zone text.now }
{
    let name = setting_name(start_of(text));
    name == "CRON_TZ".as_bytes() || name == "TZ".as_bytes()
}

/// The name that a setting begins with, without its quotes.
pub fn setting_name(text: &[u8]) -> &[u8]
    ensures { result.now ≡ setting_name text.now }
{
    match text {
        [] => text,
        [first, rest @ ..] => {
            if is_quote(*first) {
                let (name, _) = cut(rest, Kind::But(*first));
                name
            } else {
                let (name, _) = cut(text, Kind::Name);
                name
            }
        }
    }
}

/// The bytes of a line at which cron looks for a setting.
pub fn start_of(text: &[u8]) -> &[u8]
    ensures { result.now ≡ take setting_length text.now }
{
    if text.len() <= SETTING_LENGTH {
        return text;
    }
    let (start, _) = text.split_at(SETTING_LENGTH);
    start
}

/// Whether a text has this byte.
pub fn has(text: &[u8], byte: u8) -> bool
    ensures { result ≡ has byte text.now }
{
    let (_, after) = cut(text, Kind::But(byte));
    0 < after.len()
}

// What follows a name in quotes, given without the first quote.
fn text_after_quoted(text: &[u8], quote: u8) -> Option<&[u8]>
    ensures { option_map (λ t. t.now) result ≡ text_after_quoted quote text.now }
{
    let (name, after) = cut(text, Kind::But(quote));
    if has(text, quote) && !has(name, b'=') {
        Some(rest_of(after))
    } else {
        None
    }
}

// What follows the name.
fn text_after_name(text: &[u8]) -> Option<&[u8]>
    ensures { option_map (λ t. t.now) result ≡ text_after_name text.now }
{
    match text {
        [] => None,
        [first, rest @ ..] => {
            if is_quote(*first) {
                text_after_quoted(rest, *first)
            } else {
                let (_, after) = cut(text, Kind::Name);
                Some(after)
            }
        }
    }
}

fn is_value(text: &[u8]) -> bool
    ensures { result ≡ is_value text.now }
{
    match text {
        [] => false,
        [first, rest @ ..] => {
            if is_quote(*first) {
                let (_, after) = cut(rest, Kind::But(*first));
                let (_, more) = cut(rest_of(after), Kind::Space);
                has(rest, *first) && more.is_empty()
            } else {
                true
            }
        }
    }
}

fn is_assigned(after: Option<&[u8]>) -> bool
    ensures { result ≡ is_assigned (option_map (λ t. t.now) after.entry) }
{
    match after {
        None => false,
        Some(text) => {
            let (_, sign) = cut(text, Kind::Space);
            let (_, value) = cut(rest_of(sign), Kind::Space);
            begins_with(sign, b'=') && is_value(value)
        }
    }
}

// What follows the name, `=` and the spaces around it.
fn value_text(after: Option<&[u8]>) -> &[u8]
    ensures { result.now ≡ value_text (option_map (λ t. t.now) after.entry) }
{
    match after {
        None => "".as_bytes(),
        Some(text) => {
            let (_, sign) = cut(text, Kind::Space);
            let (_, value) = cut(rest_of(sign), Kind::Space);
            value
        }
    }
}

/// A setting's value, with its quotes.
pub fn setting_value(text: &[u8]) -> &[u8]
    ensures { result.now ≡ setting_value text.now }
{
    value_text(text_after_name(start_of(text)))
}

fn is_quoted(value: &[u8]) -> bool
    ensures { result ≡ is_quoted value.now }
{
    match value {
        [] => false,
        [first, ..] => is_quote(*first),
    }
}

// A value without the quote in front of it.
fn without_quote(value: &[u8]) -> &[u8]
    ensures { result.now ≡ without_quote value.now }
{
    if is_quoted(value) {
        rest_of(value)
    } else {
        value
    }
}

fn begins_home(text: &[u8]) -> bool
    ensures { result ≡ begins_home text.now }
{
    begins_with(text, b'~') && begins_with(rest_of(text), b'/')
}

// Whether `~/` comes at the beginning of a text, or after a colon.
fn has_home(text: &[u8]) -> bool
    ensures { result ≡ has_home text.now }
{
    text.split(|byte| *byte == b':')
        .any(|piece| begins_home(piece))
}

// Whether a word of a text begins with `#`.
fn any_hash(text: &[u8]) -> bool
    ensures { result ≡ list_any (begins_with 35) (slice_split is_blank text.now) }
{
    text.split(|byte| is_blank(*byte))
        .any(|piece| begins_with(piece, b'#'))
}

// Whether `#` comes after a blank in a text.
fn has_comment(text: &[u8]) -> bool
    ensures { result ≡ has_comment text.now }
{
    let (_, rest) = cut(text, Kind::Word);
    any_hash(rest)
}

fn is_to_expand(value: &[u8]) -> bool
    ensures { result ≡ is_to_expand value.now }
{
    has(value, b'$') || has_home(without_quote(value)) || !is_quoted(value) && has_comment(value)
}

/// Whether a setting's value has a `$`, a `~/` at its beginning or after a colon, or a blank and `#` outside quotes.
/// Cron expands nothing, and takes a comment for a part of the value.
pub fn is_not_expanded(text: &[u8]) -> bool
    ensures { result ≡ is_not_expanded text.now }
{
    is_to_expand(setting_value(text))
}
