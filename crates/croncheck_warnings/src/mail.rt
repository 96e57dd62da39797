//! Settings of `MAILTO` for which cron sends no mail.
ghost use Rattle.std.specs.Prelude.{◌≡◌, ◌-◌, length, take};
ghost use Rattle.std.specs.Io.BufRead.{ends_with_byte};
ghost use Rattle.std.specs.List.{list_all};
ghost use Rattle.croncheck_warnings.specs.Mail.{is_address_sign, is_address_byte, is_address, without_quotes, without_pair, value_seen, is_no_address, names_no_address};

use crontab::bytes::{Kind, cut, is_of, is_quote, trim_end};
use crontab::setting::{setting_name, setting_value, start_of};

/// The signs that an address may have after its first byte.
const ADDRESS_SIGNS: &str = "@!:%-.,_+=/";

/// Whether a setting, given from its first byte that is no blank on, is of `MAILTO`, and its value is neither empty nor an address to which
/// cron sends mail.
pub fn names_no_address(text: &[u8]) -> bool
    ensures { result ≡ names_no_address text.now }
{
    setting_name(start_of(text)) == "MAILTO".as_bytes() && is_no_address(setting_value(text))
}

// Whether cron sends no mail where this is the value, although it isn't empty.
fn is_no_address(value: &[u8]) -> bool
    ensures { result ≡ is_no_address value.now }
{
    let value = value_seen(value);
    !value.is_empty() && !is_address(value)
}

// A value as the commands see it.
fn value_seen(value: &[u8]) -> &[u8]
    ensures { result.now ≡ value_seen value.now }
{
    without_pair(trim_end(without_quotes(value)))
}

// A text without a quote in front and the same quote at its end, where it has both.
fn without_pair(text: &[u8]) -> &[u8]
    ensures { result.now ≡ without_pair text.now }
{
    match text {
        [] => text,
        [first, rest @ ..] => {
            if is_quote(*first) && ends_with_byte(*first, rest) {
                without_last(rest)
            } else {
                text
            }
        }
    }
}

fn ends_with_byte(byte: u8, text: &[u8]) -> bool
    ensures { result ≡ ends_with_byte byte text.now }
{
    let last = text.len().saturating_sub(1);
    let (_, end) = text.split_at(last);
    match end {
        [found] => *found == byte,
        _ => false,
    }
}

fn without_last(text: &[u8]) -> &[u8]
    ensures { result.now ≡ take (length text.now - 1) text.now }
{
    let (front, _) = text.split_at(text.len().saturating_sub(1));
    front
}

fn without_quotes(value: &[u8]) -> &[u8]
    ensures { result.now ≡ without_quotes value.now }
{
    match value {
        [] => value,
        [first, rest @ ..] => {
            if is_quote(*first) {
                let (content, _) = cut(rest, Kind::But(*first));
                content
            } else {
                value
            }
        }
    }
}

fn is_address(text: &[u8]) -> bool
    ensures { result ≡ is_address text.now }
{
    match text {
        [] => false,
        [first, rest @ ..] => is_of(Kind::Alphanumeric, *first) && are_address_bytes(rest),
    }
}

fn are_address_bytes(text: &[u8]) -> bool
    ensures { result ≡ list_all is_address_byte text.now }
{
    text.iter().all(|byte| is_address_byte(*byte))
}

fn is_address_byte(byte: u8) -> bool
    ensures { result ≡ is_address_byte byte }
{
    is_of(Kind::Alphanumeric, byte) || is_address_sign(byte)
}

fn is_address_sign(byte: u8) -> bool
    ensures { result ≡ is_address_sign byte }
{
    ADDRESS_SIGNS.as_bytes().iter().any(|sign| *sign == byte)
}
