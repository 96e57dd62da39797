//! What a command shows by its bytes.
ghost use Rattle.std.specs.Prelude.{◌≡◌, ◌==◌, fold};
ghost use Rattle.std.specs.List.{suffix_len};
ghost use Rattle.croncheck_warnings.specs.Warnings.{has_no_command, looks_like_field, is_no_user_sign, has_no_user_sign, begins_with_root, met_next, is_percent, has_percent, is_continued, has_carriage_return};

use crontab::bytes::{Kind, begins_with, cut};
use crontab::line::word;
use crontab::notes::looks_like_weekdays;

/// Whether a command is spaces alone, or begins with `#` after blanks.
pub fn has_no_command(command: &[u8]) -> bool
    ensures { result ≡ has_no_command command.now }
{
    let (_, left) = cut(command, Kind::Space);
    let (_, text) = cut(command, Kind::Blank);
    left.is_empty() || begins_with(text, b'#')
}

/// Whether a text begins with a word that may be a field of weekdays, and not as a comment does.
pub fn looks_like_field(text: &[u8]) -> bool
    ensures { result ≡ looks_like_field text.now }
{
    let (word, _) = word(text);
    !word.is_empty() && !begins_with(text, b'#') && looks_like_weekdays(word)
}

fn is_no_user_sign(byte: u8) -> bool
    ensures { result ≡ is_no_user_sign byte }
{
    byte == b'/' || byte == b'=' || byte == b'$' || byte == b'*' || byte == b','
}

/// Whether a word has a character that no user's name has.
pub fn has_no_user_sign(name: &[u8]) -> bool
    ensures { result ≡ has_no_user_sign name.now }
{
    name.iter().any(|byte| is_no_user_sign(*byte))
}

/// Whether a command begins with `root` and a blank.
pub fn begins_with_root(command: &[u8]) -> bool
    ensures { result ≡ begins_with_root command.now }
{
    let (name, after) = cut(command, Kind::Word);
    name == "root".as_bytes() && !after.is_empty()
}

/// What was met of a command so far.
#[derive(Clone, Copy)]
enum Met {
    Plain,
    /// A backslash, which escapes the byte after it.
    Backslash,
    /// A percent sign that no backslash escapes.
    Percent,
}

fn met_next(met: Met, byte: u8) -> Met
    ensures { result ≡ met_next met byte }
{
    match met {
        Met::Plain if byte == b'\\' => Met::Backslash,
        Met::Plain if byte == b'%' => Met::Percent,
        Met::Plain | Met::Backslash => Met::Plain,
        Met::Percent => Met::Percent,
    }
}

fn met_in(command: &[u8]) -> Met
    ensures { result ≡ fold met_next Met.Plain command.now }
{
    command
        .iter()
        .fold(Met::Plain, |met, byte| met_next(met, *byte))
}

/// Whether a command has a percent sign that no backslash escapes.
pub fn has_percent(command: &[u8]) -> bool
    ensures { result ≡ has_percent command.now }
{
    match met_in(command) {
        Met::Percent => true,
        Met::Plain | Met::Backslash => false,
    }
}

// How many backslashes a command ends with.
fn backslashes_at_end(command: &[u8]) -> usize
    ensures { result ≡ suffix_len (λ b. b == 92) command.now }
{
    command
        .iter()
        .rev()
        .take_while(|byte| **byte == b'\\')
        .count()
}

/// Whether a command ends in a backslash that no other backslash escapes.
pub fn is_continued(command: &[u8]) -> bool
    ensures { result ≡ is_continued command.now }
{
    backslashes_at_end(command) % 2 == 1
}

/// Whether a command ends with a carriage return.
pub fn has_carriage_return(command: &[u8]) -> bool
    ensures { result ≡ has_carriage_return command.now }
{
    let last = command.len().saturating_sub(1);
    let (_, end) = command.split_at(last);
    match end {
        [b'\r'] => true,
        _ => false,
    }
}
