//! Names of users, as forms without commands show them.
ghost use Rattle.std.specs.Prelude.{◌≡◌, option_map};
ghost use Rattle.std.specs.List.{list_all};
ghost use Rattle.croncheck_output.specs.User.{is_of_length, is_user_byte, is_user_name, user_shown};

use crontab::bytes::{Kind, begins_with, is_of};

/// The longest name of a user: useradd(8) takes no longer one.
const NAME_LENGTH: usize = 32;

/// The user of a line, if the word there may be the name of one. `None` for any other word: where the name of the user is missing, it is
/// the beginning of the command, which may hold a password.
pub fn user_shown(user: Option<&[u8]>) -> Option<&[u8]>
    ensures { option_map (λ u. u.now) result ≡ user_shown (option_map (λ u. u.now) user.entry) }
{
    match user {
        Some(name) if is_user_name(name) => user,
        Some(_) | None => None,
    }
}

// Whether a word may be the name of a user.
fn is_user_name(word: &[u8]) -> bool
    ensures { result ≡ is_user_name word.now }
{
    is_of_length(word) && !begins_with(word, b'-') && has_user_bytes(word)
}

fn is_of_length(word: &[u8]) -> bool
    ensures { result ≡ is_of_length word.now }
{
    !word.is_empty() && word.len() <= NAME_LENGTH
}

fn has_user_bytes(word: &[u8]) -> bool
    ensures { result ≡ list_all is_user_byte word.now }
{
    word.iter().all(|byte| is_user_byte(*byte))
}

fn is_user_byte(byte: u8) -> bool
    ensures { result ≡ is_user_byte byte }
{
    is_of(Kind::Alphanumeric, byte)
        || byte == b'_'
        || byte == b'-'
        || byte == b'.'
        || byte == b'@'
        || byte == b'\\'
}
