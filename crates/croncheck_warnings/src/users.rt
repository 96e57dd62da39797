//! The users of a machine, by the text of a file as /etc/passwd.
ghost use Rattle.std.specs.Prelude.{◌≡◌, [], length, option_map, unwrap_or};
ghost use Rattle.std.specs.List.{list_any, slice_split};
ghost use Rattle.croncheck_warnings.specs.Users.{is_line_of, has_user, begins_with_user, users_seen, is_unknown, user_end, user_start};

use crontab::bytes::{Kind, begins_with, cut};

/// The users of a machine that are known.
#[derive(Clone, Copy)]
pub struct Users<'t> {
    /// A line for each, which begins with the user's name and a colon.
    pub text: &'t [u8],
}

impl Users<'_> {
    /// Whether a user of this name is known.
    pub fn has(&self, name: &[u8]) -> bool
        ensures { result ≡ has_user self.now.text.now name.now }
    {
        has_user(self.text, name)
    }
}

// Whether a text as /etc/passwd has a user of this name.
fn has_user(text: &[u8], name: &[u8]) -> bool
    ensures { result ≡ has_user text.now name.now }
{
    text.split(|byte| *byte == b'\n')
        .any(|line| is_line_of(name, line))
}

// Whether a line is that of the user of this name.
fn is_line_of(name: &[u8], line: &[u8]) -> bool
    ensures { result ≡ is_line_of name.now line.now }
{
    let (front, after) = cut(line, Kind::But(b':'));
    front == name && begins_with(after, b':')
}

/// Whether a command begins with the name of a user who is known, and a path stands after it.
pub fn begins_with_user(users: Users<'_>, command: &[u8]) -> bool
    ensures { result ≡ begins_with_user users.entry.text.now command.now }
{
    let (name, rest) = cut(command, Kind::Word);
    let (_, path) = cut(rest, Kind::Blank);
    users.has(name) && begins_with(path, b'/')
}

/// Whether a job has a user that isn't known: users are known, the file names a user for the job,
/// and that is none of them.
pub fn is_unknown(users: Option<Users<'_>>, user: Option<&[u8]>) -> bool
    ensures { result ≡ is_unknown (users_seen users.entry) (option_map (λ u. u.now) user.entry) }
{
    match (users, user) {
        (Some(users), Some(name)) => !users.has(name),
        (None, _) | (Some(_), None) => false,
    }
}

/// Where the user's name ends in the line of a job with this command: the number of the byte after
/// its last one, counted from 0.
pub fn user_end(line: &[u8], command: &[u8]) -> usize
    ensures { result ≡ user_end line.now command.now }
{
    line.len().saturating_sub(command.len()).saturating_sub(1)
}

/// Where the name of this user begins in the line of a job with this command: the number of its
/// first byte, counted from 0.
pub fn user_start(line: &[u8], command: &[u8], user: Option<&[u8]>) -> usize
    ensures { result ≡ user_start line.now command.now (option_map (λ u. u.now) user.entry) }
{
    user_end(line, command).saturating_sub(length_of(user))
}

fn length_of(user: Option<&[u8]>) -> usize
    ensures { result ≡ length (unwrap_or (option_map (λ u. u.now) user.entry) []) }
{
    match user {
        Some(name) => name.len(),
        None => 0,
    }
}
