//! Texts that a runner of builds takes for a command, where they begin a line that a step writes.
ghost use Rattle.std.specs.Prelude.{◌≡◌, ◌≤◌, length, string_bytes, IfOk};
ghost use Rattle.std.specs.List.{prefix_len};
ghost use Rattle.croncheck_output.specs.Builds.{is_taken_off, text_after_taken, begins_command, path_shown};

use crate::escaped::push_shown;
use crontab::bytes::{Kind, begins_with, is_of, rest_of};
use std::alloc::{AllocError, Global};

/// Whether a text begins with `::` or `##[`, as a command for a runner of builds does. Such a runner takes blanks in front away.
pub fn begins_command(text: &[u8]) -> bool
    ensures { result ≡ begins_command text.now }
{
    let rest = text_after_taken(text);
    begins_with(rest, b':') && begins_with(rest_of(rest), b':')
        || begins_with(rest, b'#')
            && begins_with(rest_of(rest), b'#')
            && begins_with(rest_of(rest_of(rest)), b'[')
}

/// The name of a file as it is shown, with `./` in front where it would be taken for a command at the beginning of a line. The only error
/// is lack of memory.
pub fn path_text(alloc: Global, name: &[u8]) -> Result<String, AllocError>
    ensures { IfOk result (λ text. string_bytes text ≡ path_shown name.now) }
{
    let mut text = String::new(alloc);
    if begins_command(name) {
        text.push_str("./")?;
    }
    push_shown(&mut text, name)?;
    Ok(text)
}

// What follows the bytes in front of a text that may be of blanks: spaces of ASCII, and bytes of other characters.
fn text_after_taken(text: &[u8]) -> &[u8]
    ensures { result.now ≡ text_after_taken text.now }
{
    text.split_at(taken_length(text)).1
}

fn taken_length(text: &[u8]) -> usize
    ensures count { result ≡ prefix_len is_taken_off text.now }
    ensures within { result ≤ length text.now }
{
    text.iter().take_while(|byte| is_taken_off(**byte)).count()
}

fn is_taken_off(byte: u8) -> bool
    ensures { result ≡ is_taken_off byte }
{
    is_of(Kind::Space, byte) || 128 <= byte
}
