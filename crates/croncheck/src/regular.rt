//! Files that a call finds by itself, and reads whole.
ghost use Rattle.std.specs.Prelude.{◌≤◌, IfOk, IfSome, length};

use std::fs::File;
use std::io::{ErrorKind, Read};
use std::{fs, io};

/// The most bytes of a file that a call finds by itself: 64 MB.
const MOST_BYTES: u64 = 64_000_000;

/// What is said of a file that has more.
const TOO_LARGE: &str = "it has more than 64 MB, and isn't read";

/// The bytes of a file that the call doesn't name, such as one in a folder that it names. `None`: it is a pipe, a socket or a device, on
/// which a read could wait, or could never end; it isn't opened. The error says why a file isn't read: it has more than 64 MB, say.
pub fn bytes_of(rt: &HostRuntime, path: &str) -> io::Result<Option<Vec<u8>>>
    ensures { IfOk result (λ found. IfSome found (λ bytes. length bytes.items ≤ 64000000)) }
{
    if is_waited_for(rt, path) {
        return Ok(None);
    }
    let mut bytes = Vec::new(rt.alloc());
    let mut file = File::open(rt, path)?.take(MOST_BYTES + 1);
    file.read_to_end(&mut bytes)?;
    if bytes.len() as u64 > MOST_BYTES {
        return Err(io::Error::new(ErrorKind::FileTooLarge, TOO_LARGE));
    }
    Ok(Some(bytes))
}

// Whether a name is that of a pipe, a socket or a device, or of a link to one.
fn is_waited_for(rt: &HostRuntime, path: &str) -> bool {
    match fs::metadata(rt, path) {
        Ok(found) => !found.is_file() && !found.is_dir(),
        Err(_) => false,
    }
}
