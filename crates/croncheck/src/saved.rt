//! Files that are written whole or not at all.

use croncheck_files::folder::path_in;
use std::alloc::AllocError;
use std::fs::{File, Metadata, OpenOptions, Permissions};
use std::io::{ErrorKind, Write};
use std::os::unix::fs::{MetadataExt, OpenOptionsExt, fchown};
use std::path::Path;
use std::{fs, io};

/// What stands after the name of a file while it is written.
const PART: &str = ".part";

/// The mode of a file that isn't whole: its owner alone reads it.
const OWNER_ALONE: u32 = 0o600;

/// The mode of a new file, from which the process's mask takes bits away.
const USUAL_MODE: u32 = 0o666;

/// How many links are followed at most.
const MOST_LINKS: u32 = 40;

/// Writes bytes as a file. They are first written beside it, to a file with `.part` after its name, which then gets its name. So whoever
/// reads the file sees it as it was, or with all of the bytes. The file beside is made as one that its owner alone may read, and stays that
/// until it is whole. If the name is a link, the file that it leads to is written, also where that isn't there yet. A file that is there
/// keeps its mode, and its owner and its group where the process may give them. If it isn't a regular file, but a pipe, say, the bytes are
/// written to it directly.
///
/// An error leaves a regular file as it was; what isn't one may have got a part of the bytes. The error `AlreadyExists` says that the file
/// with `.part` is there: another call is writing it, or one was ended while it did.
pub fn save(rt: &HostRuntime, name: &str, bytes: &[u8]) -> io::Result<()> {
    match fs::metadata(rt, name) {
        Ok(found) if found.is_file() => replace(rt, name, &found, bytes),
        Ok(_) => fs::write(rt, name, bytes),
        Err(error) if error.kind() == ErrorKind::NotFound => {
            let path = end_of_links(rt, name)?;
            create(rt, path.as_str(), bytes)
        }
        Err(error) => Err(error),
    }
}

// Writes bytes in place of a file.
fn replace(rt: &HostRuntime, name: &str, found: &Metadata, bytes: &[u8]) -> io::Result<()> {
    let path = fs::canonicalize(rt, name)?;
    let part = part_of(rt, path.to_string_lossy())?;
    let mut file = begin(rt, part.as_str(), OWNER_ALONE)?;
    let done = match fill_as(&mut file, bytes, found) {
        Ok(()) => fs::rename(rt, part.as_str(), path.to_string_lossy()),
        Err(error) => Err(error),
    };
    keep_or_remove(rt, part.as_str(), done)
}

// Writes bytes to a new file, which gets the owner and the mode of another once it is whole.
fn fill_as(file: &mut File, bytes: &[u8], found: &Metadata) -> io::Result<()> {
    fill(file, bytes)?;
    give_owner(file, found);
    file.set_permissions(found.permissions())
}

// Gives a file the owner and the group of another, or the group alone, where the process may do that. It is the file that was opened, whatever
// has its name by now.
fn give_owner(file: &File, found: &Metadata) {
    if fchown(file, Some(found.uid()), Some(found.gid())).is_err() {
        let _ = fchown(file, None, Some(found.gid()));
    }
}

// Writes bytes as a file that isn't there yet.
fn create(rt: &HostRuntime, path: &str, bytes: &[u8]) -> io::Result<()> {
    let part = part_of(rt, path)?;
    let usual = usual_permissions(rt, part.as_str())?;
    let mut file = begin(rt, part.as_str(), OWNER_ALONE)?;
    let done = match fill_hidden(&mut file, bytes, usual) {
        Ok(()) => fs::rename(rt, part.as_str(), path),
        Err(error) => Err(error),
    };
    keep_or_remove(rt, part.as_str(), done)
}

// Who may read and write a new file of this name: those who may do so with an empty one, which is made and removed.
fn usual_permissions(rt: &HostRuntime, part: &str) -> io::Result<Permissions> {
    let found = begin(rt, part, USUAL_MODE)?.metadata();
    fs::remove_file(rt, part)?;
    Ok(found?.permissions())
}

// Writes bytes to a new file, whose permissions are set once it is whole.
fn fill_hidden(file: &mut File, bytes: &[u8], usual: Permissions) -> io::Result<()> {
    fill(file, bytes)?;
    file.set_permissions(usual)
}

// Writes bytes to a new file, all of them down to its device.
fn fill(file: &mut File, bytes: &[u8]) -> io::Result<()> {
    file.write_all(bytes)?;
    file.sync_all()
}

// A new file of a mode.
fn begin(rt: &HostRuntime, part: &str, mode: u32) -> io::Result<File> {
    let mut options = OpenOptions::new();
    options.write(true);
    options.create_new(true);
    options.mode(mode);
    options.open(rt, part)
}

// The name of the file that is written beside another.
fn part_of(rt: &HostRuntime, name: &str) -> io::Result<String> {
    let mut part = String::from_str(rt.alloc(), name)?;
    part.push_str(PART)?;
    Ok(part)
}

// The path to which a name leads, where each link leads to the next one.
fn end_of_links(rt: &HostRuntime, name: &str) -> io::Result<String> {
    let mut path = String::from_str(rt.alloc(), name)?;
    for _link in 0..MOST_LINKS {
        let Some(next) = path_of_link(rt, path.as_str())? else {
            return Ok(path);
        };
        path = next;
    }
    Ok(path)
}

// The path to which a link leads, if the path is that of a link.
fn path_of_link(rt: &HostRuntime, path: &str) -> io::Result<Option<String>> {
    match fs::read_link(rt, path) {
        Ok(target) => Ok(Some(beside(rt, path, target.as_path().to_string_lossy())?)),
        Err(_) => Ok(None),
    }
}

// The path of a name that stands in a link of this path.
fn beside(rt: &HostRuntime, link: &str, name: &str) -> Result<String, AllocError> {
    match Path::new(link).parent() {
        Some(folder) if !folder.as_str().is_empty() && !name.starts_with('/') => {
            path_in(rt.alloc(), folder.as_str(), name)
        }
        Some(_) | None => String::from_str(rt.alloc(), name),
    }
}

// The result of writing a file: if that failed, the file is removed.
fn keep_or_remove(rt: &HostRuntime, part: &str, done: io::Result<()>) -> io::Result<()> {
    if done.is_err() {
        let _ = fs::remove_file(rt, part);
    }
    done
}
