//! Whether the file of `--output` is one that the call reads.

use crate::telling::Named;
use croncheck_command::words::Call;
use croncheck_files::folder::path_in;
use croncheck_files::names::STANDARD_INPUT;
use croncheck_reading::files::Sources;
use std::alloc::AllocError;
use std::fs;
use std::fs::Metadata;
use std::os::unix::fs::MetadataExt;

/// The path of standard input.
const INPUT_PATH: &str = "/dev/stdin";

/// Whether a file of this name is there, and is one of those that the call reads: one of the same device and inode. The only error is lack of
/// memory.
pub fn replaces_source(
    rt: &HostRuntime,
    call: &Call<'_>,
    sources: Named<'_>,
    name: &str,
) -> Result<bool, AllocError> {
    let Ok(file) = fs::metadata(rt, name) else {
        return Ok(false);
    };
    if !file.is_file() {
        return Ok(false);
    }
    if is_named(rt, call.users, &file) {
        return Ok(true);
    }
    is_source(rt, sources, &file)
}

// Whether a file is one of the sources.
fn is_source(rt: &HostRuntime, sources: Named<'_>, file: &Metadata) -> Result<bool, AllocError> {
    for source in sources.files {
        if is_in(rt, sources, source.word, file)? {
            return Ok(true);
        }
    }
    Ok(false)
}

// Whether a file has this name, or is in a folder of this name.
fn is_in(
    rt: &HostRuntime,
    sources: Named<'_>,
    word: &str,
    file: &Metadata,
) -> Result<bool, AllocError> {
    if word == STANDARD_INPUT {
        return Ok(is_same(rt, INPUT_PATH, file));
    }
    if !sources.machine.is_folder(word) {
        return Ok(is_same(rt, word, file));
    }
    let Ok(names) = sources.machine.names(word) else {
        return Ok(false);
    };
    for name in names.as_slice() {
        let path = path_in(rt.alloc(), word, name.as_str())?;
        if is_same(rt, path.as_str(), file) {
            return Ok(true);
        }
    }
    Ok(false)
}

fn is_named(rt: &HostRuntime, name: Option<&str>, file: &Metadata) -> bool {
    match name {
        Some(name) => is_same(rt, name, file),
        None => false,
    }
}

fn is_same(rt: &HostRuntime, path: &str, file: &Metadata) -> bool {
    match fs::metadata(rt, path) {
        Ok(found) => found.dev() == file.dev() && found.ino() == file.ino(),
        Err(_) => false,
    }
}
