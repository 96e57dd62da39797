//! The crontabs in a folder and in those below it.

use crate::sorted::Source;
use croncheck_files::folder::path_in;
use croncheck_files::names::Asked;
use std::path::Path;
use std::{fs, io};

/// How deep folders are entered at most.
const MOST_DEEP: u32 = 64;

/// Puts what is found in a folder to some files, in the order of the paths: crontabs, and folders of crontabs. The error is that of a folder that
/// can't be listed, or says that memory is lacking.
pub fn push_found(rt: &HostRuntime, folder: Asked<'_>, files: &mut Vec<Source>) -> io::Result<()> {
    let mut paths = paths_below(rt, folder.word)?;
    paths.sort()?;
    for path in paths.as_slice() {
        let (word, name) = (path.as_str(), path.as_str());
        files.push(Source::of(
            rt,
            Asked {
                word,
                name,
                ..folder
            },
        )?)?;
    }
    Ok(())
}

/// Whether a name is that of a folder.
pub fn is_folder(rt: &HostRuntime, name: &str) -> bool {
    match fs::metadata(rt, name) {
        Ok(found) => found.is_dir(),
        Err(_) => false,
    }
}

fn paths_below(rt: &HostRuntime, folder: &str) -> io::Result<Vec<String>> {
    let mut paths = Vec::new(rt.alloc());
    let mut folders = Vec::new(rt.alloc());
    sort_folder(
        String::from_str(rt.alloc(), folder)?,
        &mut folders,
        &mut paths,
    )?;
    for _depth in 0..MOST_DEEP {
        folders = folders_below(rt, folders.as_slice(), &mut paths)?;
    }
    Ok(paths)
}

// The folders in some folders; the crontabs in these are put to the paths.
fn folders_below(
    rt: &HostRuntime,
    folders: &[String],
    paths: &mut Vec<String>,
) -> io::Result<Vec<String>> {
    let mut below = Vec::new(rt.alloc());
    for folder in folders {
        sort_entries(rt, folder.as_str(), &mut below, paths)?;
    }
    Ok(below)
}

fn sort_entries(
    rt: &HostRuntime,
    folder: &str,
    below: &mut Vec<String>,
    paths: &mut Vec<String>,
) -> io::Result<()> {
    for entry in fs::read_dir(rt, folder)? {
        let path = path_in(rt.alloc(), folder, entry?.file_name())?;
        sort_entry(rt, path, below, paths)?;
    }
    Ok(())
}

// Puts an entry of a folder where it belongs. A link to a folder isn't entered.
fn sort_entry(
    rt: &HostRuntime,
    path: String,
    below: &mut Vec<String>,
    paths: &mut Vec<String>,
) -> io::Result<()> {
    if fs::symlink_metadata(rt, path.as_str())?.is_dir() {
        return sort_folder(path, below, paths);
    }
    if is_named_as_crontab(name_of(path.as_str())) {
        paths.push(path)?;
    }
    Ok(())
}

// A folder cron.d is read as a whole. What git and npm keep isn't entered.
fn sort_folder(path: String, below: &mut Vec<String>, paths: &mut Vec<String>) -> io::Result<()> {
    match name_of(path.as_str()) {
        "cron.d" => paths.push(path)?,
        ".git" | "node_modules" => {}
        _ => below.push(path)?,
    }
    Ok(())
}

fn name_of(path: &str) -> &str {
    Path::new(path).file_name().unwrap_or("")
}

// Whether a file is taken for a crontab by its name.
fn is_named_as_crontab(name: &str) -> bool {
    name == "crontab"
        || name.starts_with("crontab.")
        || name.ends_with(".cron")
        || name.ends_with(".crontab")
}
