//! What is read of a folder: cron's rules for the names in /etc/cron.d.
ghost use Rattle.std.specs.Prelude.{◌≡◌, drop, option_map, IfOk, string_bytes};
ghost use Rattle.std.specs.Char.{is_ascii_alphanumeric};
ghost use Rattle.std.specs.List.{list_all};
ghost use Rattle.std.specs.Path.{path_bytes};
ghost use Rattle.croncheck_files.specs.Folder.{is_left_out, is_leftover, is_unfinished, is_silent, is_name_byte, is_name_of_cron, is_told_as_misnamed, is_misnamed, is_scripts, is_named_otherwise, is_no_crontab, is_passed_over, sort_of, treatment_of, path_in};
ghost use Rattle.croncheck_files.specs.Names.{asked_seen};

use crate::names::{Asked, folder_name, is_installed, is_text};
use crontab::line::Dialect;
use std::alloc::{AllocError, Global};
use std::path::Path;

/// What a file that a call asks for turns out to be.
#[derive(Clone, Copy, Drop)]
pub enum Sort {
    /// It is no crontab, but another of cron's files.
    NoCrontab,
    /// It is a folder, whose files are read.
    Folder,
    /// Its lines are read.
    File,
}

/// What becomes of a file, or of a folder, that stands in a folder.
#[derive(Clone, Copy, Drop)]
pub enum Treatment {
    /// Nothing is said of it: its name begins with a dot, or it is a leftover of dpkg, of an editor or of `crontab`.
    Silent,
    /// It is a folder, which isn't entered.
    NotEntered,
    /// It is no crontab, but another of cron's files.
    NoCrontab,
    /// Cron passes over it for its name, so that none of its lines is read.
    PassedOver,
    /// Its lines are read.
    Read,
}

/// What a file that a call asks for turns out to be. `is_folder` says whether its name is that of a
/// folder.
pub fn sort_of(is_folder: bool, file: &Asked<'_>) -> Sort
    ensures { result ≡ sort_of is_folder (asked_seen file.now) }
{
    if is_no_crontab(file) {
        Sort::NoCrontab
    } else if is_folder {
        Sort::Folder
    } else {
        Sort::File
    }
}

/// What becomes of a file of this name in a folder. `is_folder` says whether the name is that of a folder
/// itself.
pub fn treatment_of(is_folder: bool, file: &Asked<'_>, name: &str) -> Treatment
    ensures { result ≡ treatment_of is_folder (asked_seen file.now) name.now }
{
    if is_silent(file, name.as_bytes()) {
        Treatment::Silent
    } else if is_folder {
        Treatment::NotEntered
    } else if is_no_crontab(file) {
        Treatment::NoCrontab
    } else if is_passed_over(file.dialect(), name.as_bytes()) {
        Treatment::PassedOver
    } else {
        Treatment::Read
    }
}

// Whether a file by its name is one of cron's other files than crontabs, and no option says how it is
// read.
fn is_no_crontab(file: &Asked<'_>) -> bool
    ensures { result ≡ is_no_crontab (asked_seen file.now) }
{
    match file.kind {
        Some(_) => false,
        None => is_named_otherwise(Path::new(file.name)),
    }
}

fn is_named_otherwise(path: Path<'_>) -> bool
    ensures { result ≡ is_named_otherwise (path_bytes path.entry) }
{
    let name = path.file_name();
    is_text(name, "anacrontab") || is_scripts(name) || is_scripts(folder_name(path))
}

// Whether a folder of this name has the scripts that run-parts runs.
fn is_scripts(name: Option<&str>) -> bool
    ensures { result ≡ is_scripts (option_map (λ name. name.now) name.entry) }
{
    is_text(name, "cron.hourly")
        || is_text(name, "cron.daily")
        || is_text(name, "cron.weekly")
        || is_text(name, "cron.monthly")
        || is_text(name, "cron.yearly")
}

// Whether nothing is said of a file of this name, which stands in a folder.
fn is_silent(file: &Asked<'_>, name: &[u8]) -> bool
    ensures { result ≡ is_silent (asked_seen file.now) name.now }
{
    is_left_out(name) || is_unfinished(name) && is_installed(file.name)
}

// Whether a file of this name is what a broken-off `crontab` leaves beside the crontabs that it has installed.
fn is_unfinished(name: &[u8]) -> bool
    ensures { result ≡ is_unfinished name.now }
{
    name.starts_with("tmp.".as_bytes())
        && (name.len() == 10 && are_alphanumeric(without_front(name)))
}

// What stands after the first four bytes of a name.
fn without_front(name: &[u8]) -> &[u8]
    ensures { result.now ≡ drop 4 name.now }
{
    match name {
        [_, _, _, _, rest @ ..] => rest,
        _ => &[],
    }
}

fn are_alphanumeric(text: &[u8]) -> bool
    ensures { result ≡ list_all is_ascii_alphanumeric text.now }
{
    text.iter().all(|byte| byte.is_ascii_alphanumeric())
}

// Whether nothing is said of a file of this name, in whatever folder it stands.
fn is_left_out(name: &[u8]) -> bool
    ensures { result ≡ is_left_out name.now }
{
    name.starts_with(".".as_bytes()) || is_leftover(name)
}

// Whether a file of this name is what dpkg or an editor left of another.
fn is_leftover(name: &[u8]) -> bool
    ensures { result ≡ is_leftover name.now }
{
    name.ends_with("~".as_bytes())
        || name.ends_with(".dpkg-old".as_bytes())
        || name.ends_with(".dpkg-dist".as_bytes())
        || name.ends_with(".dpkg-new".as_bytes())
}

// Whether cron passes over a file of this name and dialect.
fn is_passed_over(dialect: Dialect, name: &[u8]) -> bool
    ensures { result ≡ is_passed_over dialect name.now }
{
    match dialect {
        Dialect::System => !is_name_of_cron(name),
        Dialect::User | Dialect::Patterns => false,
    }
}

fn is_name_of_cron(name: &[u8]) -> bool
    ensures { result ≡ is_name_of_cron name.now }
{
    name.iter().all(|byte| is_name_byte(*byte))
}

/// Whether cron ignores a crontab of the system for its name: it stands in a folder `cron.d`, and its name has another sign than letters,
/// digits, `_` and `-`. Not so for a name of which nothing is said in a folder either.
pub fn is_misnamed(name: &str) -> bool
    ensures { result ≡ is_misnamed name.now }
{
    let path = Path::new(name);
    is_text(folder_name(path), "cron.d") && is_told_as_misnamed(path.file_name())
}

// Whether a file of this name in a folder `cron.d` is told, and cron ignores it for the name.
fn is_told_as_misnamed(name: Option<&str>) -> bool
    ensures { result ≡ is_told_as_misnamed (option_map (λ name. name.now) name.entry) }
{
    match name {
        Some(name) => !is_left_out(name.as_bytes()) && !is_name_of_cron(name.as_bytes()),
        None => false,
    }
}

// Whether a byte may stand in the name of a crontab of the system.
fn is_name_byte(byte: u8) -> bool
    ensures { result ≡ is_name_byte byte }
{
    byte.is_ascii_alphanumeric() || byte == b'_' || byte == b'-'
}

/// The path of a file in a folder. The only error is lack of memory.
pub fn path_in(alloc: Global, folder: &str, name: &str) -> Result<String, AllocError>
    ensures { IfOk result (λ path. string_bytes path ≡ path_in folder.now name.now) }
{
    let mut path = String::from_str(alloc, folder)?;
    if !folder.as_bytes().ends_with("/".as_bytes()) {
        path.push('/')?;
    }
    path.push_str(name)?;
    Ok(path)
}
