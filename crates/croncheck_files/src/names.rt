//! Which files a call asks for, and how each is read: by the options in front of it, and else by its name.
ghost use Rattle.std.specs.Prelude.{◌≡◌, get_or, map, option_map, option_and_then, IfOk};
ghost use Rattle.std.specs.Path.{path_bytes, path_parent};
ghost use Rattle.croncheck_files.specs.Names.{places_seen, asked_seen, is_text, folder_name, is_of_system, is_installed, dialect_by_name, last_place_before, later_place, kind_at, name_shown, asked_file_at, asked_files, dialect_of};

use crontab::line::Dialect;
use std::alloc::{AllocError, Global};
use std::path::Path;

/// Standard input, as a word of a call.
pub const STANDARD_INPUT: &str = "-";

/// A file that a call asks for.
#[derive(Clone, Copy, Drop)]
pub struct Asked<'w> {
    /// Its word, by which it is opened.
    pub word: &'w str,
    /// The name by which reports call it.
    pub name: &'w str,
    /// How its lines are read, if an option says that. `None`: its name says it.
    pub kind: Option<Dialect>,
}

impl Asked<'_> {
    /// How its lines are read.
    pub fn dialect(&self) -> Dialect
        ensures { result ≡ dialect_of (asked_seen self.now) }
    {
        match self.kind {
            Some(dialect) => dialect,
            None => dialect_by_name(self.name),
        }
    }
}

/// Where the options that say how files are read stand among the words of a call, counted from 1.
#[derive(Clone, Copy)]
pub struct Places<'p> {
    /// Those of `--user`.
    pub user: &'p [usize],
    /// Those of `--system`.
    pub system: &'p [usize],
    /// Those of `--patterns`.
    pub patterns: &'p [usize],
}

/// The files of these words, which stand at these places among the words of a call.
///
/// Each is read as the last such option in front of it says, and if none stands there, by its name. Standard input has the
/// name `stdin_name`. The only error is lack of memory.
#[tactic(auto, using(crate::proofs::AskedFiles::asked_next))]
pub fn asked_files<'w>(
    alloc: Global,
    options: Places<'_>,
    stdin_name: &'w str,
    words: &[&'w str],
    places: &[usize],
) -> Result<Vec<Asked<'w>>, AllocError>
    ensures { IfOk result (λ files. map asked_seen files.items
        ≡ asked_files (places_seen options.entry) stdin_name.entry.now places.now 0 (map (λ word. word.now) words.now)) }
{
    let mut files = Vec::new(alloc);
    for k in 0..words.len() {
        let file = asked_file_at(options, stdin_name, place_at(places, k), words[k]);
        files.push(file)?;
    }
    Ok(files)
}

fn place_at(places: &[usize], k: usize) -> usize
    ensures { result ≡ get_or places.now k 0 }
{
    places.get(k).copied().unwrap_or(0)
}

/// The file of a word that stands at this place.
pub fn asked_file_at<'w>(
    options: Places<'_>,
    stdin_name: &'w str,
    place: usize,
    word: &'w str,
) -> Asked<'w>
    ensures { asked_seen result ≡ asked_file_at (places_seen options.entry) stdin_name.entry.now place word.entry.now }
{
    Asked {
        word,
        name: name_shown(stdin_name, word),
        kind: kind_at(options, place),
    }
}

// The name of a file: standard input has the one that is given for it.
fn name_shown<'w>(stdin_name: &'w str, word: &'w str) -> &'w str
    ensures { result.now ≡ name_shown stdin_name.entry.now word.entry.now }
{
    if word == STANDARD_INPUT {
        stdin_name
    } else {
        word
    }
}

// What the last option of a kind in front of a place says.
fn kind_at(options: Places<'_>, place: usize) -> Option<Dialect>
    ensures { result ≡ kind_at (places_seen options.entry) place }
{
    let user = last_place_before(place, options.user);
    let system = last_place_before(place, options.system);
    let patterns = last_place_before(place, options.patterns);
    if user < system && patterns < system {
        Some(Dialect::System)
    } else if user < patterns && system < patterns {
        Some(Dialect::Patterns)
    } else if system < user && patterns < user {
        Some(Dialect::User)
    } else {
        None
    }
}

/// The last of some places that lie in front of `place`, and 0 if there is none.
pub fn last_place_before(place: usize, places: &[usize]) -> usize
    ensures { result ≡ last_place_before place places.now }
{
    let mut last = 0;
    for k in 0..places.len() {
        last = later_place(place, last, places[k]);
    }
    last
}

// The later of two places, if the second stands in front of this one.
fn later_place(place: usize, last: usize, other: usize) -> usize
    ensures { result ≡ later_place place last other }
{
    if other < place { last.max(other) } else { last }
}

// How a file is read by its name.
fn dialect_by_name(name: &str) -> Dialect
    ensures { result ≡ dialect_by_name name.now }
{
    if is_of_system(name) {
        Dialect::System
    } else {
        Dialect::User
    }
}

/// Whether a crontab of this name is the system's: it is one in a folder `cron.d`, or it is named `crontab` in a folder `etc`.
pub fn is_of_system(name: &str) -> bool
    ensures { result ≡ is_of_system name.now }
{
    let path = Path::new(name);
    let folder = folder_name(path);
    is_text(folder, "cron.d") || is_text(folder, "etc") && is_text(path.file_name(), "crontab")
}

/// Whether a crontab of this name is one that `crontab` has installed: it is one in a folder `crontabs` of a folder `cron`.
pub fn is_installed(name: &str) -> bool
    ensures { result ≡ is_installed name.now }
{
    let path = Path::new(name);
    is_text(folder_name(path), "crontabs") && is_text(outer_folder_name(path), "cron")
}

// The name of the folder in which the folder of a file stands.
fn outer_folder_name(path: Path<'_>) -> Option<&str>
    ensures { option_map (λ name. name.now) result ≡ option_and_then folder_name (path_parent (path_bytes path.entry)) }
{
    folder_name(path.parent()?)
}

// The name of the folder in which a file stands.
pub(crate) fn folder_name(path: Path<'_>) -> Option<&str>
    ensures { option_map (λ name. name.now) result ≡ folder_name (path_bytes path.entry) }
{
    path.parent()?.file_name()
}

// Whether there is a text, and it is this.
pub(crate) fn is_text(text: Option<&str>, wanted: &str) -> bool
    ensures { result ≡ is_text wanted.now (option_map (λ text. text.now) text.entry) }
{
    match text {
        Some(text) => text == wanted,
        None => false,
    }
}
