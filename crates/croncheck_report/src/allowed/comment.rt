//! Comments that allow something: `# croncheck: allow NAME,..`.
ghost use Rattle.std.specs.Prelude.{◌≡◌, ◌||◌, ◌==◌, filter, option_map, IfOk};
ghost use Rattle.crontab.specs.Bytes.{is_space};
ghost use Rattle.crontab.specs.Entries.{entry_seen};
ghost use Rattle.croncheck_report.specs.Allowed.{allowable, names_seen, list_in, is_between, lists, names_in, is_unknown, first_so, items_of, unknown_in_list, unknown_name_in, names_by, is_listed};

use super::{ALLOWABLE, is_listed, is_text};
use crontab::bytes::{Kind, cut, is_of, rest_of};
use crontab::line::{Entry, word};
use std::alloc::{AllocError, Global};

/// The names of warnings that a line allows for the lines after it: those in the list of a comment that allows something,
/// and no names for a job, a pattern, a setting or a refused line. `None` for a blank line or another comment, which leaves
/// what was allowed before.
///
/// The only error is lack of memory.
pub fn names_by(
    alloc: Global,
    entry: &Entry<'_>,
    line: &[u8],
) -> Result<Option<Vec<&'static str>>, AllocError>
    ensures { IfOk result (λ found. option_map (λ names. names_seen names.items) found ≡ names_by (entry_seen entry.now) line.now) }
{
    match entry {
        Entry::Blank => Ok(None),
        Entry::Comment => names_of_comment(alloc, line),
        Entry::Setting { .. } | Entry::Job(_) | Entry::Pattern(_) | Entry::Refused { .. } => {
            Ok(Some(Vec::new(alloc)))
        }
    }
}

fn names_of_comment(alloc: Global, line: &[u8]) -> Result<Option<Vec<&'static str>>, AllocError>
    ensures { IfOk result (λ found. option_map (λ names. names_seen names.items) found ≡ option_map names_in (list_in line.now)) }
{
    match list_in(line) {
        Some(list) => Ok(Some(names_in(alloc, list)?)),
        None => Ok(None),
    }
}

/// The first name in the list of a comment that no warning has, if there is one.
pub(crate) fn unknown_name_in(line: &[u8]) -> Option<&[u8]>
    ensures { option_map (λ name. name.now) result ≡ unknown_name_in line.now }
{
    match list_in(line) {
        Some(list) => first_unknown_name(list),
        None => None,
    }
}

/// The list of a comment that allows something: what stands after `# croncheck: allow`. `None` for another comment.
pub fn list_in(line: &[u8]) -> Option<&[u8]>
    ensures { option_map (λ list. list.now) result ≡ list_in line.now }
{
    let (_, comment) = cut(line, Kind::Blank);
    let (_, text) = cut(rest_of(comment), Kind::Blank);
    let (program, rest) = word(text);
    let (verb, list) = word(rest);
    if program == "croncheck:".as_bytes() && verb == "allow".as_bytes() {
        Some(list)
    } else {
        None
    }
}

// What stands between the names of a list.
fn is_between(byte: u8) -> bool
    ensures { result ≡ is_between byte }
{
    is_of(Kind::Space, byte) || byte == b','
}

// The names that a list allows.
fn names_in(alloc: Global, list: &[u8]) -> Result<Vec<&'static str>, AllocError>
    ensures { IfOk result (λ names. names_seen names.items ≡ names_in list.now) }
{
    let names = names_among(alloc, list, known_names())?;
    Ok(names)
}

fn known_names() -> &'static [&'static str]
    ensures { names_seen result.now ≡ allowable }
{
    &ALLOWABLE
}

// Those of some names that a list has.
fn names_among(
    alloc: Global,
    list: &[u8],
    known: &[&'static str],
) -> Result<Vec<&'static str>, AllocError>
    ensures { IfOk result (λ names. names.items ≡ filter (λ name. lists list.now name.now) known.now) }
{
    let mut names = Vec::new(alloc);
    for name in known {
        if lists(list, name) {
            names.push(*name)?;
        }
    }
    Ok(names)
}

// Whether a list has a name.
fn lists(list: &[u8], name: &str) -> bool
    ensures { result ≡ lists list.now name.now }
{
    for item in list.split(|byte| is_between(*byte)) {
        if is_text(name, item) {
            return true;
        }
    }
    false
}

// The first name of a list that no warning has.
fn first_unknown_name(list: &[u8]) -> Option<&[u8]>
    ensures { option_map (λ name. name.now) result ≡ first_so is_unknown (items_of list.now) }
{
    for item in list.split(|byte| is_between(*byte)) {
        if is_unknown(item) {
            return Some(item);
        }
    }
    None
}

fn is_unknown(item: &[u8]) -> bool
    ensures { result ≡ is_unknown item.now }
{
    !item.is_empty() && !is_listed(&ALLOWABLE, item)
}
