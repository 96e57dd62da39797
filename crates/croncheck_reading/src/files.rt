//! The files of a call, one after the other.
ghost use Rattle.std.specs.Prelude.{◌≡◌, ℕ, true, false, List, map, option_map, string_bytes, IfOk, IsPermutation, IsSorted, if◌then◌else◌};
ghost use Rattle.std.specs.declared.alloc.Global.{Global};
ghost use Rattle.std.specs.declared.string.String.{String};
ghost use Rattle.std.specs.String.{string_cmp};
ghost use Rattle.crontab.specs.Checked.{TakesInTurn};
ghost use Rattle.croncheck_reading.specs.Files.{Contents, HaveContents, noun_of, summary_of, warned_text, files_noun, ignored_text, files_text, zone_text};
ghost use Rattle.croncheck_files.specs.Names.{asked_seen};
ghost use Rattle.croncheck_output.specs.Output.{IsFlushed};
ghost use Rattle.croncheck_reading.specs.Tally.{status_of};
ghost use Rattle.croncheck_reading.specs.Sink.{State, state_of, Ends, IsToldAs, IsToldBy, IsToldEntry, IsToldFolder, IsToldOf, IsToldStatus};

use crate::form::Form;
use crate::progress::{Terms, TermsByKind};
use crate::sink::Sink;
use crate::tally::Tally;
use croncheck_files::fitness::Unfit;
use croncheck_files::folder::{Sort, Treatment, path_in, sort_of, treatment_of};
use croncheck_files::names::Asked;
use croncheck_output::escaped::shown_text;
use crontab::line::Dialect;
use std::alloc::{AllocError, Global};
use std::io;
use std::io::{BufRead, ErrorKind, Write};

/// The status of a call if one of its files failed.
const FAILED: u8 = 3;

/// What is noted of another of cron's files than a crontab.
const NO_CRONTAB: &str =
    "no crontab, and not read: run-parts runs the scripts of such a folder, and anacron reads anacrontab";

/// What is noted of a folder of which no file is read.
const NO_FILE: &str = "this folder has no file to read";

/// What is noted of a folder in a folder.
const NOT_ENTERED: &str =
    "a folder in a folder, whose files are not read: name it to have them read";

/// Where files are read from.
pub trait Sources {
    ghost use Rattle.std.specs.Prelude.{ℕ, Bool, List, Option, IfOk};
    ghost use Rattle.std.specs.declared.alloc.Global.{Global};
    ghost use Rattle.std.specs.declared.string.String.{String};
    ghost use Rattle.croncheck_files.specs.declared.fitness.Unfit.{Unfit};

    /// The reader of a file.
    type Reader: BufRead + Drop;

    /// What a reader of the file of a name may give.
    ghost holds: { Self → List ℕ → Option (List ℕ) → Type 0 };

    /// What may be said of why cron ignores the file of a name by what the file system says of it.
    ghost says_unfit: { Self → List ℕ → Option Unfit → Type 0 };

    /// What may be said of whether a name is that of a folder.
    ghost says_folder: { Self → List ℕ → Bool → Type 0 };

    /// What may be listed of a folder.
    ghost lists: { Self → List ℕ → List (String Global) → Type 0 };

    /// Opens the file of a name; `-` is standard input. The error says why it isn't opened.
    fn open(&self, name: &str) -> io::Result<Self::Reader>
        ensures { IfOk result (λ reader. holds self.now name.now (Self.Reader.remaining reader)) };

    /// Why cron ignores the file of a name by what the file system says of it. `None` if cron doesn't, or if that isn't looked at.
    fn unfit(&self, name: &str) -> Option<Unfit>
        ensures { says_unfit self.now name.now result };

    /// Whether a name is that of a folder.
    fn is_folder(&self, name: &str) -> bool
        ensures { says_folder self.now name.now result };

    /// The names in a folder, in any order. The error says why they aren't read.
    fn names(&self, name: &str) -> io::Result<Vec<String>>
        ensures { IfOk result (λ names. lists self.now name.now names.items) };
}

/// Tells of these files, in order, each by the terms of its kind, and answers the status of the call: 3 where a file
/// failed, else 1 where a line is refused, where cron ignores a whole file, or where a line or the name of a file has a
/// warning and the settings are strict, else 0.
///
/// Of a folder the files are told, in the order of their names; [`Treatment`] says what becomes of each. A file that is no crontab is not
/// read. A file fails if it isn't opened or isn't read to its end, and a folder if it isn't listed.
///
/// The name of what fails is written to `notes` with the reason, and so is the name of what isn't read, and of a folder without a file that
/// is; at the end follows how many jobs were read, how many lines are refused, how many have warnings, and how many files cron ignores; where
/// the terms name the zone, also how many files were told, and that name. An error of `notes` is passed over.
///
/// The error is that of what is written to, or says that memory is lacking.
pub fn tell_files<'s, 't, S: Sources, F: Form, W: Write, N: Write>(
    sources: &S,
    kinds: &TermsByKind<'s, 't>,
    files: &[Asked<'_>],
    sink: &mut Sink<'s, 't, F, W>,
    notes: &mut N,
) -> io::Result<u8>
    ensures { (m : Contents) → HaveContents (S.holds sources.now) (S.says_unfit sources.now) (S.says_folder sources.now) (S.lists sources.now) m →
        IfOk result (IsToldStatus F.takes F.ends_file F.ends kinds.now m (map asked_seen files.now)
        (state_of W.contents sink.old.form sink.old.progress sink.old.output)
        (state_of W.contents sink.new.form sink.new.progress sink.new.output)) }
{
    let mut is_failed = false;
    for k in 0..files.len() {
        let file = files[k];
        let sort = sort_of(sources.is_folder(file.word), &file);
        let fails = fails(sources, kinds, sort, file, sink, notes)?;
        is_failed = either_failed(fails, is_failed);
    }
    conclude(kinds.of(Dialect::User), sink, is_failed, notes)
}

fn either_failed(fails: bool, is_failed: bool) -> bool
    ensures { result ≡ (if fails then true else is_failed) }
{
    fails || is_failed
}

// Tells of a file of this sort, and answers whether it failed; if it did, that is noted. The error is that of the writer.
fn fails<'s, 't, S: Sources, F: Form, W: Write, N: Write>(
    sources: &S,
    kinds: &TermsByKind<'s, 't>,
    sort: Sort,
    file: Asked<'_>,
    sink: &mut Sink<'s, 't, F, W>,
    notes: &mut N,
) -> io::Result<bool>
    ensures { (m : Contents) → HaveContents (S.holds sources.now) (S.says_unfit sources.now) (S.says_folder sources.now) (S.lists sources.now) m →
        IfOk result (λ is_failed. is_failed ≡ false → IsToldOf sort F.takes F.ends_file kinds.now m (asked_seen file.entry)
        (state_of W.contents sink.old.form sink.old.progress sink.old.output) (state_of W.contents sink.new.form sink.new.progress sink.new.output)) }
{
    match sort {
        Sort::NoCrontab => {
            note(kinds, file.name, NO_CRONTAB, notes)?;
            Ok(false)
        }
        Sort::Folder => folder_fails(sources, kinds, file, sink, notes),
        Sort::File => file_fails(sources, kinds, file, sink, notes),
    }
}

// Tells of the files in a folder, and answers whether one of them failed, or the folder itself.
fn folder_fails<'s, 't, S: Sources, F: Form, W: Write, N: Write>(
    sources: &S,
    kinds: &TermsByKind<'s, 't>,
    file: Asked<'_>,
    sink: &mut Sink<'s, 't, F, W>,
    notes: &mut N,
) -> io::Result<bool>
    ensures { (m : Contents) → HaveContents (S.holds sources.now) (S.says_unfit sources.now) (S.says_folder sources.now) (S.lists sources.now) m →
        IfOk result (λ is_failed. is_failed ≡ false → IsToldFolder F.takes F.ends_file kinds.now m (asked_seen file.entry)
        (state_of W.contents sink.old.form sink.old.progress sink.old.output) (state_of W.contents sink.new.form sink.new.progress sink.new.output)) }
{
    let names = match names_in_order(sources, file.word) {
        Ok(names) => names,
        Err(error) => {
            note_error(kinds, file.name, &error, notes)?;
            return Ok(true);
        }
    };
    listed_fails(sources, kinds, file, names.as_slice(), sink, notes)
}

// Tells of the files of these names, which are all in a folder, and answers whether one of them failed. Where none is read, that is noted.
fn listed_fails<'s, 't, S: Sources, F: Form, W: Write, N: Write>(
    sources: &S,
    kinds: &TermsByKind<'s, 't>,
    folder: Asked<'_>,
    names: &[String],
    sink: &mut Sink<'s, 't, F, W>,
    notes: &mut N,
) -> io::Result<bool>
    ensures { (m : Contents) → HaveContents (S.holds sources.now) (S.says_unfit sources.now) (S.says_folder sources.now) (S.lists sources.now) m →
        IfOk result (λ is_failed. is_failed ≡ false → TakesInTurn (IsToldEntry F.takes F.ends_file kinds.now m (asked_seen folder.entry))
        (state_of W.contents sink.old.form sink.old.progress sink.old.output) (map (λ name. string_bytes name) names.now)
        (state_of W.contents sink.new.form sink.new.progress sink.new.output)) }
{
    let before = sink.progress.files;
    let is_failed = any_fails(sources, kinds, folder, names, sink, notes)?;
    let is_none = is_none_read(is_failed, before, sink.progress.files);
    note_if(is_none, kinds, folder.name, NO_FILE, notes)?;
    Ok(is_failed)
}

// Whether no file was read, where so many files were begun before and after, and none failed.
fn is_none_read(is_failed: bool, before: u64, after: u64) -> bool {
    !is_failed && before == after
}

// Notes something of a file, if it holds.
fn note_if<N: Write>(
    holds: bool,
    kinds: &TermsByKind<'_, '_>,
    name: &str,
    text: &str,
    notes: &mut N,
) -> Result<(), AllocError> {
    if holds {
        note(kinds, name, text, notes)?;
    }
    Ok(())
}

// The names in a folder, in the order of their bytes.
fn names_in_order<S: Sources>(sources: &S, folder: &str) -> io::Result<Vec<String>>
    ensures { IfOk result (λ names. (found : List (String Global)) × S.lists sources.now folder.now found × IsPermutation found names.items
        × IsSorted string_cmp names.items) }
{
    let mut names = sources.names(folder)?;
    names.sort()?;
    Ok(names)
}

// Tells of the files of these names in a folder, and answers whether one of them failed.
fn any_fails<'s, 't, S: Sources, F: Form, W: Write, N: Write>(
    sources: &S,
    kinds: &TermsByKind<'s, 't>,
    folder: Asked<'_>,
    names: &[String],
    sink: &mut Sink<'s, 't, F, W>,
    notes: &mut N,
) -> io::Result<bool>
    ensures { (m : Contents) → HaveContents (S.holds sources.now) (S.says_unfit sources.now) (S.says_folder sources.now) (S.lists sources.now) m →
        IfOk result (λ is_failed. is_failed ≡ false → TakesInTurn (IsToldEntry F.takes F.ends_file kinds.now m (asked_seen folder.entry))
        (state_of W.contents sink.old.form sink.old.progress sink.old.output) (map (λ name. string_bytes name) names.now)
        (state_of W.contents sink.new.form sink.new.progress sink.new.output)) }
{
    let mut is_failed = false;
    for k in 0..names.len() {
        let fails = entry_fails(sources, kinds, folder, names[k].as_str(), sink, notes)?;
        is_failed = either_failed(fails, is_failed);
    }
    Ok(is_failed)
}

// Tells of the file of this name in a folder, and answers whether it failed.
fn entry_fails<'s, 't, S: Sources, F: Form, W: Write, N: Write>(
    sources: &S,
    kinds: &TermsByKind<'s, 't>,
    folder: Asked<'_>,
    name: &str,
    sink: &mut Sink<'s, 't, F, W>,
    notes: &mut N,
) -> io::Result<bool>
    ensures { (m : Contents) → HaveContents (S.holds sources.now) (S.says_unfit sources.now) (S.says_folder sources.now) (S.lists sources.now) m →
        IfOk result (λ is_failed. is_failed ≡ false → IsToldEntry F.takes F.ends_file kinds.now m (asked_seen folder.entry)
        (state_of W.contents sink.old.form sink.old.progress sink.old.output) name.now
        (state_of W.contents sink.new.form sink.new.progress sink.new.output)) }
{
    let path = path_in(kinds.of(Dialect::User).alloc, folder.word, name)?;
    let file = Asked {
        word: path.as_str(),
        name: path.as_str(),
        kind: folder.kind,
    };
    let treatment = treatment_of(sources.is_folder(file.word), &file, name);
    fails_by(sources, kinds, treatment, file, sink, notes)
}

// Tells what becomes of a file in a folder, and answers whether it failed.
fn fails_by<'s, 't, S: Sources, F: Form, W: Write, N: Write>(
    sources: &S,
    kinds: &TermsByKind<'s, 't>,
    treatment: Treatment,
    file: Asked<'_>,
    sink: &mut Sink<'s, 't, F, W>,
    notes: &mut N,
) -> io::Result<bool>
    ensures { (m : Contents) → HaveContents (S.holds sources.now) (S.says_unfit sources.now) (S.says_folder sources.now) (S.lists sources.now) m →
        IfOk result (λ is_failed. is_failed ≡ false → IsToldBy treatment F.takes F.ends_file kinds.now m (asked_seen file.entry)
        (state_of W.contents sink.old.form sink.old.progress sink.old.output) (state_of W.contents sink.new.form sink.new.progress sink.new.output)) }
{
    match treatment {
        Treatment::Silent => Ok(false),
        Treatment::NotEntered => {
            note(kinds, file.name, NOT_ENTERED, notes)?;
            Ok(false)
        }
        Treatment::NoCrontab => {
            note(kinds, file.name, NO_CRONTAB, notes)?;
            Ok(false)
        }
        Treatment::PassedOver => {
            sink.pass_over(kinds.of(file.dialect()), file.name)?;
            Ok(false)
        }
        Treatment::Read => file_fails(sources, kinds, file, sink, notes),
    }
}

// Tells of the lines of a file, and answers whether it failed.
fn file_fails<'s, 't, S: Sources, F: Form, W: Write, N: Write>(
    sources: &S,
    kinds: &TermsByKind<'s, 't>,
    file: Asked<'_>,
    sink: &mut Sink<'s, 't, F, W>,
    notes: &mut N,
) -> io::Result<bool>
    ensures { (m : Contents) → HaveContents (S.holds sources.now) (S.says_unfit sources.now) (S.says_folder sources.now) (S.lists sources.now) m →
        IfOk result (λ is_failed. is_failed ≡ false → IsToldAs F.takes F.ends_file kinds.now m (asked_seen file.entry)
        (state_of W.contents sink.old.form sink.old.progress sink.old.output) (state_of W.contents sink.new.form sink.new.progress sink.new.output)) }
{
    let terms = kinds.of(file.dialect());
    let unfit = sources.unfit(file.word);
    let error = match sources.open(file.word) {
        Ok(mut reader) => match sink.read(terms, file.name, unfit, &mut reader) {
            Ok(()) => return Ok(false),
            Err(error) => error,
        },
        Err(error) => error,
    };
    if sink.is_refused() {
        return Err(error);
    }
    note_error(kinds, file.name, &error, notes)?;
    Ok(true)
}

// Tells the end of all files by some terms, notes what was counted, and answers the status.
fn conclude<'s, 't, F: Form, W: Write, N: Write>(
    terms: Terms<'s, 't>,
    sink: &mut Sink<'s, 't, F, W>,
    is_failed: bool,
    notes: &mut N,
) -> io::Result<u8>
    ensures { IfOk result (λ status. (ended : State F)
        × Ends (F.ends terms.entry) (state_of W.contents sink.old.form sink.old.progress sink.old.output) ended
        × Ends (λ form. IsFlushed) ended (state_of W.contents sink.new.form sink.new.progress sink.new.output)
        × (status ≡ (if is_failed then 3 else status_of terms.entry.settings.now.is_strict sink.new.progress.tally))) }
{
    sink.end(terms)?;
    let tally = sink.progress.tally;
    let (zone, files) = (terms.shared.zone_name, sink.progress.files);
    let summary = summary_of(terms.alloc, zone, files, tally)?;
    let _ = notes.write_all(summary.as_bytes());
    Ok(status_of(tally, is_failed, terms.settings.is_strict))
}

// Notes why a file failed, and what may have been meant by its name.
fn note_error<N: Write>(
    kinds: &TermsByKind<'_, '_>,
    name: &str,
    error: &io::Error,
    notes: &mut N,
) -> Result<(), AllocError> {
    let shown = shown_text(kinds.of(Dialect::User).alloc, name.as_bytes())?;
    let meant = match error.kind() {
        ErrorKind::NotFound => hint_of_name(name),
        _ => "",
    };
    let _ = write!(notes, "croncheck: {shown}: {error}{meant}\n");
    Ok(())
}

// Notes something of a file.
fn note<N: Write>(
    kinds: &TermsByKind<'_, '_>,
    name: &str,
    text: &str,
    notes: &mut N,
) -> Result<(), AllocError> {
    let name = shown_text(kinds.of(Dialect::User).alloc, name.as_bytes())?;
    let _ = write!(notes, "croncheck: {name}: {text}\n");
    Ok(())
}

// What is said of the name of a file that isn't there, where a pattern or a command may have been meant.
fn hint_of_name(name: &str) -> &'static str {
    if name.is_empty() || begins_as_path(name) {
        ""
    } else if has_letters_alone(name) {
        "; the commands are check, show, plan, next and describe"
    } else if may_be_pattern(name) {
        "; write a line in quotes: croncheck '*/5 * * * *'"
    } else {
        ""
    }
}

// Whether a name is a path by its first sign, and no line of a crontab.
fn begins_as_path(name: &str) -> bool {
    name.starts_with('/') || name.starts_with('.') || name.starts_with('~')
}

fn has_letters_alone(name: &str) -> bool {
    name.as_bytes()
        .iter()
        .all(|byte| byte.is_ascii_alphabetic())
}

// Whether a name may be a pattern, or a field of one: it has a blank or a star, begins with @, or has no letters.
fn may_be_pattern(name: &str) -> bool {
    let bytes = name.as_bytes();
    bytes.starts_with("@".as_bytes())
        || bytes.contains(&b' ')
        || bytes.contains(&b'*')
        || !bytes.iter().any(|byte| byte.is_ascii_alphabetic())
}

// How many jobs were read, how many lines are refused, how many have warnings, and how many files cron ignores as wholes; where the zone
// is named, also how many files were told, and its name.
fn summary_of(
    alloc: Global,
    zone: Option<&str>,
    files: u64,
    tally: Tally,
) -> Result<String, AllocError>
    ensures { IfOk result (λ text. string_bytes text ≡ summary_of (option_map (λ zone. zone.now) zone.entry) files tally) }
{
    let files = files_text(alloc, zone, files)?;
    let files = files.as_str();
    let (jobs, refused) = (tally.jobs, tally.refused);
    let noun = noun_of(jobs);
    let warned = warned_text(alloc, tally.warned)?;
    let warned = warned.as_str();
    let ignored = ignored_text(alloc, tally.ignored)?;
    let ignored = ignored.as_str();
    let zone = zone_text(alloc, zone)?;
    let zone = zone.as_str();
    format!(in alloc; "{files}{jobs} {noun}, {refused} refused{warned}{ignored}{zone}\n")
}

// How many files were told, where the zone is named.
fn files_text(alloc: Global, zone: Option<&str>, files: u64) -> Result<String, AllocError>
    ensures { IfOk result (λ text. string_bytes text ≡ files_text (option_map (λ zone. zone.now) zone.entry) files) }
{
    match zone {
        Some(_) => {
            let noun = files_noun(files);
            format!(in alloc; "{files} {noun}, ")
        }
        None => Ok(String::new(alloc)),
    }
}

// The name of the zone, where it is named.
fn zone_text(alloc: Global, zone: Option<&str>) -> Result<String, AllocError>
    ensures { IfOk result (λ text. string_bytes text ≡ zone_text (option_map (λ zone. zone.now) zone.entry)) }
{
    match zone {
        Some(zone) => format!(in alloc; ", zone {zone}"),
        None => Ok(String::new(alloc)),
    }
}

// How many lines have warnings, if some have.
fn warned_text(alloc: Global, warned: u64) -> Result<String, AllocError>
    ensures { IfOk result (λ text. string_bytes text ≡ warned_text warned) }
{
    if warned == 0 {
        return Ok(String::new(alloc));
    }
    format!(in alloc; ", {warned} with warnings")
}

// How many files cron ignores as wholes, if it does.
fn ignored_text(alloc: Global, ignored: u64) -> Result<String, AllocError>
    ensures { IfOk result (λ text. string_bytes text ≡ ignored_text ignored) }
{
    if ignored == 0 {
        return Ok(String::new(alloc));
    }
    let noun = files_noun(ignored);
    format!(in alloc; ", {ignored} {noun} ignored")
}

fn files_noun(files: u64) -> &'static str
    ensures { result.now ≡ files_noun files }
{
    if files == 1 { "file" } else { "files" }
}

fn noun_of(jobs: u64) -> &'static str
    ensures { result.now ≡ noun_of jobs }
{
    if jobs == 1 { "job" } else { "jobs" }
}

// The status of a call: 3 where a file failed, else that of what was told.
fn status_of(tally: Tally, is_failed: bool, is_strict: bool) -> u8
    ensures { result ≡ (if is_failed then 3 else status_of is_strict tally) }
{
    if is_failed {
        FAILED
    } else {
        tally.status(is_strict)
    }
}
