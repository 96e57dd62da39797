//! Words of a call that aren't what they seem: lines of a crontab among the files, fields without quotes, commands that aren't there.

use croncheck_command::words::{NoCall, told_of_zone};
use croncheck_files::names::{Asked, STANDARD_INPUT};
use croncheck_output::escaped::shown_text;
use croncheck_typed::advice::advice;
use croncheck_typed::command::{advice_on_command, is_command};
use croncheck_typed::line::{is_field, may_be_line, may_be_zone};
use std::alloc::AllocError;
use std::fs;

/// How many words without quotes are taken for the fields of a line at least, and how many for those of a pattern.
const FIELDS_OF_LINE: usize = 5;

const FIELDS_OF_PATTERN: usize = 2;

/// What the words of a call are meant as.
#[derive(Drop)]
pub enum Meant {
    /// What they say.
    AsWritten,
    /// A line of a crontab is among them, and no command: it is shown.
    Shown,
    /// They are no call: this is told.
    Misused(String),
}

/// What the words of a call are meant as, the first of which is the program's name. The only error is lack of memory.
pub fn meant_by(rt: &HostRuntime, words: &[String]) -> Result<Meant, AllocError> {
    if let Some(text) = advice_on_dashes(rt, words)? {
        return Ok(Meant::Misused(text));
    }
    let first = word_at(words, 1);
    if is_command(first) {
        return fields_or(rt, words, 2, Meant::AsWritten);
    }
    if let Some(text) = told_of_command(rt, first)? {
        return Ok(Meant::Misused(text));
    }
    let meant = if has_line(rt, words) {
        Meant::Shown
    } else {
        Meant::AsWritten
    };
    fields_or(rt, words, 1, meant)
}

// The word at a place; empty where there is none.
fn word_at(words: &[String], place: usize) -> &str {
    match words.get(place) {
        Some(word) => word.as_str(),
        None => "",
    }
}

/// Whether there is a file of this name.
pub fn is_there(rt: &HostRuntime, name: &str) -> bool {
    fs::symlink_metadata(rt, name).is_ok()
}

/// Whether a word is a line of a crontab, and no file.
pub fn is_line(rt: &HostRuntime, word: &str) -> bool {
    may_be_line(word) && !is_there(rt, word)
}

/// Whether a call names files, none of which is there.
pub fn has_no_file(rt: &HostRuntime, files: &[Asked<'_>]) -> bool {
    !files.is_empty() && files.iter().all(|file| is_missing(rt, file.word))
}

// Whether a word is that of a file which isn't there.
fn is_missing(rt: &HostRuntime, word: &str) -> bool {
    word != STANDARD_INPUT && !may_be_line(word) && !is_there(rt, word)
}

// ---- lines among the words

// Whether a word is a line, which follows no option.
fn has_line(rt: &HostRuntime, words: &[String]) -> bool {
    let mut is_free = false;
    for word in words {
        if is_free && is_line_alone(rt, word.as_str()) {
            return true;
        }
        is_free = !word.as_str().starts_with('-');
    }
    false
}

// Whether a word is a line, and no option.
fn is_line_alone(rt: &HostRuntime, word: &str) -> bool {
    !word.starts_with('-') && is_line(rt, word)
}

// ---- words that begin with a dash

// What is told of the first word that begins with a dash and is no option, if there is one.
fn advice_on_dashes(rt: &HostRuntime, words: &[String]) -> Result<Option<String>, AllocError> {
    for word in words {
        if is_dashed_pattern(word.as_bytes()) {
            return told_of_dash(rt, word.as_str());
        }
    }
    Ok(None)
}

// Whether a word begins with a dash, and then a blank or a star, or a digit before a blank.
fn is_dashed_pattern(word: &[u8]) -> bool {
    match word {
        [b'-', b' ' | b'*', ..] => true,
        [b'-', next, ..] => next.is_ascii_digit() && word.contains(&b' '),
        _ => false,
    }
}

fn told_of_dash(rt: &HostRuntime, word: &str) -> Result<Option<String>, AllocError> {
    match advice(rt.alloc(), word)? {
        Some(text) => Ok(Some(format!(in rt.alloc(); "error: {text}\n")?)),
        None => Ok(None),
    }
}

// ---- fields without quotes

// What words are meant as: if from a place on they are the fields of a line without quotes, these are told, and else it is what is given.
fn fields_or(
    rt: &HostRuntime,
    words: &[String],
    place: usize,
    meant: Meant,
) -> Result<Meant, AllocError> {
    let count = count_of_words(words, place);
    if count < least_fields(word_at(words, 1)) || !begins_as_field(word_at(words, place)) {
        return Ok(meant);
    }
    if is_there(rt, word_at(words, place))
        || !begins_as_field(word_at(words, place.saturating_add(1)))
    {
        return Ok(meant);
    }
    Ok(Meant::Misused(told_of_fields(rt, words, place, count)?))
}

// How many words are taken for fields by their command: where a pattern stands, one word would be one.
fn least_fields(command: &str) -> usize {
    match command {
        "next" | "describe" => FIELDS_OF_PATTERN,
        _ => FIELDS_OF_LINE,
    }
}

// How many words stand from a place on, up to the first option.
fn count_of_words(words: &[String], place: usize) -> usize {
    words
        .iter()
        .skip(place)
        .take_while(|word| !word.as_str().starts_with('-'))
        .count()
}

fn begins_as_field(word: &str) -> bool {
    is_field(word) && word.starts_with(is_first_of_field)
}

fn is_first_of_field(sign: char) -> bool {
    sign == '*' || sign.is_ascii_digit()
}

fn told_of_fields(
    rt: &HostRuntime,
    words: &[String],
    place: usize,
    count: usize,
) -> Result<String, AllocError> {
    let mut line = String::new(rt.alloc());
    for word in words.iter().skip(place).take(count) {
        if !line.is_empty() {
            line.push(' ')?;
        }
        line.push_str(word.as_str())?;
    }
    let line = shown_text(rt.alloc(), line.as_bytes())?;
    let verb = if place == 1 { "" } else { word_at(words, 1) };
    let space = if verb.is_empty() { "" } else { " " };
    format!(in rt.alloc();
        "error: without quotes the shell makes a word of each field: write croncheck {verb}{space}'{line}'\n"
    )
}

// ---- commands that aren't there

// What is told of a word that may be meant as a command.
fn told_of_command(rt: &HostRuntime, word: &str) -> Result<Option<String>, AllocError> {
    if !may_be_command(word) || is_there(rt, word) {
        return Ok(None);
    }
    match advice_on_command(rt.alloc(), word)? {
        Some(call) => Ok(Some(format!(in rt.alloc();
            "error: '{word}' is neither a command nor a file: write {call}\n"
        )?)),
        None => Ok(None),
    }
}

// Whether a word has small letters and dashes alone.
fn may_be_command(word: &str) -> bool {
    !word.is_empty() && word.as_bytes().iter().all(|byte| is_of_command(*byte))
}

fn is_of_command(byte: u8) -> bool {
    byte.is_ascii_lowercase() || byte == b'-'
}

// ---- what stands beside a line

/// What is told of a word beside a line that is the name of a zone or a command, and no file.
pub fn told_beside_line(rt: &HostRuntime, files: &[Asked<'_>]) -> Option<NoCall> {
    if !files.iter().any(|file| is_line(rt, file.word)) {
        return None;
    }
    for file in files {
        if !is_there(rt, file.word) {
            if may_be_zone(file.word) {
                return Some(told_of_zone(rt.alloc(), file.word));
            }
            if is_command(file.word) {
                return Some(told_of_late_command(rt, file.word, first_line(rt, files)));
            }
        }
    }
    None
}

fn first_line<'w>(rt: &HostRuntime, files: &[Asked<'w>]) -> &'w str {
    match files.iter().find(|file| is_line(rt, file.word)) {
        Some(file) => file.word,
        None => "",
    }
}

fn told_of_late_command(rt: &HostRuntime, command: &str, line: &str) -> NoCall {
    match late_command_text(rt, command, line) {
        Ok(text) => NoCall::Misused(text),
        Err(_) => NoCall::OutOfMemory,
    }
}

fn late_command_text(rt: &HostRuntime, command: &str, line: &str) -> Result<String, AllocError> {
    let line = shown_text(rt.alloc(), line.as_bytes())?;
    format!(in rt.alloc();
        "error: the command stands in front: write croncheck {command} '{line}'\n"
    )
}
