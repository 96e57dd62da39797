//! Texts that no crontab has, of any length: how reading them grows with it.

use crate::answers::Answers;
use crate::passes::read;
use crate::watch::Watch;
use croner::errors::CronError;
use std::alloc::{AllocError, Global};

/// The beginning of a text, the piece that is repeated, and the end.
struct Kind(&'static str, &'static str, &'static str);

const KINDS: [Kind; 11] = [
    Kind("", ",", " * * * *"),
    Kind("", "0", " * * * *"),
    Kind("", "9", " * * * *"),
    Kind("* * * * ", "SUN", ""),
    Kind("* * * * ", "MON,", ""),
    Kind("5", "\u{3000}", "4 3 2 1"),
    Kind("", "X", " * * * *"),
    Kind("", "* ", ""),
    Kind("", "*/7,", " * * * *"),
    Kind("* * * * * * ", "1-5000,", ""),
    Kind("* * * * * * ", "*/7,", ""),
];

// The text of a kind whose pieces have so many bytes in total, or a few less.
fn text(alloc: Global, kind: &Kind, bytes: usize) -> Result<String, AllocError> {
    let Kind(front, piece, end) = *kind;
    let count = bytes.checked_div(piece.len()).unwrap_or(0);
    let mut text = String::from_str(alloc, front)?;
    for _ in 0..count {
        text.push_str(piece)?;
    }
    text.push_str(end)?;
    Ok(text)
}

// A text of each kind, whose pieces have so many bytes in total, or a few less.
fn texts(alloc: Global, bytes: usize) -> Result<Vec<String>, AllocError> {
    let mut texts = Vec::new(alloc);
    for kind in &KINDS {
        texts.push(text(alloc, kind, bytes)?)?;
    }
    Ok(texts)
}

/// Reads a text of each kind, which may be refused, and measures that. An answer is the length of the kept text in bytes, or a
/// negative number for the refusal.
pub fn read_hostile(
    alloc: Global,
    bytes: usize,
    watch: &mut Watch<'_>,
) -> Result<Answers, CronError> {
    let texts = texts(alloc, bytes)?;
    watch.restart();
    let answers = read_each(alloc, texts.as_slice());
    watch.stop();
    answers
}

fn read_each(alloc: Global, texts: &[String]) -> Result<Answers, CronError> {
    let mut answers = Answers::default();
    for text in texts {
        answers.add(outcome(alloc, text.as_str())?);
    }
    Ok(answers)
}

fn outcome(alloc: Global, text: &str) -> Result<i64, CronError> {
    match kept_bytes(alloc, text) {
        Ok(bytes) => Ok(i64::try_from(bytes).unwrap_or(i64::MAX)),
        Err(CronError::EmptyPattern) => Ok(-1),
        Err(CronError::InvalidPattern(_)) => Ok(-2),
        Err(CronError::IllegalCharacters(_)) => Ok(-3),
        Err(CronError::ComponentError(_)) => Ok(-4),
        Err(error) => Err(error),
    }
}

fn kept_bytes(alloc: Global, text: &str) -> Result<usize, CronError> {
    let job = read(alloc, text)?;
    Ok(job.cron.as_str().len())
}
