//! The program's input: its words, and the patterns.

use crate::forms::JobForm;
use std::alloc::Global;
use std::{env, io};

/// How many rounds, if the words don't say.
const ROUNDS: u32 = 1;

/// The words after the program's own name. One that is not UTF-8 is an error of the kind `InvalidData`.
pub fn words(rt: &HostRuntime) -> io::Result<Vec<String>> {
    let mut words = Vec::new(rt.alloc());
    for word in env::args(rt)?.skip(1) {
        words.push(word)?;
    }
    Ok(words)
}

/// What the words ask for.
#[derive(Clone, Copy)]
pub enum Asked {
    /// Measure each group this often.
    Rounds(u32),
    /// Keep so many jobs of a form in a scheduler.
    Keep(JobForm, u32),
}

/// What the program's words ask for: a number of rounds above 0, or `keep` with a form and a number of jobs. `None` where the words
/// don't have that form.
pub fn asked_by(words: &[String]) -> Option<Asked> {
    match words {
        [] => Some(Asked::Rounds(ROUNDS)),
        [rounds] => {
            let rounds = rounds.as_str().parse().ok().filter(|rounds| *rounds > 0)?;
            Some(Asked::Rounds(rounds))
        }
        [word, form, jobs] if word.as_str() == "keep" => {
            let (form, jobs) = (JobForm::named(form.as_str())?, jobs.as_str().parse().ok()?);
            Some(Asked::Keep(form, jobs))
        }
        _ => None,
    }
}

/// The patterns on standard input, one a line. Blank lines and lines that begin with `//` are no patterns.
pub fn patterns(rt: &HostRuntime) -> io::Result<Vec<String>> {
    let mut patterns = Vec::new(rt.alloc());
    for line in rt.lines(rt.alloc()) {
        let line = line?;
        if is_pattern(line.as_str()) {
            patterns.push(line)?;
        }
    }
    Ok(patterns)
}

fn is_pattern(line: &str) -> bool {
    !line.trim().is_empty() && !line.starts_with("//")
}
