//! `cronreplay`: compares the library's answers with answers from elsewhere. Each line of standard
//! input is a question with the wanted answer, as JSON. A line whose answer differs is printed, and
//! a summary comes last.
//!
//! With the word `memory` each line is a case of calls that ask for memory, whose answer is printed.
#![tactic(auto)]

mod alike;
mod calendar;
mod clones;
mod command;
mod compare;
mod component;
mod debug;
mod draws;
mod explain;
mod json;
mod laws;
mod listings;
mod memory;
mod narrow;
mod patterns;
mod presets;
mod question;
mod replay;
mod schedulers;
mod searches;
mod starts;
mod summaries;
mod tables;
mod texts;
mod values;
mod writer;
mod zones;

use croner_rows::{Caller, Result, status};
use memory::answer_cases;
use replay::replay_lines;
use std::io::{BufWriter, Write};
use std::process::ExitCode;
use std::{env, io};

// Replays standard input; whether each line was asked and gave the wanted answer.
fn run(rt: &HostRuntime) -> Result<bool> {
    let mut out = BufWriter::new(rt.alloc(), rt.stdout())?;
    let counts = replay_lines(Caller::new(rt), &mut out)?;
    let (lines, differing, unsupported) = (counts.lines, counts.differing, counts.unsupported);
    writeln!(
        out,
        "{lines} lines, {differing} differ, {unsupported} unsupported"
    )?;
    out.flush()?;
    Ok(differing == 0 && unsupported == 0)
}

// Whether the program's one word is `memory`.
fn has_word(rt: &HostRuntime) -> io::Result<bool> {
    match env::args(rt)?.nth(1) {
        Some(word) => Ok(word.as_str() == "memory"),
        None => Ok(false),
    }
}

fn main(rt: HostRuntime) -> io::Result<ExitCode> {
    if has_word(&rt)? {
        return status(&rt, answer_cases(&rt));
    }
    status(&rt, run(&rt))
}
