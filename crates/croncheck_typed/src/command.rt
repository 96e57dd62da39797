//! Words that stand where a command does, and are none.

use std::alloc::{AllocError, Global};
use strsim::levenshtein;

/// The commands.
const COMMANDS: [&str; 5] = ["check", "show", "plan", "next", "describe"];

/// How many letters of a command may be wrong at most.
const MOST_WRONG: usize = 2;

/// Whether a word is a command.
pub fn is_command(word: &str) -> bool {
    COMMANDS.contains(&word)
}

/// What to write in place of a word that stands where a command does, and isn't one: the call that answers it, or the command with nearly
/// the same letters. `None` if no command is near. The only error is lack of memory.
pub fn advice_on_command(alloc: Global, word: &str) -> Result<Option<&'static str>, AllocError> {
    match call_for(word) {
        Some(call) => Ok(Some(call)),
        None => nearest_command(alloc, word),
    }
}

// The call that does what the command of another program does.
fn call_for(word: &str) -> Option<&'static str> {
    match word {
        "explain" | "desc" | "description" | "translate" | "parse" | "human" | "meaning" => Some(
            "croncheck describe PATTERN, or croncheck show FILE",
        ),
        "prev" | "previous" | "last" => Some("croncheck next --previous 3 PATTERN"),
        "match" | "matches" | "due" | "is-due" => Some("cronrun match PATTERN TIME"),
        "lint" | "validate" | "verify" | "test" => Some("croncheck check FILE"),
        "upcoming" | "runs" | "schedule" => Some("croncheck next PATTERN, or croncheck plan FILE"),
        "list" | "calendar" | "timeline" => Some("croncheck plan FILE"),
        _ => None,
    }
}

// The command with the fewest letters to change, if these are few.
fn nearest_command(alloc: Global, word: &str) -> Result<Option<&'static str>, AllocError> {
    let (mut nearest, mut fewest) = (None, MOST_WRONG + 1);
    for command in COMMANDS {
        let wrong = levenshtein(alloc, word, command)?;
        if wrong < fewest && wrong < word.len() {
            fewest = wrong;
            nearest = Some(call_of(command));
        }
    }
    Ok(nearest)
}

fn call_of(command: &str) -> &'static str {
    match command {
        "show" => "croncheck show",
        "plan" => "croncheck plan",
        "next" => "croncheck next",
        "describe" => "croncheck describe",
        _ => "croncheck check",
    }
}
