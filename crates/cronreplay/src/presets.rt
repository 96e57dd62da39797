//! Where another program reads a pattern otherwise, beside what that program itself makes of it.

use croner::errors::CronError;
use croner_presets::{Difference, Kind, Preset, differences};
use croner_rows::{Fault, Result, shown, text};
use serde_json::Value;
use std::alloc::Global;

/// What the parser of a preset makes of a text, the differences, and whether these tell what the program makes of it.
pub fn preset(alloc: Global, question: &Value) -> Result<Value> {
    let preset = Preset::of_name(text(question, "preset")?).ok_or(Fault::Malformed)?;
    let (program, pattern) = (text(question, "program")?, text(question, "text")?);
    let is_taken = is_taken(alloc, preset, pattern)?;
    let found = differences(alloc, preset, pattern)?;
    told(alloc, program, is_taken, found.as_slice())
}

fn is_taken(alloc: Global, preset: Preset, pattern: &str) -> Result<bool> {
    match preset.parser().parse(alloc, pattern) {
        Ok(_) => Ok(true),
        Err(CronError::OutOfMemory) => Err(Fault::OutOfMemory),
        Err(_) => Ok(false),
    }
}

fn told(alloc: Global, program: &str, is_taken: bool, found: &[Difference]) -> Result<Value> {
    let here = if is_taken { "taken" } else { "refused" };
    let verdict = verdict(program, is_taken, found)?;
    let answer = format!(in alloc;
        "{{\"here\":\"{here}\",\"differences\":\"{found:?}\",\"verdict\":\"{verdict}\"}}"
    );
    shown::object(alloc, answer)
}

// Whether the differences tell what the program makes of a pattern that the parser takes, or refuses.
fn verdict(program: &str, is_taken: bool, found: &[Difference]) -> Result<&'static str> {
    let kind = match (program, is_taken) {
        ("taken", true) | ("refused", false) => return Ok("as here"),
        ("taken" | "otherwise", false) => Kind::Takes,
        ("refused", true) => Kind::Refuses,
        ("otherwise", true) => Kind::ReadsOtherwise,
        _ => return Err(Fault::Malformed),
    };
    if found.iter().any(|difference| difference.kind() == kind) {
        Ok("told")
    } else {
        Ok("not told")
    }
}
