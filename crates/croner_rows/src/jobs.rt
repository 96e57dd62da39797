//! Jobs: the pattern of a question, read by the parser of its settings.

use crate::{Fault, Result, items, member, number, parts, switch, word};
use croner::Cron;
use croner::parser::{CronParser, Seconds, Year};
use serde_json::Value;
use std::alloc::Global;

const SECONDS: [Seconds; 3] = [Seconds::Optional, Seconds::Required, Seconds::Disallowed];

const YEAR: [Year; 3] = [Year::Optional, Year::Required, Year::Disallowed];

/// A job that was read from a text.
pub struct Job {
    pub cron: Cron,
}

// By hand, so that a function that drops a job calls this one: its proof doesn't go through the fields at each exit.
impl Drop for Job {
    fn drop(self) {
        let Job { cron: _ } = self;
    }
}

impl Job {
    /// A job.
    pub fn new(cron: Cron) -> Job {
        Job { cron }
    }

    /// The job of a question: its text, read by the parser of its settings.
    pub fn read(alloc: Global, question: &Value) -> Result<Job> {
        let text = whole_text(alloc, question)?;
        Job::of_text(alloc, question, text.as_str())
    }

    /// The job of a text, read by the parser of a question's settings.
    pub fn of_text(alloc: Global, question: &Value, text: &str) -> Result<Job> {
        Ok(Job::new(read_parser(question)?.parse(alloc, text)?))
    }

    /// The job itself.
    pub fn into_cron(self) -> Cron {
        let Job { cron } = self;
        cron
    }
}

/// The text of a question. A list is of pieces, each with how often it is repeated.
pub fn whole_text(alloc: Global, question: &Value) -> Result<String> {
    let given = member(question, "text")?;
    match given.as_str() {
        Some(text) => Ok(String::from_str(alloc, text)?),
        None => text_of_pieces(alloc, items(given)?),
    }
}

fn text_of_pieces(alloc: Global, pieces: &[Value]) -> Result<String> {
    let mut text = String::new(alloc);
    for piece in pieces {
        let [piece, count] = parts::<2>(piece)?;
        add_piece(&mut text, word(piece)?, number(count)?)?;
    }
    Ok(text)
}

fn add_piece(text: &mut String, piece: &str, count: u32) -> Result<()> {
    for _ in 0..count {
        text.push_str(piece)?;
    }
    Ok(())
}

/// The parser of the settings; those that a question leaves out have the parser's defaults.
pub fn read_parser(question: &Value) -> Result<CronParser> {
    let Some(settings) = question.get("settings") else {
        return Ok(CronParser::new());
    };
    if !settings.is_object() {
        return Err(Fault::Malformed);
    }
    let builder = CronParser::builder()
        .seconds(presence(settings, "seconds", SECONDS)?)
        .year(presence(settings, "year", YEAR)?)
        .dom_and_dow(switch(settings, "dom_and_dow")?)
        .alternative_weekdays(switch(settings, "alternative_weekdays")?)
        .sloppy_ranges(switch(settings, "sloppy_ranges")?);
    Ok(builder.build())
}

// Which of three values the presence of a field is: `"optional"` (also if it is left out), `"required"` or `"disallowed"`.
fn presence<P: Copy>(settings: &Value, field: &str, of: [P; 3]) -> Result<P> {
    let [optional, required, disallowed] = of;
    let Some(presence) = settings.get(field) else {
        return Ok(optional);
    };
    match presence.as_str() {
        Some("optional") => Ok(optional),
        Some("required") => Ok(required),
        Some("disallowed") => Ok(disallowed),
        _ => Err(Fault::Malformed),
    }
}
