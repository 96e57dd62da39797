//! Answering a call: the text for standard output, and the refusal that ended it. Nothing is written here.
ghost use Rattle.std.specs.Prelude.{◌≡◌, ◌↔◌, ◌++◌, ◌∷◌, [], ℤ, Ok, Some, None, IsTrue, IfOk, IfErr, OnOk, string_bytes};
ghost use Rattle.croner_base.specs.Civil.{wall_second};
ghost use Rattle.croner_base.specs.CivilZone.{civil_zone};
ghost use Rattle.croner_pattern.specs.Description.{description};
ghost use Rattle.croner_pattern.specs.Meaning.{Meaning};
ghost use Rattle.croner_pattern.specs.Schedule.{IsScheduled};
ghost use Rattle.croner_words.specs.English.{english};
ghost use Rattle.croner.specs.parser.Grammar.{outcome};
ghost use Rattle.croner.specs.parser.Settings.{default_settings};
ghost use Rattle.cronrun_command.specs.Answer.{IsAnswer, IsDescribed, IsDescriptionText, IsMatched, IsMatchText, bool_text};
ghost use Rattle.cronrun_command.specs.Opened.{Opens};
ghost use Rattle.cronrun_command.specs.Start.{start_instant};
ghost use Rattle.cronrun_command.specs.Refused.{IsUnopened, IsUnread};

use crate::request::Request;
use crate::runs::list;
use crate::start::start_at;
use croner::Cron;
use croner::errors::CronError;
use croner::time::CivilDateTime;
use jiff::civil::DateTime;
use jiff::{Timestamp, Zoned};
use std::alloc::Global;

// A value of civil time, to look up a date and time on its clock. Any will do.
const CIVIL_CLOCK: DateTime = DateTime::MIN;

/// The answer of a call, before it is written.
#[derive(Drop)]
pub struct Answer {
    /// The text for standard output: the whole answer, or the lines found before a refusal.
    pub text: String,
    /// Why the answer isn't complete; `None` if it is.
    pub refusal: Option<CronError>,
}

impl Answer {
    /// A complete answer, or a refusal without a text.
    pub fn of(alloc: Global, text: Result<String, CronError>) -> Answer
        ensures text { IfOk text (λ found. (result.text ≡ found) × (result.refusal ≡ None)) }
        ensures refusal { IfErr text (λ e. (string_bytes result.text ≡ []) × (result.refusal ≡ Some e)) }
    {
        match text {
            Ok(text) => Answer {
                text,
                refusal: None,
            },
            Err(refusal) => Answer {
                text: String::new(alloc),
                refusal: Some(refusal),
            },
        }
    }
}

/// The answer of a call.
pub fn answer_to(alloc: Global, request: Request<'_>) -> Answer
    ensures { IsAnswer request.entry (string_bytes result.text) result.refusal }
{
    match request {
        Request::Describe { pattern } => describe(alloc, pattern),
        Request::Match { pattern, at } => compare(alloc, pattern, at),
        Request::List(listing) => match listing.zone {
            Some(zone) => {
                let clock = Zoned::new(Timestamp::UNIX_EPOCH, zone);
                list(alloc, &listing, &clock)
            }
            None => list(alloc, &listing, &CIVIL_CLOCK),
        },
    }
}

// The answer to a call for a description.
fn describe(alloc: Global, pattern: &str) -> Answer
    ensures { IsDescribed pattern.now (string_bytes result.text) result.refusal }
{
    Answer::of(alloc, description_line(alloc, pattern))
}

// The answer to a call for a match.
fn compare(alloc: Global, pattern: &str, at: CivilDateTime) -> Answer
    ensures { IsMatched pattern.now at (string_bytes result.text) result.refusal }
{
    Answer::of(alloc, match_line(alloc, pattern, at))
}

// The description of a pattern in English, as a line.
fn description_line(alloc: Global, pattern: &str) -> Result<String, CronError>
    ensures value { IfOk result (λ text. IsDescriptionText pattern.now (string_bytes text)) }
    ensures err { IfErr result (IsUnread (outcome default_settings pattern.now)) }
{
    let text = description_of(alloc, pattern)?;
    with_line_feed(text)
}

// A text with a line feed after it.
fn with_line_feed(mut text: String) -> Result<String, CronError>
    ensures value { IfOk result (λ line. string_bytes line ≡ string_bytes text ++ 10 ∷ []) }
    ensures err { IfErr result (λ e. e ≡ CronError.OutOfMemory) }
{
    text.push('\n')?;
    Ok(text)
}

// Whether a pattern names a date and time, as a line.
fn match_line(alloc: Global, pattern: &str, at: CivilDateTime) -> Result<String, CronError>
    ensures value { IfOk result (λ text. IsMatchText pattern.now at (string_bytes text)) }
    ensures err { IfErr result
        (IsUnopened (outcome default_settings pattern.now) (start_instant (civil_zone.resolves at))) }
{
    let matching = is_match(alloc, pattern, at)?;
    boolean_line(alloc, matching)
}

// The word for a boolean, as a line.
fn boolean_line(alloc: Global, held: bool) -> Result<String, CronError>
    ensures value { IfOk result (λ line. string_bytes line ≡ bool_text held ++ 10 ∷ []) }
    ensures err { IfErr result (λ e. e ≡ CronError.OutOfMemory) }
{
    let line = format!(in alloc; "{held}\n")?;
    Ok(line)
}

// The description of a pattern in English.
fn description_of(alloc: Global, pattern: &str) -> Result<String, CronError>
    ensures value { IfOk result (λ text. (m : Meaning) × (outcome default_settings pattern.now ≡ Ok m)
        × (string_bytes text ≡ description english m)) }
    ensures err { IfErr result (IsUnread (outcome default_settings pattern.now)) }
{
    let job = Cron::from_str(alloc, pattern)?;
    job.describe()
}

// Whether a pattern names a date and time.
fn is_match(alloc: Global, pattern: &str, at: CivilDateTime) -> Result<bool, CronError>
    ensures value { IfOk result (λ held. (m : Meaning) × (outcome default_settings pattern.now ≡ Ok m)
        × (IsTrue held ↔ IsScheduled m (wall_second at))) }
    ensures opened { OnOk result (Opens (outcome default_settings pattern.now) civil_zone at) }
    ensures err { IfErr result
        (IsUnopened (outcome default_settings pattern.now) (start_instant (civil_zone.resolves at))) }
{
    let cron = Cron::from_str(alloc, pattern)?;
    let start = start_at(alloc, &CIVIL_CLOCK, at)?;
    cron.is_time_matching(&start)
}
