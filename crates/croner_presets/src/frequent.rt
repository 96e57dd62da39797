//! Whether a job runs more often than GitHub starts a workflow.
ghost use Rattle.std.specs.Prelude.{◌≡◌, Result, Ok, IfOk, IfErr};
ghost use Rattle.std.specs.List.{list_any};
ghost use Rattle.croner_pattern.specs.Meaning.{Meaning};
ghost use Rattle.croner.specs.parser.Gives.{Fails};
ghost use Rattle.croner.specs.parser.Grammar.{Refusal, outcome};
ghost use Rattle.croner.specs.Views.{job_of};
ghost use Rattle.croner_presets.specs.Differences.{any_pair, is_close, is_close_over_turn, is_next, is_frequent_by, means_frequent};
ghost use Rattle.croner_presets.specs.Presets.{settings_of};

use crate::preset::Preset;
use croner::Cron;
use croner::errors::CronError;
use std::alloc::Global;

/// The least number of minutes between two starts.
const LEAST_MINUTES: u16 = 5;

const MINUTES_OF_HOUR: u16 = 60;

fn is_close(a: u16, b: u16) -> bool
    ensures { result ≡ is_close a b }
{
    a < b && b - a < LEAST_MINUTES
}

fn is_close_over_turn(a: u16, b: u16) -> bool
    ensures { result ≡ is_close_over_turn a b }
{
    b < a && MINUTES_OF_HOUR - LEAST_MINUTES < a - b
}

fn is_next(a: u16, b: u16) -> bool
    ensures { result ≡ is_next a b }
{
    a < b && b - a == 1
}

fn is_close_to_any(a: u16, minutes: &[u16]) -> bool
    ensures { result ≡ list_any (is_close a) minutes.now }
{
    minutes.iter().any(|b| is_close(a, *b))
}

fn any_close(minutes: &[u16]) -> bool
    ensures { result ≡ any_pair is_close minutes.now }
{
    minutes.iter().any(|a| is_close_to_any(*a, minutes))
}

fn is_close_over_turn_to_any(a: u16, minutes: &[u16]) -> bool
    ensures { result ≡ list_any (is_close_over_turn a) minutes.now }
{
    minutes.iter().any(|b| is_close_over_turn(a, *b))
}

fn any_close_over_turn(minutes: &[u16]) -> bool
    ensures { result ≡ any_pair is_close_over_turn minutes.now }
{
    minutes
        .iter()
        .any(|a| is_close_over_turn_to_any(*a, minutes))
}

fn has_next(a: u16, hours: &[u16]) -> bool
    ensures { result ≡ list_any (is_next a) hours.now }
{
    hours.iter().any(|b| is_next(a, *b))
}

fn any_next(hours: &[u16]) -> bool
    ensures { result ≡ any_pair is_next hours.now }
{
    hours.iter().any(|a| has_next(*a, hours))
}

fn is_frequent_by(hours: &[u16], minutes: &[u16]) -> bool
    ensures { result ≡ is_frequent_by hours.now minutes.now }
{
    any_close(minutes) || (any_next(hours) && any_close_over_turn(minutes))
}

// Whether a job that was read is frequent, and so its text.
#[tactic(auto, using(crate::proofs::Told::read_frequent))]
fn is_frequent(job: &Cron) -> Result<bool, CronError>
    ensures ok { (meaning : Result Meaning Refusal) → meaning ≡ Ok (job_of job.now) → IfOk result (λ yes. yes ≡ means_frequent meaning) }
    ensures err { IfErr result (λ e. e ≡ CronError.OutOfMemory) }
{
    let hours = job.pattern.hours.values()?;
    let minutes = job.pattern.minutes.values()?;
    Ok(is_frequent_by(hours.as_slice(), minutes.as_slice()))
}

/// Whether the preset's parser reads a text, and two of its minutes are less than five apart. The only error is `OutOfMemory`.
pub(crate) fn means_frequent(alloc: Global, preset: Preset, text: &str) -> Result<bool, CronError>
    ensures ok { IfOk result (λ yes. yes ≡ means_frequent (outcome (settings_of preset) text.now)) }
    ensures err { IfErr result (λ e. e ≡ CronError.OutOfMemory) }
{
    match preset.parser().parse(alloc, text) {
        Ok(job) => is_frequent(&job),
        Err(error) => answer_to_refusal(&error),
    }
}

// The answer for a refused text: it isn't frequent, unless memory ran out.
#[tactic(auto, using(crate::proofs::Told::not_frequent))]
fn answer_to_refusal(error: &CronError) -> Result<bool, CronError>
    ensures ok { (meaning : Result Meaning Refusal) → Fails error.now meaning → IfOk result (λ yes. yes ≡ means_frequent meaning) }
    ensures err { IfErr result (λ e. e ≡ CronError.OutOfMemory) }
{
    match error {
        CronError::OutOfMemory => Err(CronError::OutOfMemory),
        CronError::EmptyPattern
        | CronError::InvalidDate
        | CronError::InvalidTime
        | CronError::TimeSearchLimitExceeded
        | CronError::InvalidPattern(_)
        | CronError::IllegalCharacters(_)
        | CronError::ComponentError(_) => Ok(false),
    }
}
