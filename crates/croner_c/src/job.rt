//! The pattern of a text, with its settings.
ghost use Rattle.std.specs.Prelude.{◌≡◌, true, IfOk, IsUtf8};
ghost use Rattle.croner.specs.Views.{job_of};
ghost use Rattle.croner_c.specs.Answers.{seen};
ghost use Rattle.croner_c.specs.Clocks.{is_accepted};
ghost use Rattle.croner_c.specs.Patterns as Spec;
ghost use Rattle.croner_c.specs.declared.status.Reason.TheVariants as reasons;

use crate::clock::Clock;
use crate::status::Reason;
use croner::Cron;
use croner::parser::{CronParser, ParseOutcome, Seconds, Year};
use std::alloc::Global;

/// The number after the greatest that settings can be.
const SETTINGS_END: u32 = 128;

/// The parser of settings that are added up.
pub(crate) fn parser_of(settings: u32) -> Result<CronParser, Reason>
    ensures { result ≡ Spec.settings_of settings }
{
    if settings >= SETTINGS_END {
        return Err(Reason::BadArgument);
    }
    let seconds = seconds_of(settings % 4)?;
    let year = year_of(settings / 4 % 4)?;
    Ok(
        CronParser::builder()
            .seconds(seconds)
            .year(year)
            .dom_and_dow(settings / 16 % 2 == 1)
            .alternative_weekdays(settings / 32 % 2 == 1)
            .sloppy_ranges(settings / 64 == 1)
            .build(),
    )
}

/// Whether there is a second, by its two bits.
fn seconds_of(bits: u32) -> Result<Seconds, Reason>
    ensures { result ≡ Spec.seconds_by bits }
{
    match bits {
        0 => Ok(Seconds::Optional),
        1 => Ok(Seconds::Required),
        2 => Ok(Seconds::Disallowed),
        _ => Err(Reason::BadArgument),
    }
}

/// Whether there is a year, by its two bits.
fn year_of(bits: u32) -> Result<Year, Reason>
    ensures { result ≡ Spec.year_by bits }
{
    match bits {
        0 => Ok(Year::Optional),
        1 => Ok(Year::Required),
        2 => Ok(Year::Disallowed),
        _ => Err(Reason::BadArgument),
    }
}

/// A mark: 0 or 1.
pub(crate) fn mark_of(number: i32) -> Result<bool, Reason>
    ensures { result ≡ Spec.mark_of number }
{
    match number {
        0 => Ok(false),
        1 => Ok(true),
        _ => Err(Reason::BadArgument),
    }
}

/// The parser and the mark of a call, if it is accepted.
pub(crate) fn asked(
    settings: u32,
    mark: i32,
    clock: &Clock<'_>,
) -> Result<(CronParser, bool), Reason>
    ensures value { result ≡ Spec.asked settings mark clock.now }
    ensures accepted { IfOk result (λ a. is_accepted clock.now ≡ true) }
{
    let parser = parser_of(settings)?;
    let mark = mark_of(mark)?;
    if clock.is_accepted() {
        Ok((parser, mark))
    } else {
        Err(Reason::BadArgument)
    }
}

/// The pattern of a text.
pub(crate) fn job_of_text(alloc: Global, parser: CronParser, text: &[u8]) -> Result<Cron, Reason>
    ensures { Spec.IsPattern parser text.now (seen job_of result) }
{
    match std::str::from_utf8(text) {
        Ok(text) => job_of(alloc, parser, text),
        Err(_) => Err(Reason::Refused),
    }
}

/// The pattern of a text that is UTF-8. No message is made of a text that is refused, as `parse` would.
fn job_of(alloc: Global, parser: CronParser, text: &str) -> Result<Cron, Reason>
    ensures { IsUtf8 text.now → Spec.IsPattern parser text.now (seen job_of result) }
{
    match parser.parse_or_explain(alloc, text) {
        Ok(ParseOutcome::Accepted(job)) => Ok(job),
        Ok(ParseOutcome::Refused(_)) => Err(Reason::Refused),
        Err(_) => Err(Reason::OutOfMemory),
    }
}
