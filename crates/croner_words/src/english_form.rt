//! The English forms of times, hours, months and years, with a language's own texts in them. A language that keeps one
//! of these forms calls it in one line. The only error of each is `OutOfMemory`.

ghost use Rattle.croner_words.specs.English.{every_months, every_step, past, past_hour};
ghost use Rattle.croner_words.specs.Numbers.{clock_text};
ghost use Rattle.croner_words.specs.Writes.{Writes};

use croner_base::errors::CronError;
use std::alloc::Global;

/// A time of day on a clock of 24 hours, two places for each number: `14:00`, `14:00:30`.
///
/// ```
/// let text = english_form::time_of_day(alloc, 14, 0, None)?; // 14:00
/// ```
pub fn time_of_day(
    alloc: Global,
    hour: u16,
    minute: u16,
    second: Option<u16>,
) -> Result<String, CronError>
    ensures { Writes (clock_text hour minute second) result }
{
    match second {
        Some(second) => Ok(format!(in alloc; "{hour:02}:{minute:02}:{second:02}")?),
        None => Ok(format!(in alloc; "{hour:02}:{minute:02}")?),
    }
}

/// Something that repeats, past some hours.
///
/// ```
/// let text = english_form::every_past_phrase(alloc, "Every minute", "hour 9-17")?; // Every minute past hour 9-17
/// ```
pub fn every_past_phrase(alloc: Global, every: &str, hours: &str) -> Result<String, CronError>
    ensures { Writes (past every.now hours.now) result }
{
    Ok(format!(in alloc; "{every} past {hours}")?)
}

/// A list of hours: `hour 0 and 12`.
///
/// ```
/// let text = english_form::past_hour_phrase(alloc, "0 and 12")?; // hour 0 and 12
/// ```
pub fn past_hour_phrase(alloc: Global, s: &str) -> Result<String, CronError>
    ensures { Writes (past_hour s.now) result }
{
    Ok(format!(in alloc; "hour {s}")?)
}

/// Every so many months.
///
/// ```
/// let text = english_form::every_x_months(alloc, 2)?; // every 2 months
/// ```
pub fn every_x_months(alloc: Global, step: u16) -> Result<String, CronError>
    ensures { Writes (every_months step) result }
{
    Ok(format!(in alloc; "every {step} months")?)
}

/// What the language's own `year_phrase` is given for a step of years: `every 2`.
///
/// ```
/// let text = english_form::every(alloc, 2)?; // every 2
/// ```
pub fn every(alloc: Global, step: u16) -> Result<String, CronError>
    ensures { Writes (every_step step) result }
{
    Ok(format!(in alloc; "every {step}")?)
}
