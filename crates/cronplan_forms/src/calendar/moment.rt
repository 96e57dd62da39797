//! Dates and times in UTC, as a calendar has them.
ghost use Rattle.std.specs.Prelude.{◌≡◌, IfOk, string_bytes};
ghost use Rattle.cronplan_forms.specs.Calendars.{date_part, time_part, moment_text};

use croner_base::time::CivilDateTime;
use std::alloc::{AllocError, Global};

/// A date and a time: `20241027T023000Z`. The only error is lack of memory.
#[tactic(auto, unfolding(crate::specs::Calendars::moment_text))]
pub(crate) fn moment_text(alloc: Global, civil: CivilDateTime) -> Result<String, AllocError>
    ensures { IfOk result (λ t. string_bytes t ≡ moment_text civil) }
{
    let (date, time) = (civil.date(), civil.time());
    let date = date_part(alloc, date.year(), date.month(), date.day())?;
    let time = time_part(alloc, time.hour(), time.minute(), time.second())?;
    let (date, time) = (date.as_str(), time.as_str());
    format!(in alloc; "{date}T{time}Z")
}

fn date_part(alloc: Global, year: i32, month: u32, day: u32) -> Result<String, AllocError>
    ensures { IfOk result (λ t. string_bytes t ≡ date_part year month day) }
{
    Ok(format!(in alloc; "{year:04}{month:02}{day:02}")?)
}

fn time_part(alloc: Global, hour: u32, minute: u32, second: u32) -> Result<String, AllocError>
    ensures { IfOk result (λ t. string_bytes t ≡ time_part hour minute second) }
{
    Ok(format!(in alloc; "{hour:02}{minute:02}{second:02}")?)
}
