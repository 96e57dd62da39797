//! Reading the text of a job's times by croner's parser.
ghost use Rattle.std.specs.Prelude.{◌≡◌};
ghost use Rattle.croner.specs.Views.{job_of};
ghost use Rattle.croner.specs.parser.Gives.{Gives};
ghost use Rattle.croner.specs.parser.Grammar.{outcome};
ghost use Rattle.crontab.specs.Parsed.{crontab_settings};

use croner::Cron;
use croner::errors::CronError;
use croner::parser::{CronParser, Seconds, Year};
use std::alloc::Global;

// The parser of a job's text.
fn parser(both_days: bool) -> CronParser
    ensures { result ≡ crontab_settings both_days }
{
    CronParser::builder()
        .seconds(Seconds::Disallowed)
        .year(Year::Disallowed)
        .dom_and_dow(both_days)
        .build()
}

/// The job of a text of five fields, where a day has to match both day fields, or either. The errors
/// are those of [`CronParser::parse`](croner::parser::CronParser::parse).
pub fn job_of(alloc: Global, text: &str, both_days: bool) -> Result<Cron, CronError>
    ensures { Gives job_of result (outcome (crontab_settings both_days) text.now) }
{
    let settings = parser(both_days);
    settings.parse(alloc, text)
}
