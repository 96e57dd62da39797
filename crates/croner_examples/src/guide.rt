//! The snippets of docs/GUIDE.md.
use croner::describe::lang::swedish::Swedish;
use croner::errors::CronError;
use croner::parser::{CronParser, Seconds};
use croner::{Cron, CronDateTime, Direction};
use jiff::civil::DateTime;
use std::alloc::Global;

/// A job whose pattern begins with the second, with Quartz's weekdays.
pub fn read_quartz(alloc: Global, pattern: &str) -> Result<Cron, CronError> {
    let parser = CronParser::builder()
        .seconds(Seconds::Required)
        .alternative_weekdays(true)
        .build();
    parser.parse(alloc, pattern)
}

/// The runs of a job from a first time to a last one, both included, and at most 1,000.
pub fn runs_between(
    alloc: Global,
    cron: &Cron,
    first: DateTime,
    last: DateTime,
) -> anyhow::Result<Vec<DateTime>> {
    let mut found = Vec::new(alloc);
    for run in cron.iter_from(first, Direction::Forward)?.take(1_000) {
        if last < run {
            break;
        }
        found.push(run)?;
    }
    Ok(found)
}

/// The last run no later than a time, or none; any time, and any zone.
pub fn last_run<T: CronDateTime>(cron: &Cron, time: &T) -> Result<Option<T>, CronError> {
    match cron.find_previous_occurrence(time, true) {
        Ok(run) => Ok(Some(run)),
        Err(CronError::TimeSearchLimitExceeded) => Ok(None),
        Err(error) => Err(error),
    }
}

/// A job in both languages, and as JSON.
pub fn show_texts(rt: &HostRuntime, cron: &Cron) -> anyhow::Result<()> {
    println!(rt; "{}", cron.describe()?)?;
    println!(rt; "{}", cron.describe_lang(Swedish)?)?;
    let again = Cron::from_json(rt.alloc(), &cron.to_json()?)?;
    println!(rt; "{}", again == *cron)?;
    Ok(())
}

/// Why a text is refused, with the place and the text there.
pub fn show_fault(rt: &HostRuntime, text: &str) -> anyhow::Result<()> {
    if let Some(fault) = CronParser::new().explain(rt.alloc(), text)? {
        let place = text.get(fault.start..fault.end).unwrap_or("");
        println!(rt; "{}-{} {place}: {fault}", fault.start, fault.end)?;
    }
    Ok(())
}
