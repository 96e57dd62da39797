//! Jobs of patterns that no parser made, and parsed ones whose flags or fields are changed.
use croner::errors::CronError;
use croner::{Cron, CronPattern};

/// The job of a pattern; `None` where its fields don't have the shapes of their places.
pub fn job_of(pattern: CronPattern) -> Option<Cron> {
    if pattern.has_field_shapes() {
        Some(Cron { pattern })
    } else {
        None
    }
}

/// From now on both day fields must match.
pub fn match_both_days(cron: &mut Cron) {
    let (day, weekday) = (
        cron.pattern.is_dom_wildcard(),
        cron.pattern.is_dow_wildcard(),
    );
    cron.pattern.set_flags(day, weekday, true);
}

/// From now on the job also runs in these hours; its text stays the same.
///
/// The field is changed in a copy of the pattern, which replaces the job's pattern once it is tested. On an error the job
/// stays as it was.
pub fn add_hours(cron: &mut Cron, hours: &str) -> Result<(), CronError> {
    let mut pattern = cron.pattern.clone()?;
    pattern.hours.parse(hours)?;
    if pattern.has_field_shapes() {
        cron.pattern = pattern;
    }
    Ok(())
}
