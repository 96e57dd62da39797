//! A job with a name, and its runs of a day.
use croner::{Cron, Direction};
use jiff::Zoned;
use jiff::civil::DateTime;
use jiff::tz::TimeZoneDatabase;

#[derive(Drop)]
pub struct Job {
    pub name: String,
    pub cron: Cron,
}

/// Prints the runs of a job on the day of a time, at most 100.
pub fn show_day(rt: &HostRuntime, job: &Job, time: &Zoned<'_>) -> anyhow::Result<()> {
    let midnight = time.start_of_day()?;
    for run in job.cron.iter_from(midnight, Direction::Forward)?.take(100) {
        if run.date() != time.date() {
            break;
        }
        println!(rt; "{}: {run}", job.name)?;
    }
    Ok(())
}

pub fn main(rt: HostRuntime) -> anyhow::Result<()> {
    let zones = TimeZoneDatabase::from_env(&rt)?;
    let noon = DateTime::new(2024, 10, 27, 12, 0, 0, 0)?;
    let day = noon.to_zoned(zones.get("Europe/Paris")?)?;
    let name = String::from_str(rt.alloc(), "sample")?;
    let cron = Cron::from_str(rt.alloc(), "*/30 2 * * *")?;
    show_day(&rt, &Job { name, cron }, &day)
}
