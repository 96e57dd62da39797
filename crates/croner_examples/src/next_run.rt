//! The next run of a job from now, on the clock of a zone by its name.
use croner::Cron;
use jiff::Timestamp;
use jiff::tz::TimeZoneDatabase;

pub fn show_next(rt: &HostRuntime, zones: &TimeZoneDatabase, now: Timestamp) -> anyhow::Result<()> {
    let job = Cron::from_str(rt.alloc(), "0 9 * * MON-FRI")?;
    let start = now.to_zoned(zones.get("Europe/Paris")?);
    let run = job.find_next_occurrence(&start, false)?; // true: the start itself may be the run
    println!(rt; "{run}")?;
    Ok(())
}

pub fn main(rt: HostRuntime) -> anyhow::Result<()> {
    show_next(&rt, &TimeZoneDatabase::from_env(&rt)?, Timestamp::now(&rt)?)
}
