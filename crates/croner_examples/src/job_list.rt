//! A program that starts a list of jobs when they are due.
use crate::scheduler::{Task, serve};
use croner::Cron;
use croner_jobs::Named;
use croner_scheduler::Scheduler;
use jiff::tz::{TimeZone, TimeZoneDatabase};
use jiff::{Timestamp, Zoned};

/// The jobs, and up to where the runs of each are done with.
pub type Tasks<'z> = Scheduler<Task<Cron>, Zoned<'z>>;

/// Adds a job, whose runs after a position are started. Returns its id.
pub fn add<'z>(
    rt: &HostRuntime,
    tasks: &mut Tasks<'z>,
    name: &str,
    pattern: &str,
    position: Zoned<'z>,
) -> anyhow::Result<u64> {
    let job = Cron::from_str(rt.alloc(), pattern)?;
    let name = String::from_str(rt.alloc(), name)?;
    Ok(tasks.add(Named { name, job }, position)?.id)
}

/// Adds a job of Paris and one of UTC, and prints when the first run of these is due.
pub fn add_jobs<'z>(
    rt: &HostRuntime,
    zones: &'z TimeZoneDatabase,
    tasks: &mut Tasks<'z>,
    now: Timestamp,
) -> anyhow::Result<()> {
    let in_paris = now.to_zoned(zones.get("Europe/Paris")?);
    add(rt, tasks, "backup", "0 0 * * *", in_paris)?;
    let in_utc = now.to_zoned(TimeZone::UTC);
    add(rt, tasks, "probe", "*/10 * * * * *", in_utc)?; // every ten seconds
    if let Some(second) = tasks.next_wake_up() {
        println!(rt; "wakes up at {}", Timestamp::new(second, 0)?)?;
    }
    Ok(())
}

/// Starts them when they are due by the machine's clock, for half a minute.
pub fn main(rt: HostRuntime) -> anyhow::Result<()> {
    let zones = TimeZoneDatabase::from_env(&rt)?;
    let now = Timestamp::now(&rt)?;
    let mut tasks = Scheduler::new(rt.alloc());
    add_jobs(&rt, &zones, &mut tasks, now)?;
    let until = u64::try_from(now.as_second())?.saturating_add(30);
    serve(&rt, &mut tasks, until)
}
