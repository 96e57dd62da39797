//! Jobs on the clocks of real zones.
use croner::Cron;
use croner::errors::CronError;
use croner::time::table::{ClockTable, TableTime};
use jiff::Timestamp;
use jiff::tz::{TimeZone, TimeZoneDatabase};
use std::alloc::Global;

/// The next run of a job on the clock of a zone, by a table of the years 1970 to 2099.
pub fn next_in_zone(
    alloc: Global,
    cron: &Cron,
    zone: &TimeZone<'_>,
    now: Timestamp,
) -> Result<Timestamp, CronError> {
    let table = ClockTable::of_zone(alloc, zone, 0, 4_102_444_799)?;
    let start = TableTime::of_timestamp(&table, now);
    cron.find_next_occurrence(&start, false)?.timestamp()
}

/// The same on the clock of a zone of the machine's time zone database, by its name.
pub fn next_in_named_zone(
    rt: &HostRuntime,
    cron: &Cron,
    name: &str,
    now: Timestamp,
) -> anyhow::Result<Timestamp> {
    let database = TimeZoneDatabase::from_env(rt)?;
    let zone = database.get(name)?;
    Ok(next_in_zone(rt.alloc(), cron, &zone, now)?)
}
