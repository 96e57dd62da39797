//! Programs over `croner` that a reader can copy. README.md and docs/GUIDE.md show them, line by line.
#![tactic(auto)]

mod guide;
mod job_list;
mod kept;
mod named_job;
mod next_run;
mod own_pattern;
mod own_time;
mod plan;
mod reminders;
mod restart;
mod scheduler;
mod wake_ups;
mod zone_clock;
mod zones;

use croner::time::table::{ClockTable, TableTime};
use croner::{Cron, CronDateTime, CronPattern};
use croner_scheduler::Scheduler;
use jiff::civil::DateTime;
use jiff::tz::{TimeZone, TimeZoneDatabase};
use jiff::{Timestamp, Zoned};
use job_list::add;
use named_job::Job;
use own_time::OfficeTime;
use reminders::Reminders;
use scheduler::{Task, start_due};

// The next run of a job in a named zone, and the runs of a day on which that clock goes back from 3 to 2.
fn show_in_paris(rt: &HostRuntime) -> anyhow::Result<()> {
    let zones = TimeZoneDatabase::from_dir(rt, "zones")?;
    let now = Timestamp::new(1_729_980_000, 0)?; // 2024-10-27T00:00:00 there
    next_run::show_next(rt, &zones, now)?;
    let name = String::from_str(rt.alloc(), "sample")?;
    let cron = Cron::from_str(rt.alloc(), "*/30 2 * * *")?;
    let day = now.to_zoned(zones.get("Europe/Paris")?);
    named_job::show_day(rt, &Job { name, cron }, &day)?;
    zone_clock::show_in_anchorage(rt, &zones)?;
    show_in_table(rt, &zones, now)
}

// The next run by the table of a zone.
fn show_in_table(
    rt: &HostRuntime,
    database: &TimeZoneDatabase,
    now: Timestamp,
) -> anyhow::Result<()> {
    let cron = Cron::from_str(rt.alloc(), "30 2 * * *")?;
    let run = zones::next_in_zone(rt.alloc(), &cron, &database.get("Europe/Paris")?, now)?;
    println!(rt; "in Paris: {run}")?; // in Paris: 2024-10-27T00:30:00Z
    let run = zones::next_in_named_zone(rt, &cron, "UTC", now)?;
    println!(rt; "in UTC: {run}")?; // in UTC: 2024-10-27T02:30:00Z
    Ok(())
}

// A parsed job, changed so that both day fields must match, and with one more hour.
fn show_changed(rt: &HostRuntime, now: &DateTime) -> anyhow::Result<()> {
    let mut cron = Cron::from_str(rt.alloc(), "0 9 1 * MON")?;
    own_pattern::match_both_days(&mut cron);
    own_pattern::add_hours(&mut cron, "17")?;
    let run = cron.find_next_occurrence(now, false)?;
    println!(rt; "both days, also at 17: {run}")?; // both days, also at 17: 2024-07-01T09:00:00
    Ok(())
}

// Whether a pattern that no parser made has the fields of a job.
fn show_own(rt: &HostRuntime) -> anyhow::Result<()> {
    let pattern = CronPattern::new(rt.alloc(), "by hand")?;
    let is_job = own_pattern::job_of(pattern).is_some();
    println!(rt; "by hand: {is_job}")?; // by hand: true
    Ok(())
}

// The next run of a job at a time of this crate.
fn show_own_time(rt: &HostRuntime) -> anyhow::Result<()> {
    let cron = Cron::from_str(rt.alloc(), "5 9 * * MON")?;
    let table = ClockTable::new(3600, Vec::new(rt.alloc()))?;
    let time = TableTime::new(&table, 1_719_576_000)?; // 2024-06-28T12:00:00 UTC
    let start = OfficeTime {
        office: "Lagos",
        time,
    };
    let run = cron.find_next_occurrence(&start, false)?;
    println!(rt; "{}: {}", run.office, run.to_civil())?; // Lagos: 2024-07-01T09:05:00
    Ok(())
}

// The jobs of a list, and those of their runs that are due ten seconds later.
fn show_list(rt: &HostRuntime, zones: &TimeZoneDatabase) -> anyhow::Result<()> {
    let now = Timestamp::new(1_719_698_390, 0)?; // 2024-06-29T23:59:50 in Paris
    let mut tasks = Scheduler::new(rt.alloc());
    job_list::add_jobs(rt, zones, &mut tasks, now)?;
    start_due(rt, &mut tasks, now.as_second() + 10)?;
    Ok(())
}

// Jobs of two zones, which come and go.
fn start_jobs<'z>(
    rt: &HostRuntime,
    zones: &'z TimeZoneDatabase,
    scheduler: &mut Scheduler<Task<Cron>, Zoned<'z>>,
) -> anyhow::Result<()> {
    let saturday = Timestamp::new(1_719_655_200, 0)?; // 2024-06-29T12:00:00 in Paris
    let monday = Timestamp::new(1_719_828_000, 0)?; // two days later
    let position = saturday.to_zoned(zones.get("Europe/Paris")?);
    let backup = add(rt, scheduler, "backup", "0 0 * * *", position)?;
    let position = saturday.to_zoned(TimeZone::UTC);
    add(rt, scheduler, "report", "0 9 * * MON", position)?;
    start_due(rt, scheduler, monday.as_second())?;
    scheduler.remove(backup);
    let position = monday.to_zoned(zones.get("Europe/Paris")?);
    add(rt, scheduler, "lunch", "0 13 * * *", position)?;
    let next = start_due(rt, scheduler, monday.as_second() + 3_600)?;
    println!(rt; "next: {next:?}")?; // next: Some(1719918000): 13:00 of the next day
    Ok(())
}

fn show_scheduler(rt: &HostRuntime) -> anyhow::Result<()> {
    let zones = TimeZoneDatabase::from_dir(rt, "zones")?;
    show_list(rt, &zones)?;
    let mut scheduler = Scheduler::new(rt.alloc());
    start_jobs(rt, &zones, &mut scheduler)?;
    restart::show_restart(rt, &zones)
}

// Reminders of one zone, one of which is taken out.
fn show_reminders(rt: &HostRuntime) -> anyhow::Result<()> {
    let table = ClockTable::new(3_600, Vec::new(rt.alloc()))?;
    let friday = TableTime::new(&table, 1_719_572_400)?; // 2024-06-28T12:00:00 there
    let mut reminders = Reminders::new(rt.alloc());
    reminders.add(rt.alloc(), "0 18 * * FRI", "water the plants", friday)?;
    let rent = reminders.add(rt.alloc(), "0 9 1 * *", "pay the rent", friday)?;
    reminders.show_due(rt, 1_719_820_800)?; // 2024-07-01T09:00:00
    reminders.remove(rent);
    let next = reminders.show_due(rt, 1_719_820_800)?;
    println!(rt; "next: {next:?}")?; // next: Some(1720198800): 18:00 of the next Friday
    Ok(())
}

// The snippets of the guide.
fn show_guide(rt: &HostRuntime) -> anyhow::Result<()> {
    let first = DateTime::new(2024, 7, 1, 0, 0, 0, 0)?;
    let last = DateTime::new(2024, 7, 31, 23, 59, 59, 0)?;
    let cron = guide::read_quartz(rt.alloc(), "0 0 9 ? * 2")?;
    let runs = guide::runs_between(rt.alloc(), &cron, first, last)?;
    println!(rt; "{} in July", runs.len())?;
    println!(rt; "{:?}", guide::last_run(&cron, &last)?)?;
    guide::show_texts(rt, &Cron::from_str(rt.alloc(), "5 9 * * MON")?)?;
    guide::show_fault(rt, "0 0 * * FRI-MON")
}

fn main(rt: HostRuntime) -> anyhow::Result<()> {
    let now = DateTime::new(2024, 6, 28, 12, 0, 0, 0)?; // a Friday
    show_in_paris(&rt)?;
    show_changed(&rt, &now)?;
    show_own(&rt)?;
    show_own_time(&rt)?;
    show_scheduler(&rt)?;
    show_reminders(&rt)?;
    show_guide(&rt)?;
    wake_ups::main(rt)
}
