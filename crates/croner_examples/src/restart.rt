//! Jobs of four kinds, which go on after a restart from where they were.
use crate::kept::{keep, kept_in, position_of, start_and_keep};
use crate::plan::Plan;
use crate::scheduler::Task;
use croner::Cron;
use croner::time::CivilDate;
use croner::time::table::{ClockTable, TableTime};
use croner_jobs::{Dates, Interval, Named, OnDates};
use croner_scheduler::Scheduler;
use crontab_runs::CrontabJob;
use jiff::tz::TimeZoneDatabase;
use serde_json::Value;
use std::alloc::Global;
use std::fs;

/// Where the positions are kept.
const POSITIONS: &str = "positions.json";

type PlannedTasks<'t> = Scheduler<Task<Plan>, TableTime<'t>>;

// Each midnight.
fn backup(alloc: Global) -> anyhow::Result<Plan> {
    Ok(Plan::ByPattern(Cron::from_str(alloc, "0 0 * * *")?))
}

// At a quarter past 2 and past 3, as cron starts it: where the clock skips the first, right after that.
fn mail(alloc: Global) -> anyhow::Result<Plan> {
    let cron = Cron::from_str(alloc, "15 2-3 * * *")?;
    Ok(Plan::AsCron(CrontabJob {
        cron,
        is_starred: false,
    }))
}

// At 9 from Monday to Friday, but not on Easter Monday of 2024.
fn report(alloc: Global) -> anyhow::Result<Plan> {
    let cron = Cron::from_str(alloc, "0 9 * * MON-FRI")?;
    let mut left_out = Vec::new(alloc);
    left_out.push(CivilDate::from_ymd(2024, 4, 1)?)?;
    Ok(Plan::OnWorkdays(OnDates {
        job: cron,
        dates: Dates::AllBut(left_out),
    }))
}

// Every 90 minutes from 2024-04-02T06:00:00 in Paris on.
fn probe() -> Option<Plan> {
    Interval::new(1_712_030_400, 5_400).map(Plan::AtIntervals)
}

// Adds a job at its position, or at `now` if that wasn't kept.
fn add<'t>(
    alloc: Global,
    tasks: &mut PlannedTasks<'t>,
    name: &str,
    job: Plan,
    kept: &Value,
    now: &TableTime<'t>,
) -> anyhow::Result<()> {
    if let Some(position) = position_of(kept, name, now) {
        let name = String::from_str(alloc, name)?;
        tasks.add(Named { name, job }, position)?;
    }
    Ok(())
}

// What the program does when it starts: it adds its jobs at their positions, and starts what is due.
fn start<'t>(
    rt: &HostRuntime,
    tasks: &mut PlannedTasks<'t>,
    now: &TableTime<'t>,
) -> anyhow::Result<()> {
    let (alloc, kept) = (rt.alloc(), kept_in(rt, POSITIONS)?);
    add(alloc, tasks, "backup", backup(alloc)?, &kept, now)?;
    add(alloc, tasks, "mail", mail(alloc)?, &kept, now)?;
    add(alloc, tasks, "report", report(alloc)?, &kept, now)?;
    if let Some(probe) = probe() {
        add(alloc, tasks, "probe", probe, &kept, now)?;
    }
    keep(rt, tasks, POSITIONS)
}

// The program starts at a second, and ends at another.
fn run(rt: &HostRuntime, paris: &ClockTable, from: i64, to: i64) -> anyhow::Result<()> {
    let now = TableTime::new(paris, from)?;
    let mut tasks = Scheduler::new(rt.alloc());
    start(rt, &mut tasks, &now)?;
    start_and_keep(rt, &mut tasks, to, POSITIONS)
}

/// Two starts of the program, the second one an hour after the first one was killed. On 31 March the clock goes from 2 to 3.
pub fn show_restart(rt: &HostRuntime, zones: &TimeZoneDatabase) -> anyhow::Result<()> {
    let zone = zones.get("Europe/Paris")?;
    let paris = ClockTable::of_zone(rt.alloc(), &zone, 0, 4_102_444_799)?; // the years 1970 to 2099
    run(rt, &paris, 1_711_796_400, 1_712_034_000)?; // from noon of 30 March to 7:00 of 2 April
    println!(rt; "{}", kept_in(rt, POSITIONS)?)?;
    run(rt, &paris, 1_712_037_600, 1_712_041_200)?; // from 8:00 to 9:00
    fs::remove_file(rt, POSITIONS)?;
    Ok(())
}
