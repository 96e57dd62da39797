//! Jobs that come and go, each on the clock of its own zone.
use croner::{Clocked, Recurring};
use croner_jobs::Named;
use croner_scheduler::Scheduler;
use std::thread;
use std::time::{Clock, Duration};

/// The most seconds that the program sleeps, since a machine that was suspended wakes late, and clocks are set.
const MOST_SECONDS: u64 = 60;

/// What a job starts, by its name, and when it runs.
pub type Task<J> = Named<String, J>;

/// Starts the first run that is due up to a second. Returns whether there was one.
pub fn start_next<J: Recurring<T>, T: Clocked>(
    rt: &HostRuntime,
    scheduler: &mut Scheduler<Task<J>, T>,
    now: i64,
) -> anyhow::Result<bool> {
    let Some(due) = scheduler.take_due(now)? else {
        return Ok(false);
    };
    if let Some(job) = scheduler.get(due.id) {
        println!(rt; "{}: {}", job.job().name, job.position().to_civil())?; // here it would be started
        if let Some(stop) = job.stop() {
            eprintln!(rt; "{} is stopped: {stop:?}", job.job().name)?;
        }
    }
    Ok(true)
}

/// Starts what is due up to a second, in order of time. Returns the second at which to call again; `None` where no run is left.
pub fn start_due<J: Recurring<T>, T: Clocked>(
    rt: &HostRuntime,
    scheduler: &mut Scheduler<Task<J>, T>,
    now: i64,
) -> anyhow::Result<Option<i64>> {
    for _run in 0..u64::MAX {
        if !start_next(rt, scheduler, now)? {
            break;
        }
    }
    Ok(scheduler.next_wake_up())
}

/// Starts jobs when they are due by the machine's clock, until it shows a second.
pub fn serve<J: Recurring<T>, T: Clocked>(
    rt: &HostRuntime,
    scheduler: &mut Scheduler<Task<J>, T>,
    until: u64,
) -> anyhow::Result<()> {
    for _turn in 0..u64::MAX {
        let now = rt.since_1970()?;
        if now.as_secs() >= until {
            break;
        }
        let second = i64::try_from(now.as_secs())?;
        let wake_up = start_due(rt, scheduler, second)?;
        thread::sleep(rt, pause(now, wake_up));
    }
    Ok(())
}

// For how long to sleep before a wake-up.
fn pause(now: Duration, wake_up: Option<i64>) -> Duration {
    let most = Duration::from_secs(MOST_SECONDS);
    match wake_up.and_then(|second| u64::try_from(second).ok()) {
        Some(second) => Duration::from_secs(second).saturating_sub(now).min(most),
        None => most,
    }
}
