//! Jobs whose positions are kept in a file, so that they go on from there.
//!
//! A run is started first, and then its position is written. So no run is lost, whenever the program is killed. A run that was
//! started, but whose position wasn't written yet, is started again; no other is.
use crate::scheduler::{Task, start_next};
use croner::{Clocked, Recurring};
use croner_scheduler::Scheduler;
use serde_json::{Map, Value};
use std::alloc::{AllocError, Global};
use std::fs;
use std::fs::File;
use std::io::{ErrorKind, Write};

// The position of each job by its name, in seconds since 1970.
fn positions<J: Recurring<T>, T: Clocked>(
    alloc: Global,
    scheduler: &Scheduler<Task<J>, T>,
) -> Result<Value, AllocError> {
    let mut positions = Map::new(alloc);
    for (_id, job) in scheduler.iter() {
        let position = Value::from(Clocked::second(job.position()));
        positions.insert(job.job().name.clone()?, position)?;
    }
    Ok(Value::Object(positions))
}

/// Writes the positions to a file beside the old one, which it then replaces: the file is whole, whenever the program is killed.
pub fn keep<J: Recurring<T>, T: Clocked>(
    rt: &HostRuntime,
    scheduler: &Scheduler<Task<J>, T>,
    path: &str,
) -> anyhow::Result<()> {
    let text = positions(rt.alloc(), scheduler)?.to_string(rt.alloc())?;
    let beside = format!(in rt.alloc(); "{path}.new")?;
    let mut file = File::create(rt, beside.as_str())?;
    file.write_all(text.as_bytes())?;
    file.sync_all()?;
    fs::rename(rt, beside.as_str(), path)?;
    Ok(())
}

/// The positions that were kept; null if there are none.
pub fn kept_in(rt: &HostRuntime, path: &str) -> anyhow::Result<Value> {
    match fs::read_to_string(rt, path) {
        Ok(text) => Ok(Value::from_str(rt.alloc(), text.as_str())?),
        Err(error) if error.kind() == ErrorKind::NotFound => Ok(Value::Null),
        Err(error) => Err(error.into()),
    }
}

/// Where a job is added: at its position, if that was kept, or else at `now`. `None` where the zone doesn't hold the position.
pub fn position_of<T: Clocked>(kept: &Value, name: &str, now: &T) -> Option<T> {
    let second = kept.get(name).and_then(Value::as_i64);
    now.at_second(second.unwrap_or(Clocked::second(now)))
}

/// Starts what is due up to a second, in order of time, and keeps the positions after each run.
pub fn start_and_keep<J: Recurring<T>, T: Clocked>(
    rt: &HostRuntime,
    scheduler: &mut Scheduler<Task<J>, T>,
    now: i64,
    path: &str,
) -> anyhow::Result<()> {
    for _run in 0..u64::MAX {
        if !start_next(rt, scheduler, now)? {
            break;
        }
        keep(rt, scheduler, path)?;
    }
    Ok(())
}
