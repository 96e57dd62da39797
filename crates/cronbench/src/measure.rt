//! Measuring a group.

use crate::answers::Answers;
use crate::group::Group;
use crate::watch::Watch;
use croner_rows::{Fault, Job, Result};
use std::time::Duration;

/// What is measured on: patterns as they are written, and a job for each.
#[derive(Clone, Copy)]
pub struct Subjects<'s> {
    pub patterns: &'s [String],
    pub jobs: &'s [Job],
}

/// The answers of a group's calls, and the processor time that they took together.
#[derive(Clone, Copy)]
pub struct Measured {
    pub answers: Answers,
    pub time: Duration,
}

impl Measured {
    /// The processor time of one call. None where there was no call.
    pub fn per_call(&self) -> Option<Duration> {
        self.time.checked_div(self.answers.count)
    }
}

/// Measures a group in a number of passes, at least one: its answers, the same in each, and the least time.
pub fn measure(
    rt: &HostRuntime,
    group: Group,
    name: &'static str,
    subjects: Subjects<'_>,
    passes: u32,
) -> Result<Measured> {
    let mut least = measure_pass(rt, group, subjects)?;
    for _ in 1..passes {
        let measured = measure_pass(rt, group, subjects)?;
        if measured.answers != least.answers {
            return Err(Fault::Differing(name));
        }
        least.time = least.time.min(measured.time);
    }
    Ok(least)
}

fn measure_pass(rt: &HostRuntime, group: Group, subjects: Subjects<'_>) -> Result<Measured> {
    let mut watch = Watch::start(rt);
    let answers = group.pass(rt.alloc(), subjects.patterns, subjects.jobs, &mut watch)?;
    let time = watch.time()?;
    Ok(Measured { answers, time })
}
