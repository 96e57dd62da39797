//! `cronbench`: how long the library's calls take, on the patterns of standard input.
//!
//! Its word is the number of rounds; without one it is one. Each group of calls is measured that often. Standard output
//! has the sum of each group's answers, the same in every run. Standard error has the nanoseconds of processor time of one
//! call, in the fastest round. If standard input has no pattern, standard error says so, and nothing is measured.
//!
//! With `keep`, `whole` or `compact` and a number, a scheduler keeps so many jobs of that form, so that their memory can be counted.
#![tactic(auto)]

mod answers;
mod clocks;
mod forms;
mod given;
mod group;
mod hostile;
mod keep;
mod many;
mod measure;
mod passes;
mod scheduler;
mod starts;
mod watch;

use croner_rows::{Job, Result, status};
use forms::JobForm;
use given::Asked;
use group::{GROUPS, Group, SCHEDULERS};
use keep::keep_jobs;
use measure::{Measured, Subjects, measure};
use passes::read;
use std::alloc::Global;
use std::io;
use std::io::ErrorKind;
use std::process::ExitCode;

/// The status if the words don't have their form.
const MISUSED: u8 = 2;

const NO_PATTERN: &str = "No pattern stands on standard input: nothing is measured.";

const USAGE: &str = "usage: cronbench [ROUNDS] < PATTERNS
       cronbench keep whole|compact JOBS";

// Shows what was measured of a group, whose name is `name` and then `mark`.
fn show(rt: &HostRuntime, name: &str, mark: &str, measured: Measured) -> io::Result<()> {
    let (count, sum) = (measured.answers.count, measured.answers.sum);
    println!(rt; "{name}{mark}: {count} answers, sum {sum}")?;
    match measured.per_call() {
        Some(time) => {
            let nanoseconds = time.as_nanos();
            eprintln!(rt; "{name}{mark}: {nanoseconds} ns")
        }
        None => eprintln!(rt; "{name}{mark}: no call"),
    }
}

// Measures each group, and shows its answers and its time, if there is a pattern.
fn bench(rt: &HostRuntime, rounds: u32) -> Result<bool> {
    let patterns = given::patterns(rt)?;
    if patterns.is_empty() {
        eprintln!(rt; "{NO_PATTERN}")?;
        Ok(true)
    } else {
        bench_by(rt, patterns.as_slice(), rounds)
    }
}

fn bench_by(rt: &HostRuntime, patterns: &[String], rounds: u32) -> Result<bool> {
    let jobs = jobs(rt.alloc(), patterns)?;
    let subjects = Subjects {
        patterns,
        jobs: jobs.as_slice(),
    };
    for (group, name) in GROUPS {
        let measured = measure(rt, group, name, subjects, rounds)?;
        show(rt, name, "", measured)?;
    }
    bench_schedulers(rt, JobForm::Whole, subjects, rounds)?;
    bench_schedulers(rt, JobForm::Compact, subjects, rounds)?;
    Ok(true)
}

fn jobs(alloc: Global, patterns: &[String]) -> Result<Vec<Job>> {
    let mut jobs = Vec::new(alloc);
    for pattern in patterns {
        jobs.push(read(alloc, pattern.as_str())?)?;
    }
    Ok(jobs)
}

// Measures the calls of schedulers whose jobs have a form.
fn bench_schedulers(
    rt: &HostRuntime,
    form: JobForm,
    subjects: Subjects<'_>,
    rounds: u32,
) -> Result<()> {
    for (calls, name) in SCHEDULERS {
        let measured = measure(rt, Group::Scheduler(form, calls), name, subjects, rounds)?;
        show(rt, name, form.mark(), measured)?;
    }
    Ok(())
}

// What the words ask for. `None` where they don't have their form.
fn read_words(rt: &HostRuntime) -> io::Result<Option<Asked>> {
    match given::words(rt) {
        Ok(words) => Ok(given::asked_by(words.as_slice())),
        Err(error) if error.kind() == ErrorKind::InvalidData => Ok(None),
        Err(error) => Err(error),
    }
}

fn main(rt: HostRuntime) -> io::Result<ExitCode> {
    match read_words(&rt)? {
        Some(Asked::Rounds(rounds)) => status(&rt, bench(&rt, rounds)),
        Some(Asked::Keep(form, jobs)) => status(&rt, keep_jobs(&rt, form, jobs)),
        None => {
            eprintln!(rt; "{USAGE}")?;
            Ok(ExitCode::from(MISUSED))
        }
    }
}
