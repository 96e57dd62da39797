//! One pass of each kind of call: over all patterns, and, if it has a start, from all starts.

use crate::answers::Answers;
use crate::watch::Watch;
use croner::describe::Language;
use croner::errors::CronError;
use croner::time::Direction;
use croner::{Cron, CronIterator};
use croner_rows::{Job, Moment};
use std::alloc::Global;

/// How many runs an iterator is asked for.
const RUNS: u32 = 1000;

/// A call of a job from a start.
#[derive(Clone, Copy)]
pub enum RunCall {
    Match,
    Next,
    Previous,
    Iterate,
}

impl RunCall {
    /// What the call of each job gives from the starts. Only these calls are measured.
    pub fn answers<T: Moment>(
        self,
        jobs: &[Job],
        starts: &[T],
        watch: &mut Watch<'_>,
    ) -> Result<Answers, CronError> {
        watch.restart();
        let answers = match self {
            RunCall::Match => matching(jobs, starts),
            RunCall::Next => next(jobs, starts),
            RunCall::Previous => previous(jobs, starts),
            RunCall::Iterate => iterate(jobs, starts),
        };
        watch.stop();
        answers
    }
}

/// The job of a pattern.
pub fn read(alloc: Global, pattern: &str) -> Result<Job, CronError> {
    Ok(Job::new(Cron::from_str(alloc, pattern)?))
}

/// Reads each pattern. An answer is the text that the job keeps.
pub fn parse(alloc: Global, patterns: &[String]) -> Result<Answers, CronError> {
    let mut answers = Answers::default();
    for pattern in patterns {
        let job = read(alloc, pattern.as_str())?;
        answers.add_text(job.cron.as_str());
    }
    Ok(answers)
}

// Asks whether a time matches. An answer is 1 if it does, else 0.
fn matching<T: Moment>(jobs: &[Job], starts: &[T]) -> Result<Answers, CronError> {
    let mut answers = Answers::default();
    for job in jobs {
        for start in starts {
            answers.add(i64::from(job.cron.is_time_matching(start)?));
        }
    }
    Ok(answers)
}

// Searches the next run after each start. An answer is the run, or -1 where the search reaches the limit.
fn next<T: Moment>(jobs: &[Job], starts: &[T]) -> Result<Answers, CronError> {
    let mut answers = Answers::default();
    for job in jobs {
        for start in starts {
            answers.add(run_or_limit(job.cron.find_next_occurrence(start, false))?);
        }
    }
    Ok(answers)
}

fn run_or_limit<T: Moment>(found: Result<T, CronError>) -> Result<i64, CronError> {
    match found {
        Ok(run) => Ok(run.second()),
        Err(CronError::TimeSearchLimitExceeded) => Ok(-1),
        Err(error) => Err(error),
    }
}

// Searches the previous run before each start. An answer is the run.
fn previous<T: Moment>(jobs: &[Job], starts: &[T]) -> Result<Answers, CronError> {
    let mut answers = Answers::default();
    for job in jobs {
        for start in starts {
            answers.add(job.cron.find_previous_occurrence(start, false)?.second());
        }
    }
    Ok(answers)
}

// Lists the first runs from the first start on, itself included. An answer is a run.
fn iterate<T: Moment>(jobs: &[Job], starts: &[T]) -> Result<Answers, CronError> {
    let mut answers = Answers::default();
    if let Some(start) = starts.first() {
        for job in jobs {
            let mut runs = job.cron.iter_from(start.clone()?, Direction::Forward)?;
            add_runs(&mut answers, &mut runs);
        }
    }
    Ok(answers)
}

fn add_runs<T: Moment>(answers: &mut Answers, runs: &mut CronIterator<T>) {
    for _ in 0..RUNS {
        if !add_run(answers, runs) {
            return;
        }
    }
}

// Adds the next run; whether there was one.
fn add_run<T: Moment>(answers: &mut Answers, runs: &mut CronIterator<T>) -> bool {
    match runs.next() {
        Some(run) => {
            answers.add(run.second());
            true
        }
        None => false,
    }
}

/// Describes each job in a language. An answer is the text.
pub fn describe<L: Language + Copy + Drop>(
    jobs: &[Job],
    language: L,
) -> Result<Answers, CronError> {
    let mut answers = Answers::default();
    for job in jobs {
        let description = job.cron.describe_lang(language)?;
        answers.add_text(description.as_str());
    }
    Ok(answers)
}

/// Compares each job with its clone. An answer is 1 if they are equal, else 0; the time of the clone is included.
pub fn compare(jobs: &[Job]) -> Result<Answers, CronError> {
    let mut answers = Answers::default();
    for job in jobs {
        let copy = Job::new(job.cron.clone()?);
        answers.add(i64::from(job.cron.cmp(&copy.cron).is_eq()));
    }
    Ok(answers)
}

/// Clones each job. An answer is the text that the clone keeps.
pub fn copy(jobs: &[Job]) -> Result<Answers, CronError> {
    let mut answers = Answers::default();
    for job in jobs {
        let copy = Job::new(job.cron.clone()?);
        answers.add_text(copy.cron.as_str());
    }
    Ok(answers)
}
