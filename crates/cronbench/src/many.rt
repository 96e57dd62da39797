//! Many patterns: each searched by itself, and all as a table.

use crate::answers::Answers;
use crate::clocks::civil_times;
use crate::watch::Watch;
use croner::Cron;
use croner::crontable::{CronTable, CronTableIterator};
use croner::errors::CronError;
use croner_rows::{Job, Moment, Result, Table};
use jiff::civil::DateTime;
use std::alloc::Global;

/// How often the table has each pattern, so that forty patterns make a thousand jobs.
const TIMES: u32 = 25;

/// How often the larger table has each pattern, so that forty patterns make a hundred thousand jobs.
const LARGER_TIMES: u32 = 2_500;

/// How many items a table's iterator is asked for: in a short list, and in a long one, in which the first two count little.
pub const ITEMS: u32 = 64;

pub const LONG_ITEMS: u32 = 10_000;

/// How many items at the beginning of a list search all jobs; later ones search only the jobs that ran.
const SEARCHING_ITEMS: u32 = 2;

/// How many jobs the table has whose jobs run one at a time: each runs once a day, some seconds after the one before it.
const DAILY_JOBS: u32 = 1_000;

const SECONDS_APART: u32 = 86;

/// A table of jobs.
#[derive(Clone, Copy)]
pub enum JobTable {
    Thousand,
    HundredThousand,
    /// A thousand jobs that run one at a time.
    Daily,
}

/// A call of a table. An answer is a run.
#[derive(Clone, Copy)]
pub enum TableCall {
    /// The next run after each start.
    Next,
    /// An iterator's first run after each start.
    First,
    /// A number of runs after the first start.
    Iterate(u32),
    /// The short list without its first two items, which are not measured.
    IterateLater,
}

impl JobTable {
    /// What a call of the table gives. Only that is measured.
    pub fn answers(
        self,
        alloc: Global,
        patterns: &[String],
        call: TableCall,
        watch: &mut Watch<'_>,
    ) -> Result<Answers> {
        let table = Table {
            jobs: self.jobs(alloc, patterns)?,
        };
        let starts = civil_times(alloc)?;
        watch.restart();
        let answers = call.answers(&table.jobs, starts.as_slice(), watch);
        watch.stop();
        Ok(answers?)
    }

    fn jobs(self, alloc: Global, patterns: &[String]) -> Result<CronTable, CronError> {
        match self {
            JobTable::Thousand => table_of(alloc, patterns, TIMES),
            JobTable::HundredThousand => table_of(alloc, patterns, LARGER_TIMES),
            JobTable::Daily => daily_table(alloc),
        }
    }
}

impl TableCall {
    fn answers(
        self,
        table: &CronTable,
        starts: &[DateTime],
        watch: &mut Watch<'_>,
    ) -> Result<Answers, CronError> {
        match self {
            TableCall::Next => next(table, starts),
            TableCall::First => Ok(first(table, starts)),
            TableCall::Iterate(items) => Ok(iterate(table, starts, items)),
            TableCall::IterateLater => Ok(iterate_later(table, starts, watch)),
        }
    }
}

// The table whose jobs run one at a time.
fn daily_table(alloc: Global) -> Result<CronTable, CronError> {
    let mut table = CronTable::new(alloc);
    for job in 0..DAILY_JOBS {
        table.push(daily(alloc, job * SECONDS_APART)?)?;
    }
    Ok(table)
}

// A job that runs at a second of the day.
fn daily(alloc: Global, second: u32) -> Result<Cron, CronError> {
    let (minute, hour) = (second / 60 % 60, second / 3600 % 24);
    let text = format!(in alloc; "{} {minute} {hour} * * *", second % 60)?;
    Cron::from_str(alloc, text.as_str())
}

// The table that has each pattern so often.
fn table_of(alloc: Global, patterns: &[String], times: u32) -> Result<CronTable, CronError> {
    let mut table = CronTable::new(alloc);
    for _ in 0..times {
        for pattern in patterns {
            table.push(Cron::from_str(alloc, pattern.as_str())?)?;
        }
    }
    Ok(table)
}

/// Searches the next run of each job after each start, several times, and measures that. An answer is the least run of all.
pub fn next_of_each(alloc: Global, jobs: &[Job], watch: &mut Watch<'_>) -> Result<Answers> {
    let starts = civil_times(alloc)?;
    let mut answers = Answers::default();
    watch.restart();
    for start in starts.as_slice() {
        answers.add(least(jobs, start)?);
    }
    watch.stop();
    Ok(answers)
}

// The least of the next runs, each sought so often.
fn least(jobs: &[Job], start: &DateTime) -> Result<i64, CronError> {
    let mut least = i64::MAX;
    for _ in 0..TIMES {
        for job in jobs {
            let run = job.cron.find_next_occurrence(start, false)?;
            least = least.min(Moment::second(&run));
        }
    }
    Ok(least)
}

// Searches the next run of the table after each start.
fn next(table: &CronTable, starts: &[DateTime]) -> Result<Answers, CronError> {
    let mut answers = Answers::default();
    for start in starts {
        let (run, _places) = table.find_next_occurrence(start, false)?;
        answers.add(Moment::second(&run));
    }
    Ok(answers)
}

// Lists a number of the table's runs after the first start.
fn iterate(table: &CronTable, starts: &[DateTime], items: u32) -> Answers {
    let mut answers = Answers::default();
    if let Some(start) = starts.first() {
        let mut runs = table.iter_after(*start);
        add_runs(&mut answers, &mut runs, items);
    }
    answers
}

// The short list without its first two items, which are not measured.
fn iterate_later(table: &CronTable, starts: &[DateTime], watch: &mut Watch<'_>) -> Answers {
    let mut answers = Answers::default();
    if let Some(start) = starts.first() {
        let mut runs = table.iter_after(*start);
        add_runs(&mut Answers::default(), &mut runs, SEARCHING_ITEMS);
        watch.restart();
        add_runs(&mut answers, &mut runs, ITEMS - SEARCHING_ITEMS);
    }
    answers
}

// Adds the next runs, as far as there are any.
fn add_runs(answers: &mut Answers, runs: &mut CronTableIterator<'_, DateTime>, items: u32) {
    for _ in 0..items {
        add_run(answers, runs);
    }
}

// Asks for the table's first run after each start, by a new iterator.
fn first(table: &CronTable, starts: &[DateTime]) -> Answers {
    let mut answers = Answers::default();
    for start in starts {
        let mut runs = table.iter_after(*start);
        add_run(&mut answers, &mut runs);
    }
    answers
}

// Adds the next run, where there is one.
fn add_run(answers: &mut Answers, runs: &mut CronTableIterator<'_, DateTime>) {
    if let Some((run, _places)) = runs.next() {
        answers.add(Moment::second(&run));
    }
}
