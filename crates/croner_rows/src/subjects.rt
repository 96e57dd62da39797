//! Whose runs are asked for, those of a job or of a table of jobs: searches and iterators over them.

use crate::{Caller, Fault, Job, Moment, Result, list, number_at, shown, text};
use croner::crontable::{CronTable, CronTableIterator};
use croner::errors::CronError;
use croner::time::Direction;
use croner::{Cron, CronIterator};
use serde_json::Value;
use std::alloc::Global;

/// Whose runs are asked for.
#[derive(Clone, Copy)]
pub enum Subject<'j> {
    Job(&'j Job),
    Table(&'j CronTable),
}

/// A run, and for a table the places of the jobs that run then.
#[derive(Drop)]
pub struct Run<T> {
    pub instant: T,
    pub places: Option<Vec<usize>>,
}

impl<T: Moment> Run<T> {
    /// A run.
    pub fn new(instant: T, places: Option<Vec<usize>>) -> Run<T> {
        Run { instant, places }
    }

    /// The run of a table.
    pub fn of_table(run: (T, Vec<usize>)) -> Run<T> {
        let (instant, places) = run;
        Run::new(instant, Some(places))
    }

    /// The instant, and after it the places where there are any, as a list.
    pub fn shown(&self, alloc: Global) -> Result<Value> {
        let instant = self.instant.shown(alloc)?;
        match &self.places {
            None => Ok(instant),
            Some(places) => {
                let places = shown::numbers(alloc, places.as_slice())?;
                shown::pair(alloc, instant, places)
            }
        }
    }
}

impl<'j> Subject<'j> {
    /// The nearest run from a time on in a direction.
    pub fn run_from<T: Moment>(
        self,
        position: &T,
        inclusive: bool,
        direction: Direction,
    ) -> Result<Run<T>, CronError> {
        match (self, direction) {
            (Subject::Job(job), Direction::Forward) => {
                let run = job.cron.find_next_occurrence(position, inclusive)?;
                Ok(Run::new(run, None))
            }
            (Subject::Job(job), Direction::Backward) => {
                let run = job.cron.find_previous_occurrence(position, inclusive)?;
                Ok(Run::new(run, None))
            }
            (Subject::Table(table), Direction::Forward) => {
                let run = table.find_next_occurrence(position, inclusive)?;
                Ok(Run::of_table(run))
            }
            (Subject::Table(table), Direction::Backward) => {
                let run = table.find_previous_occurrence(position, inclusive)?;
                Ok(Run::of_table(run))
            }
        }
    }
}

/// How an iterator is made.
#[derive(Clone, Copy)]
pub enum How {
    From(Direction),
    After,
    Before,
}

impl How {
    /// How the iterator of a question is made.
    pub fn read(question: &Value) -> Result<How> {
        match text(question, "how")? {
            "from_forward" => Ok(How::From(Direction::Forward)),
            "from_backward" => Ok(How::From(Direction::Backward)),
            "after" => Ok(How::After),
            "before" => Ok(How::Before),
            _ => Err(Fault::Malformed),
        }
    }

    /// The search whose answer is the first item: its direction, and whether it includes its start.
    pub fn search(self) -> (Direction, bool) {
        match self {
            How::From(direction) => (direction, true),
            How::After => (Direction::Forward, false),
            How::Before => (Direction::Backward, false),
        }
    }
}

/// An iterator over the runs of a job or of a table.
pub enum Runs<'j, T: Moment> {
    OfJob(CronIterator<T>),
    OfTable(CronTableIterator<'j, T>),
}

// By hand, as that of `Job`.
impl<T: Moment> Drop for Runs<'_, T> {
    fn drop(self) {
        match self {
            Runs::OfJob(_) => {}
            Runs::OfTable(_) => {}
        }
    }
}

impl<'j, T: Moment> Runs<'j, T> {
    /// The runs of a subject from a start.
    pub fn new(subject: Subject<'j>, start: T, how: How) -> Result<Runs<'j, T>, CronError> {
        match subject {
            Subject::Job(job) => Ok(Runs::OfJob(match how {
                How::From(direction) => job.cron.iter_from(start, direction)?,
                How::After => job.cron.iter_after(start)?,
                How::Before => job.cron.iter_before(start)?,
            })),
            Subject::Table(table) => Ok(Runs::OfTable(match how {
                How::From(direction) => table.iter_from(start, direction),
                How::After => table.iter_after(start),
                How::Before => table.iter_before(start),
            })),
        }
    }

    /// A copy of the iterator.
    pub fn copied(&self) -> Result<Runs<'j, T>> {
        match self {
            Runs::OfJob(runs) => Ok(Runs::OfJob(runs.clone()?)),
            Runs::OfTable(runs) => Ok(Runs::OfTable(runs.clone()?)),
        }
    }

    /// What the next call gives.
    pub fn next(&mut self) -> Option<Run<T>> {
        match self {
            Runs::OfJob(runs) => Some(Run::new(runs.next()?, None)),
            Runs::OfTable(runs) => Some(Run::of_table(runs.next()?)),
        }
    }

    /// The fault that the iterator keeps.
    pub fn fault(&self) -> Option<&CronError> {
        match self {
            Runs::OfJob(runs) => runs.fault(),
            Runs::OfTable(runs) => runs.fault(),
        }
    }

    /// The name of the fault that the iterator keeps.
    pub fn fault_name(&self) -> &'static str {
        match self.fault() {
            Some(error) => shown::refusal(error),
            None => "no fault",
        }
    }

    /// Whether the fault that the iterator keeps is lack of memory.
    pub fn lacks_memory(&self) -> bool {
        matches!(self.fault(), Some(CronError::OutOfMemory))
    }

    /// The answer of one call.
    pub fn item(&mut self, alloc: Global) -> Result<Value> {
        let run = self.next();
        self.shown(alloc, run)
    }

    /// The answer of a call that gave this: where a fault is kept, the name of the fault, and else the item, or null for None. Lack
    /// of memory is a fault.
    pub fn shown(&self, alloc: Global, run: Option<Run<T>>) -> Result<Value> {
        if let Some(fault) = self.fault() {
            return shown::refusal_value(alloc, fault);
        }
        match run {
            Some(run) => run.shown(alloc),
            None => Ok(Value::Null),
        }
    }
}

/// A table of jobs.
pub struct Table {
    pub jobs: CronTable,
}

// By hand, as that of `Job`.
impl Drop for Table {
    fn drop(self) {
        let Table { jobs: _ } = self;
    }
}

impl Table {
    /// The table of the patterns of a question.
    pub fn read(alloc: Global, question: &Value) -> Result<Table> {
        let mut jobs = CronTable::new(alloc);
        for pattern in list(question, "patterns")? {
            jobs.push(Job::read(alloc, pattern)?.into_cron())?;
        }
        Ok(Table { jobs })
    }

    /// Makes the change of a question, and gives the job that comes out.
    pub fn change(&mut self, caller: Caller<'_>, question: &Value) -> Result<Option<Job>> {
        let (change, place) = (text(question, "change")?, number_at(question, "place")?);
        let by = match question.get("by") {
            Some(by) => Some(Job::read(caller.alloc, by)?),
            None => None,
        };
        caller.begin();
        let out = change_jobs(&mut self.jobs, change, place, by);
        caller.end();
        out
    }
}

fn change_jobs(
    jobs: &mut CronTable,
    change: &str,
    place: usize,
    by: Option<Job>,
) -> Result<Option<Job>> {
    match (change, by) {
        ("replace", Some(by)) => Ok(job_out(jobs.replace(place, by.into_cron()))),
        ("remove", None) => Ok(job_out(jobs.remove(place))),
        ("clear", None) => {
            jobs.clear();
            Ok(None)
        }
        _ => Err(Fault::Malformed),
    }
}

fn job_out(cron: Option<Cron>) -> Option<Job> {
    match cron {
        Some(cron) => Some(Job::new(cron)),
        None => None,
    }
}
