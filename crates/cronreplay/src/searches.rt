//! Searches for runs from a start, and what a clock shows there.

use croner::CompactCron;
use croner::crontable::CronTable;
use croner::errors::CronError;
use croner::time::Direction;
use croner_rows::{
    Caller, Job, Moment, OverTime, Result, Run, Subject, add_time, add_time_and_job, flag,
    number_at, over_time, shown,
};
use serde_json::Value;
use std::alloc::Global;

/// So many searches in a direction, each from the run before; whether the first may find its start.
#[derive(Clone, Copy)]
pub struct Search {
    pub direction: Direction,
    pub inclusive: bool,
    pub count: u64,
}

impl Search {
    // The searches of a question.
    fn read(question: &Value, direction: Direction) -> Result<Search> {
        let (inclusive, count) = (flag(question, "inclusive")?, number_at(question, "count")?);
        Ok(Search {
            direction,
            inclusive,
            count,
        })
    }

    /// The runs from a start on, nearest first. Where a search is refused, the refusal is the last item.
    pub fn runs<T: Moment>(
        self,
        caller: Caller<'_>,
        searched: Searched<'_>,
        start: &T,
    ) -> Result<Value> {
        let mut runs = Vec::new(caller.alloc);
        let mut last = None;
        for _ in 0..self.count {
            let next = match &last {
                None => self.add_run(caller, searched, (start, self.inclusive), &mut runs)?,
                Some(run) => self.add_run(caller, searched, (run, false), &mut runs)?,
            };
            if next.is_none() {
                break;
            }
            last = next;
        }
        Ok(Value::Array(runs))
    }

    // Adds the run from a time on, which may be that time, to others. Where the search is refused, that is added, and nothing is given.
    fn add_run<T: Moment>(
        self,
        caller: Caller<'_>,
        searched: Searched<'_>,
        (from, inclusive): (&T, bool),
        runs: &mut Vec<Value>,
    ) -> Result<Option<T>> {
        caller.begin();
        let found = searched.run_from(from, inclusive, self.direction);
        caller.end();
        match found {
            Ok(run) => {
                runs.push(run.shown(caller.alloc)?)?;
                Ok(Some(run.instant))
            }
            Err(refused) => {
                runs.push(shown::refusal_value(caller.alloc, &refused)?)?;
                Ok(None)
            }
        }
    }
}

/// What is searched.
#[derive(Clone, Copy)]
pub enum Searched<'j> {
    Subject(Subject<'j>),
    Compact(&'j CompactCron),
}

impl<'j> Searched<'j> {
    // The nearest run from a time on in a direction.
    fn run_from<T: Moment>(
        self,
        position: &T,
        inclusive: bool,
        direction: Direction,
    ) -> Result<Run<T>, CronError> {
        match (self, direction) {
            (Searched::Subject(subject), _) => subject.run_from(position, inclusive, direction),
            (Searched::Compact(job), Direction::Forward) => {
                Ok(Run::new(job.find_next_occurrence(position, inclusive)?, None))
            }
            (Searched::Compact(job), Direction::Backward) => {
                Ok(Run::new(job.find_previous_occurrence(position, inclusive)?, None))
            }
        }
    }
}

// Searches for runs of a subject.
#[derive(Clone, Copy)]
struct Searching<'j> {
    subject: Subject<'j>,
    search: Search,
}

impl<'j> OverTime for Searching<'j> {
    fn answer<T: Moment>(&self, caller: Caller<'_>, start: T, after: &mut String) -> Result<Value> {
        let found = found(caller, self.search, self.subject, &start);
        add_start_and_subject(caller.alloc, &start, self.subject, after)?;
        found
    }
}

// The runs of a subject; of a job if its form in few words has the same, or else those of both forms.
fn found<T: Moment>(
    caller: Caller<'_>,
    search: Search,
    subject: Subject<'_>,
    start: &T,
) -> Result<Value> {
    let found = search.runs(caller, Searched::Subject(subject), start)?;
    match subject {
        Subject::Job(job) => compared(caller.without_marks(), search, job, start, found),
        Subject::Table(_) => Ok(found),
    }
}

fn compared<T: Moment>(
    caller: Caller<'_>,
    search: Search,
    job: &Job,
    start: &T,
    found: Value,
) -> Result<Value> {
    let compact = CompactCron::of(caller.alloc, &job.cron)?;
    let found_compactly = search.runs(caller, Searched::Compact(&compact), start)?;
    if found_compactly == found {
        return Ok(found);
    }
    shown::pair(caller.alloc, found, found_compactly)
}

fn add_start_and_subject<T: Moment>(
    alloc: Global,
    start: &T,
    subject: Subject<'_>,
    text: &mut String,
) -> Result<()> {
    match subject {
        Subject::Job(job) => add_time_and_job(alloc, start, job, text),
        Subject::Table(table) => {
            add_time(alloc, start, text)?;
            let texts = job_texts(alloc, table, table.len())?;
            Ok(write!(text, " {texts}")?)
        }
    }
}

/// The texts of the first jobs of a table, in order.
pub fn job_texts(alloc: Global, table: &CronTable, count: usize) -> Result<Value> {
    let mut texts = Vec::new(alloc);
    for job in table.iter().take(count) {
        texts.push(shown::text(alloc, job.as_str())?)?;
    }
    Ok(Value::Array(texts))
}

/// Searches for runs of a subject from the start of a question, and afterwards the start and the subject.
pub fn runs_from_start(
    caller: Caller<'_>,
    question: &Value,
    subject: Subject<'_>,
    direction: Direction,
    after: &mut String,
) -> Result<Value> {
    let search = Search::read(question, direction)?;
    over_time(caller, question, &Searching { subject, search }, after)
}

// What a time shows.
#[derive(Clone, Copy)]
struct Reading;

impl OverTime for Reading {
    fn answer<T: Moment>(&self, caller: Caller<'_>, time: T, after: &mut String) -> Result<Value> {
        caller.begin();
        let (civil, weekday) = (time.to_civil(), time.civil_weekday());
        let same = time.cmp_instant(&time).is_eq();
        caller.end();
        add_time(caller.alloc, &time, after)?;
        if !same {
            return Ok(Value::Null);
        }
        let weekday = weekday.num_days_from_sunday();
        let text = format!(in caller.alloc; "[\"{civil}\",{weekday}]");
        shown::object(caller.alloc, text)
    }
}

/// What the start of a question shows, and the weekday from Sunday. It is null where the start isn't the same instant as
/// itself.
pub fn shown_at_start(caller: Caller<'_>, question: &Value, after: &mut String) -> Result<Value> {
    over_time(caller, question, &Reading, after)
}
