//! Made-up questions, each asked of a job and of its form in few words.

use crate::draws::Draws;
use crate::patterns::add_pattern;
use croner::errors::CronError;
use croner::parser::CronParser;
use croner::time::table::{ClockTable, TableTime};
use croner::{Clocked, CompactCron, Cron};
use croner_rows::{Fault, Job, Moment, Result, add_series, number_at, shown};
use jiff::civil::DateTime;
use serde_json::Value;
use std::alloc::Global;

/// From how many times each pattern is searched, in both directions.
const STARTS: u32 = 4;

/// The first and the last second of the years 1 to 5000.
const FIRST_SECOND: i64 = -62_135_596_800;

const LAST_SECOND: i64 = 95_649_119_999;

/// The first second of 2000, and about how many seconds forty years and one year have.
const MILLENNIUM: i64 = 946_684_800;

const FORTY_YEARS: u32 = 1_262_304_000;

const YEAR: u32 = 31_557_600;

/// The first change of the clocks, how many there are, and how far apart.
const FIRST_CHANGE: i64 = 952_000_000;

const CHANGES: u32 = 80;

const APART: i64 = 15_700_000;

/// What was asked and found.
#[derive(Clone, Copy)]
struct Counts {
    patterns: u32,
    refused: u32,
    questions: u32,
    runs: u32,
    unlike: u32,
}

/// The clocks on which jobs are searched, beside civil time.
#[derive(Drop)]
struct Tables {
    tables: Vec<ClockTable>,
}

/// Makes up patterns and starts until as many questions are asked as the question's member `count` has. The answer has
/// how many patterns there were, how many texts were refused, how many questions, how many runs were found, and how many
/// answers or kinds of job differ between the two forms.
pub fn alike(alloc: Global, question: &Value) -> Result<Value> {
    let count: u32 = number_at(question, "count")?;
    let mut draws = Draws::new(number_at(question, "seed")?);
    let tables = make_tables(alloc)?;
    let mut counts = Counts {
        patterns: 0,
        refused: 0,
        questions: 0,
        runs: 0,
        unlike: 0,
    };
    for _ in 0..u32::MAX {
        if counts.questions >= count {
            break;
        }
        match made_up(alloc, &mut draws)? {
            Some(job) => {
                counts.patterns = counts.patterns.saturating_add(1);
                ask_job(alloc, &mut draws, &tables, &job.cron, &mut counts)?;
            }
            None => counts.refused = counts.refused.saturating_add(1),
        }
    }
    shown_counts(alloc, counts)
}

// The clock of UTC, one that goes forward and back by an hour, and one that goes forward by a day and less, and back by half an hour and more.
fn make_tables(alloc: Global) -> Result<Tables> {
    let mut tables = Vec::new(alloc);
    tables.push(ClockTable::new(0, Vec::new(alloc))?)?;
    tables.push(table(alloc, 3_600, [7_200, 3_600])?)?;
    tables.push(table(alloc, -86_400, [0, -1_800])?)?;
    Ok(Tables { tables })
}

fn table(alloc: Global, first: i32, offsets: [i32; 2]) -> Result<ClockTable> {
    let mut changes = Vec::new(alloc);
    add_series(
        &mut changes,
        CHANGES,
        FIRST_CHANGE,
        APART,
        (offsets[0], offsets[1]),
    )?;
    Ok(ClockTable::new(first, changes)?)
}

// A job of a made-up text and made-up settings; none where the text is refused.
fn made_up(alloc: Global, draws: &mut Draws) -> Result<Option<Job>> {
    let mut text = String::new(alloc);
    add_pattern(alloc, draws, &mut text)?;
    let parser = CronParser::builder()
        .dom_and_dow(draws.is_one_in(3))
        .alternative_weekdays(draws.is_one_in(3))
        .sloppy_ranges(draws.is_one_in(2))
        .build();
    match parser.parse(alloc, text.as_str()) {
        Ok(cron) => Ok(Some(Job::new(cron))),
        Err(CronError::OutOfMemory) => Err(Fault::OutOfMemory),
        Err(_) => Ok(None),
    }
}

// The questions of one job.
fn ask_job(
    alloc: Global,
    draws: &mut Draws,
    tables: &Tables,
    cron: &Cron,
    counts: &mut Counts,
) -> Result<()> {
    let compact = CompactCron::of(alloc, cron)?;
    if cron.determine_job_type() != compact.determine_job_type() {
        counts.unlike = counts.unlike.saturating_add(1);
    }
    let both = Both {
        cron,
        compact: &compact,
    };
    for _ in 0..STARTS {
        let second = start(draws);
        match tables.tables.get(draws.below(6) as usize) {
            Some(table) => both.ask(draws, &TableTime::new(table, second)?, counts)?,
            None => both.ask(draws, &civil(second)?, counts)?,
        }
    }
    Ok(())
}

// A time to start from: at the edges of the years in one of four cases, near a change of the clocks in another, else within forty years.
fn start(draws: &mut Draws) -> i64 {
    match draws.below(8) {
        0 => FIRST_SECOND.saturating_add(i64::from(draws.below(YEAR))),
        1 => LAST_SECOND.saturating_sub(i64::from(draws.below(YEAR))),
        2 | 3 => {
            let change = APART.saturating_mul(i64::from(draws.below(CHANGES)));
            FIRST_CHANGE
                .saturating_add(change)
                .saturating_add(i64::from(draws.below(14_400)))
                .saturating_sub(7_200)
        }
        _ => MILLENNIUM.saturating_add(i64::from(draws.below(FORTY_YEARS))),
    }
}

fn civil(second: i64) -> Result<DateTime> {
    let epoch = DateTime::new(1970, 1, 1, 0, 0, 0, 0)?;
    epoch.at_second(second).ok_or(Fault::Malformed)
}

// A job in both forms.
#[derive(Clone, Copy)]
struct Both<'j> {
    cron: &'j Cron,
    compact: &'j CompactCron,
}

impl<'j> Both<'j> {
    // Both directions from a time.
    fn ask<T: Moment>(self, draws: &mut Draws, start: &T, counts: &mut Counts) -> Result<()> {
        let inclusive = draws.is_one_in(2);
        count(
            self.cron.find_next_occurrence(start, inclusive),
            self.compact.find_next_occurrence(start, inclusive),
            counts,
        )?;
        count(
            self.cron.find_previous_occurrence(start, inclusive),
            self.compact.find_previous_occurrence(start, inclusive),
            counts,
        )
    }
}

// A question, with the answers of the two forms.
fn count<T: Moment>(
    one: Result<T, CronError>,
    other: Result<T, CronError>,
    counts: &mut Counts,
) -> Result<()> {
    counts.questions = counts.questions.saturating_add(1);
    let is_like = match (one, other) {
        (Ok(one), Ok(other)) => {
            counts.runs = counts.runs.saturating_add(1);
            Moment::second(&one) == Moment::second(&other)
        }
        (Err(CronError::OutOfMemory), _) | (_, Err(CronError::OutOfMemory)) => {
            return Err(Fault::OutOfMemory);
        }
        (Err(one), Err(other)) => shown::refusal(&one) == shown::refusal(&other),
        (Ok(_), Err(_)) | (Err(_), Ok(_)) => false,
    };
    if !is_like {
        counts.unlike = counts.unlike.saturating_add(1);
    }
    Ok(())
}

fn shown_counts(alloc: Global, counts: Counts) -> Result<Value> {
    let Counts {
        patterns,
        refused,
        questions,
        runs,
        unlike,
    } = counts;
    let answer = format!(in alloc;
        "{{\"patterns\":{patterns},\"refused\":{refused},\"questions\":{questions},\"runs\":{runs},\"unlike\":{unlike}}}"
    );
    shown::object(alloc, answer)
}
