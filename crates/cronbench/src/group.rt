//! The groups of calls that are measured.

use crate::answers::Answers;
use crate::clocks::{Clock, TableClock};
use crate::forms::JobForm;
use crate::hostile::read_hostile;
use crate::many::{ITEMS, JobTable, LONG_ITEMS, TableCall, next_of_each};
use crate::passes::{RunCall, compare, copy, describe, parse, read};
use crate::scheduler;
use crate::scheduler::Call;
use crate::starts::BEFORE_MONDAY;
use crate::watch::Watch;
use croner::describe::lang::english::English;
use croner::describe::lang::swedish::Swedish;
use croner::time::table::TableTime;
use croner::{CompactCron, Cron};
use croner_rows::{Job, Result};
use std::alloc::Global;
use std::slice::from_ref;

/// A zone in which a scheduler's jobs run.
#[derive(Clone, Copy)]
pub enum JobZone {
    Utc,
    Paris,
}

/// How many jobs a scheduler has.
const THOUSAND: u32 = 1_000;

const HUNDRED_THOUSAND: u32 = 100_000;

/// A pattern whose date occurs in 15 of 400 years.
const LEAP_MONDAY: &str = "0 0 29 2 +MON";

/// A pattern for every second.
const EACH_SECOND: &str = "* * * * * *";

/// A pattern for every hour.
const HOURLY: &str = "0 * * * *";

/// A pattern for twelve times an hour.
const OFTEN: &str = "*/5 * * * *";

/// A pattern whose date never occurs.
const NO_DATE: &str = "0 0 31 2 *";

/// A pattern for every second year, from year 1 on, whose date never occurs.
const NO_DATE_IN_ODD_YEARS: &str = "0 0 0 31 2 * */2";

/// A pattern whose minutes name nothing.
const NO_MINUTE: &str = ", * * * *";

/// A group of calls of one kind.
#[derive(Clone, Copy)]
pub enum Group {
    /// Each pattern is read.
    Parse,
    /// Each job is described.
    DescribeEnglish,
    DescribeSwedish,
    /// Each job is compared with its clone.
    Compare,
    /// Each job is cloned.
    Copy,
    /// Texts that no crontab has are read, of so many bytes.
    Hostile(usize),
    /// A call of each job, on a clock.
    Runs(RunCall, Clock),
    /// The next runs of one pattern, on a clock.
    NextOf(&'static str, Clock),
    /// The next run of many jobs, each by itself.
    NextOfEach,
    /// A call of a table of many jobs.
    Table(TableCall, JobTable),
    /// Calls of a scheduler, whose jobs have a form.
    Scheduler(JobForm, Calls),
}

/// Calls of a scheduler: of one kind, on so many jobs, in a zone.
#[derive(Clone, Copy)]
pub struct Calls(Call, u32, JobZone);

/// Every group and its name, but those of a scheduler, in the order in which they are shown.
pub const GROUPS: [(Group, &str); 33] = [
    (Group::Parse, "parse"),
    (
        Group::Runs(RunCall::Match, Clock::Civil),
        "match, civil time",
    ),
    (
        Group::Runs(RunCall::Next, Clock::Civil),
        "next run, civil time",
    ),
    (
        Group::Runs(RunCall::Previous, Clock::Civil),
        "previous run, civil time",
    ),
    (
        Group::Runs(RunCall::Next, Clock::Table(TableClock::Paris)),
        "next run, table",
    ),
    (
        Group::Runs(RunCall::Next, Clock::Zoned),
        "next run, time zone",
    ),
    (
        Group::Runs(RunCall::Iterate, Clock::Civil),
        "1,000 runs, civil time",
    ),
    (
        Group::Runs(RunCall::Iterate, Clock::Table(TableClock::Paris)),
        "1,000 runs, table",
    ),
    (Group::DescribeEnglish, "describe, English"),
    (Group::DescribeSwedish, "describe, Swedish"),
    (Group::Compare, "clone and compare"),
    (Group::Copy, "clone"),
    (
        Group::NextOf(LEAP_MONDAY, Clock::Civil),
        "next run of 0 0 29 2 +MON",
    ),
    (
        Group::NextOf(NO_DATE, Clock::FirstSecond),
        "next run of 0 0 31 2 *",
    ),
    (
        Group::NextOf(NO_DATE_IN_ODD_YEARS, Clock::FirstSecond),
        "next run of 0 0 0 31 2 * */2",
    ),
    (
        Group::NextOf(NO_MINUTE, Clock::FirstSecond),
        "next run of , * * * *",
    ),
    (
        Group::Runs(RunCall::Next, Clock::Table(TableClock::Long)),
        "next run, table of 20,000 changes",
    ),
    (
        Group::Runs(RunCall::Next, Clock::Table(TableClock::FarOnLong)),
        "next run, far on that table",
    ),
    (Group::Hostile(10_000), "hostile texts of 10,000 bytes"),
    (Group::Hostile(100_000), "hostile texts of 100,000 bytes"),
    (
        Group::Hostile(1_000_000),
        "hostile texts of 1,000,000 bytes",
    ),
    (
        Group::NextOfEach,
        "next run of 1,000 patterns, each by itself",
    ),
    (
        Group::Table(TableCall::Next, JobTable::Thousand),
        "next run of a table of 1,000 patterns",
    ),
    (
        Group::Table(TableCall::Iterate(ITEMS), JobTable::Thousand),
        "64 runs of a table of 1,000 patterns",
    ),
    (
        Group::Table(TableCall::IterateLater, JobTable::Thousand),
        "runs 3 to 64 of a table of 1,000 patterns",
    ),
    (
        Group::Table(TableCall::First, JobTable::Thousand),
        "first run of an iterator over that table",
    ),
    (
        Group::Table(TableCall::Iterate(ITEMS), JobTable::Daily),
        "64 runs of a table of 1,000 patterns, one at a time",
    ),
    (
        Group::Table(TableCall::Iterate(LONG_ITEMS), JobTable::Daily),
        "10,000 runs of that table",
    ),
    (
        Group::Table(TableCall::Iterate(ITEMS), JobTable::HundredThousand),
        "64 runs of a table of 100,000 patterns",
    ),
    (
        Group::NextOf(EACH_SECOND, Clock::Table(TableClock::GapOfAnHour)),
        "next run of * * * * * *, over a gap of an hour",
    ),
    (
        Group::NextOf(EACH_SECOND, Clock::Table(TableClock::GapOfADay)),
        "next run of * * * * * *, over a gap of a day",
    ),
    (
        Group::NextOf(HOURLY, Clock::Table(TableClock::GapOfAnHour)),
        "next run of 0 * * * *, over a gap of an hour",
    ),
    (
        Group::NextOf(OFTEN, Clock::Table(TableClock::GapOfAnHour)),
        "next run of */5 * * * *, over a gap of an hour",
    ),
];

/// The calls of a scheduler and their names, which are shown after the others for each form of job.
pub const SCHEDULERS: [(Calls, &str); 16] = [
    (
        Calls(Call::WakeMany, THOUSAND, JobZone::Utc),
        "wake-up of 1,000 jobs, 4 in 100 run, UTC",
    ),
    (
        Calls(Call::WakeOne, THOUSAND, JobZone::Utc),
        "wake-up of 1,000 jobs, one runs, UTC",
    ),
    (
        Calls(Call::Add, THOUSAND, JobZone::Utc),
        "a job that comes to 1,000, UTC",
    ),
    (
        Calls(Call::Remove, THOUSAND, JobZone::Utc),
        "a job that goes from 1,000, UTC",
    ),
    (
        Calls(Call::WakeMany, HUNDRED_THOUSAND, JobZone::Utc),
        "wake-up of 100,000 jobs, 4 in 100 run, UTC",
    ),
    (
        Calls(Call::WakeOne, HUNDRED_THOUSAND, JobZone::Utc),
        "wake-up of 100,000 jobs, one runs, UTC",
    ),
    (
        Calls(Call::Add, HUNDRED_THOUSAND, JobZone::Utc),
        "a job that comes to 100,000, UTC",
    ),
    (
        Calls(Call::Remove, HUNDRED_THOUSAND, JobZone::Utc),
        "a job that goes from 100,000, UTC",
    ),
    (
        Calls(Call::WakeMany, THOUSAND, JobZone::Paris),
        "wake-up of 1,000 jobs, 4 in 100 run, Paris",
    ),
    (
        Calls(Call::WakeOne, THOUSAND, JobZone::Paris),
        "wake-up of 1,000 jobs, one runs, Paris",
    ),
    (
        Calls(Call::Add, THOUSAND, JobZone::Paris),
        "a job that comes to 1,000, Paris",
    ),
    (
        Calls(Call::Remove, THOUSAND, JobZone::Paris),
        "a job that goes from 1,000, Paris",
    ),
    (
        Calls(Call::WakeMany, HUNDRED_THOUSAND, JobZone::Paris),
        "wake-up of 100,000 jobs, 4 in 100 run, Paris",
    ),
    (
        Calls(Call::WakeOne, HUNDRED_THOUSAND, JobZone::Paris),
        "wake-up of 100,000 jobs, one runs, Paris",
    ),
    (
        Calls(Call::Add, HUNDRED_THOUSAND, JobZone::Paris),
        "a job that comes to 100,000, Paris",
    ),
    (
        Calls(Call::Remove, HUNDRED_THOUSAND, JobZone::Paris),
        "a job that goes from 100,000, Paris",
    ),
];

impl Calls {
    // Makes the calls on jobs of a form.
    fn pass(self, alloc: Global, form: JobForm, watch: &mut Watch<'_>) -> Result<Answers> {
        let Calls(call, jobs, zone) = self;
        let table = match zone {
            JobZone::Utc => TableClock::Utc.table(alloc)?,
            JobZone::Paris => TableClock::Paris.table(alloc)?,
        };
        let start = TableTime::new(&table, BEFORE_MONDAY)?;
        let answers = match form {
            JobForm::Whole => scheduler::pass::<Cron>(alloc, call, jobs, start, watch)?,
            JobForm::Compact => scheduler::pass::<CompactCron>(alloc, call, jobs, start, watch)?,
        };
        Ok(answers)
    }
}

impl Group {
    /// Makes each call of the group once, on these patterns and their jobs. What comes before a restart of the watch is not measured.
    pub fn pass(
        self,
        alloc: Global,
        patterns: &[String],
        jobs: &[Job],
        watch: &mut Watch<'_>,
    ) -> Result<Answers> {
        match self {
            Group::Parse => Ok(parse(alloc, patterns)?),
            Group::DescribeEnglish => Ok(describe(jobs, English)?),
            Group::DescribeSwedish => Ok(describe(jobs, Swedish)?),
            Group::Compare => Ok(compare(jobs)?),
            Group::Copy => Ok(copy(jobs)?),
            Group::Hostile(bytes) => Ok(read_hostile(alloc, bytes, watch)?),
            Group::Runs(call, clock) => clock.answers(alloc, jobs, call, watch),
            Group::NextOf(pattern, clock) => next_of(alloc, pattern, clock, watch),
            Group::NextOfEach => next_of_each(alloc, jobs, watch),
            Group::Table(call, table) => table.answers(alloc, patterns, call, watch),
            Group::Scheduler(form, calls) => calls.pass(alloc, form, watch),
        }
    }
}

fn next_of(alloc: Global, pattern: &str, clock: Clock, watch: &mut Watch<'_>) -> Result<Answers> {
    let job = read(alloc, pattern)?;
    clock.answers(alloc, from_ref(&job), RunCall::Next, watch)
}
