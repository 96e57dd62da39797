//! The clocks: civil time, that of Paris, as a table of its changes and as a rule, two with one gap, and one that never changes.

use crate::answers::Answers;
use crate::passes::RunCall;
use crate::starts::{FIRST_SECOND, civil_at, far_seconds, seconds};
use crate::watch::Watch;
use croner::time::table::{ClockTable, TableTime};
use croner_rows::{Job, Result, add_series};
use jiff::civil::{DateTime, Weekday};
use jiff::tz::TimeZone;
use jiff::{Error, Timestamp, Zoned};
use std::alloc::{AllocError, Global};

/// Summer time from the last Sunday of March to the last Sunday of October, at 1:00 UTC.
const RULE: &str = "CET-1CEST,M3.5.0,M10.5.0/3";

const SUMMER_OFFSET: i32 = 7_200;

const WINTER_OFFSET: i32 = 3_600;

const FIRST_YEAR: i16 = 2020;

const LAST_YEAR: i16 = 2059;

const MARCH: i8 = 3;

const OCTOBER: i8 = 10;

/// How long the gaps are, in seconds.
const HOUR: i32 = 3_600;

const DAY: i32 = 86_400;

/// A clock, and the times from which searches start there.
#[derive(Clone, Copy)]
pub enum Clock {
    /// Civil time.
    Civil,
    /// Civil time, and its first time alone.
    FirstSecond,
    /// The rule of Paris, in every year.
    Zoned,
    Table(TableClock),
}

/// A clock that is a table of changes.
#[derive(Clone, Copy)]
pub enum TableClock {
    /// The changes in Paris of 2020 to 2059. Before the first it is winter time, and after the last too.
    Paris,
    /// The same changes among 20,000.
    Long,
    /// That clock, from times that are far apart.
    FarOnLong,
    /// A clock that goes forward by an hour at the first second; the start is the last second before.
    GapOfAnHour,
    /// A clock that goes forward by a day then.
    GapOfADay,
    /// UTC.
    Utc,
}

impl Clock {
    /// What a call of each job gives from the clock's times. Only the calls are measured.
    pub fn answers(
        self,
        alloc: Global,
        jobs: &[Job],
        call: RunCall,
        watch: &mut Watch<'_>,
    ) -> Result<Answers> {
        match self {
            Clock::Civil => Ok(call.answers(jobs, civil_times(alloc)?.as_slice(), watch)?),
            Clock::FirstSecond => Ok(call.answers(jobs, &[civil_at(FIRST_SECOND)?], watch)?),
            Clock::Zoned => Ok(call.answers(jobs, zoned_times(alloc)?.as_slice(), watch)?),
            Clock::Table(clock) => clock.answers(alloc, jobs, call, watch),
        }
    }
}

/// The times of civil time.
pub fn civil_times(alloc: Global) -> Result<Vec<DateTime>> {
    let mut times = Vec::new(alloc);
    for second in seconds(alloc)? {
        times.push(civil_at(second)?)?;
    }
    Ok(times)
}

fn zoned_times(alloc: Global) -> Result<Vec<Zoned<'static>>> {
    let zone = TimeZone::posix(RULE)?;
    let mut times = Vec::new(alloc);
    for second in seconds(alloc)? {
        times.push(Timestamp::from_second(second)?.to_zoned(zone))?;
    }
    Ok(times)
}

impl TableClock {
    fn answers(
        self,
        alloc: Global,
        jobs: &[Job],
        call: RunCall,
        watch: &mut Watch<'_>,
    ) -> Result<Answers> {
        let table = self.table(alloc)?;
        let times = self.times(alloc, &table)?;
        Ok(call.answers(jobs, times.as_slice(), watch)?)
    }

    /// The table.
    pub fn table(self, alloc: Global) -> Result<ClockTable> {
        match self {
            TableClock::Paris => table(alloc),
            TableClock::Long | TableClock::FarOnLong => long_table(alloc),
            TableClock::GapOfAnHour => gap_of(alloc, HOUR),
            TableClock::GapOfADay => gap_of(alloc, DAY),
            TableClock::Utc => Ok(ClockTable::new(0, Vec::new(alloc))?),
        }
    }

    fn times<'t>(self, alloc: Global, table: &'t ClockTable) -> Result<Vec<TableTime<'t>>> {
        let mut times = Vec::new(alloc);
        for second in self.seconds(alloc)? {
            times.push(TableTime::new(table, second)?)?;
        }
        Ok(times)
    }

    fn seconds(self, alloc: Global) -> Result<Vec<i64>, AllocError> {
        match self {
            TableClock::Paris | TableClock::Long | TableClock::Utc => seconds(alloc),
            TableClock::FarOnLong => far_seconds(alloc),
            TableClock::GapOfAnHour | TableClock::GapOfADay => {
                let mut seconds = Vec::new(alloc);
                seconds.push(FIRST_SECOND - 1)?;
                Ok(seconds)
            }
        }
    }
}

fn table(alloc: Global) -> Result<ClockTable> {
    let mut changes = Vec::new(alloc);
    add_changes(&mut changes)?;
    Ok(ClockTable::new(WINTER_OFFSET, changes)?)
}

fn gap_of(alloc: Global, seconds: i32) -> Result<ClockTable> {
    let mut changes = Vec::new(alloc);
    changes.push((FIRST_SECOND, seconds))?;
    Ok(ClockTable::new(0, changes)?)
}

fn add_changes(changes: &mut Vec<(i64, i32)>) -> Result<()> {
    for year in FIRST_YEAR..=LAST_YEAR {
        changes.push((change_in(year, MARCH)?, SUMMER_OFFSET))?;
        changes.push((change_in(year, OCTOBER)?, WINTER_OFFSET))?;
    }
    Ok(())
}

// 1:00 UTC of the last Sunday of a month, in seconds from 1970-01-01T00:00:00.
fn change_in(year: i16, month: i8) -> Result<i64, Error> {
    let first = DateTime::new(year, month, 1, 1, 0, 0, 0)?;
    let change = first.nth_weekday_of_month(-1, Weekday::Sunday)?;
    Ok(change.to_plain().to_second())
}

/// How many changes the long table has before the first of 2020, and how many after the last of 2059.
const BESIDE: u32 = 9_960;

/// How many seconds these are apart.
const APART_SECONDS: i64 = 3_000_000;

/// The offsets at them, in turn.
const OFFSETS_BESIDE: (i32, i32) = (WINTER_OFFSET + 1, WINTER_OFFSET);

/// How many seconds lie from the first of them to the first of 2020.
const SECONDS_BEFORE: i64 = 29_880_000_000;

// The changes of the table among 20,000, the most that one may have in the years 1 to 5000. At the others, 3,000,000 seconds
// apart, the clock goes forward and back by a second in turn.
fn long_table(alloc: Global) -> Result<ClockTable> {
    let mut changes = Vec::new(alloc);
    let first = change_in(FIRST_YEAR, MARCH)?;
    let before = first.saturating_sub(SECONDS_BEFORE);
    add_series(&mut changes, BESIDE, before, APART_SECONDS, OFFSETS_BESIDE)?;
    add_changes(&mut changes)?;
    let last = change_in(LAST_YEAR, OCTOBER)?;
    let after = last.saturating_add(APART_SECONDS);
    add_series(&mut changes, BESIDE, after, APART_SECONDS, OFFSETS_BESIDE)?;
    Ok(ClockTable::new(WINTER_OFFSET, changes)?)
}
