//! Counts of starts: at a second, in an hour, on a day.
ghost use Rattle.std.specs.Prelude.{◌≡◌, ◌+◌, ◌<◌, ◌≤◌, ◌^◌, ◌↔◌, ℤ, IsTrue, IfOk, OnOk, if◌then◌else◌, length, unwrap_or};
ghost use Rattle.std.specs.BTreeMap.{get};
ghost use Rattle.std.specs.Ordering.{int_cmp, int_eq};
ghost use Rattle.cronplan.specs.Counts.{key_of, hour_of, date_of, starts_at, added_at, count_of, HasNoZero, IsFrequent};

use crate::start::JobStart;
use croner_base::limits::SECONDS_PER_DAY;
use std::alloc::{AllocError, Global};
use std::collections::BTreeMap;

/// The unit by which starts are counted. Hours and days are those that the clock shows.
#[derive(Debug, Clone, Copy)]
pub enum Unit {
    /// The second, counted from 1970-01-01T00:00:00 UTC.
    Second,
    /// The hour of its date, counted from 1970-01-01T00:00:00.
    Hour,
    /// The date, counted from 1970-01-01.
    Day,
    /// The hour of the day, from 0 to 23, whatever its date.
    HourOfDay,
}

const SECONDS_PER_HOUR: i64 = 3_600;

const HOURS_PER_DAY: i64 = 24;

// The second, hour or day of a start.
fn key_of(start: &JobStart, unit: Unit) -> i64
    ensures { result ≡ key_of unit start.now }
{
    match unit {
        Unit::Second => start.second,
        Unit::Hour => hour_of(start.wall),
        Unit::Day => date_of(start.wall),
        Unit::HourOfDay => hour_of(start.wall).rem_euclid(HOURS_PER_DAY),
    }
}

/// The hour of a wall second, counted from 1970-01-01T00:00:00.
pub(crate) fn hour_of(wall: i64) -> i64
    ensures { result ≡ hour_of wall }
{
    wall.div_euclid(SECONDS_PER_HOUR)
}

/// The date of a wall second, counted from 1970-01-01.
pub(crate) fn date_of(wall: i64) -> i64
    ensures { result ≡ date_of wall }
{
    wall.div_euclid(i64::from(SECONDS_PER_DAY))
}

// Counts a start in its second, hour or day, and returns how many are counted there now.
#[tactic(auto, using(crate::proofs::CountedStarts::added_at_small))]
fn add_start(
    counts: &mut BTreeMap<i64, u64>,
    start: &JobStart,
    unit: Unit,
) -> Result<u64, AllocError>
    requires { (q : ℤ) → unwrap_or (get int_cmp counts.old q) 0 ≤ 2 ^ 63 }
    ensures added { OnOk result ((q : ℤ) → unwrap_or (get int_cmp counts.new q) 0 ≡ unwrap_or (get int_cmp counts.old q) 0 + added_at unit q start.now) }
    ensures few { OnOk result ((q : ℤ) → unwrap_or (get int_cmp counts.new q) 0 ≤ unwrap_or (get int_cmp counts.old q) 0 + 2 ^ 32) }
    ensures count { IfOk result (λ n. n ≡ unwrap_or (get int_cmp counts.new (key_of unit start.now)) 0) }
    ensures no_zero { HasNoZero counts.old → OnOk result (HasNoZero counts.new) }
{
    let key = key_of(start, unit);
    let had = counts.get(&key).copied().unwrap_or(0);
    let count = had + u64::from(start.count);
    put_count(counts, key, count)?;
    Ok(count)
}

// Puts the count of a second, hour or day in place of the one before it; a count of 0 is left out. It isn't less than that one.
fn put_count(counts: &mut BTreeMap<i64, u64>, key: i64, count: u64) -> Result<(), AllocError>
    requires { unwrap_or (get int_cmp counts.old key) 0 ≤ count }
    ensures put { OnOk result ((q : ℤ) → unwrap_or (get int_cmp counts.new q) 0 ≡ (if int_eq key q then count else unwrap_or (get int_cmp counts.old q) 0)) }
    ensures no_zero { HasNoZero counts.old → OnOk result (HasNoZero counts.new) }
{
    if count == 0 {
        return Ok(());
    }
    counts.insert(key, count)?;
    Ok(())
}

/// How many starts there are at each second, in each hour or on each day that has one.
///
/// There may be 2^31 starts at most. The only error is lack of memory.
#[tactic(auto, using(crate::proofs::CountedStarts::counted))]
pub(crate) fn counts_by(
    alloc: Global,
    starts: &[JobStart],
    unit: Unit,
) -> Result<BTreeMap<i64, u64>, AllocError>
    requires { length starts.now ≤ 2 ^ 31 }
    ensures counts { IfOk result (λ m. (q : ℤ) → unwrap_or (get int_cmp m q) 0 ≡ starts_at unit q starts.now) }
    ensures no_zero { IfOk result HasNoZero }
{
    let mut counts = BTreeMap::new(alloc);
    for start in starts {
        add_start(&mut counts, start, unit)?;
    }
    Ok(counts)
}

/// Whether some date that the clock shows has more than `most_a_day` of these starts.
///
/// There may be 2^31 starts at most. The only error is lack of memory.
#[tactic(auto, using(crate::proofs::CountedStarts::counted))]
pub fn is_frequent(alloc: Global, starts: &[JobStart], most_a_day: u64) -> Result<bool, AllocError>
    requires { length starts.now ≤ 2 ^ 31 }
    ensures { IfOk result (λ b. IsTrue b ↔ IsFrequent most_a_day starts.now) }
{
    let mut counts = BTreeMap::new(alloc);
    for start in starts {
        if add_start(&mut counts, start, Unit::Day)? > most_a_day {
            return Ok(true);
        }
    }
    Ok(false)
}

/// How many starts these are, by their counts. The slice may have 2^31 elements at most.
pub fn count_of(starts: &[JobStart]) -> u64
    requires { length starts.now ≤ 2 ^ 31 }
    ensures { result ≡ count_of starts.now }
{
    let mut count = 0;
    for start in starts {
        count += u64::from(start.count);
    }
    count
}
