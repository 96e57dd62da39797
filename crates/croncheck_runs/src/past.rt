//! The clock of a zone up to a second, for the runs before it.
ghost use Rattle.std.specs.Prelude.{◌≡◌, false, pos, ◌-ℤ◌, None, IfOk, IfSome, MatchOption};
ghost use Rattle.std.specs.Bool.{OnTrue, OnFalse};
ghost use Rattle.jiff.specs.ZoneView.{plain_zone};
ghost use Rattle.croner_base.specs.Table.{is_table_second};
ghost use Rattle.croner_base.specs.ZoneTable.{IsWindow, IsCalmWindow};
ghost use Rattle.croncheck_runs.specs.Clock.{IsHeldStart};
ghost use Rattle.croncheck_runs.specs.Past.{reach_of, IsFollowedFrom, IsPastClock, IsNoPast};
ghost use Rattle.croncheck_runs.specs.Previous.{IsAskedOf};

use crate::clock::{FIRST_START, LAST_SECOND};
use crate::previous::Previous;
use croner::errors::CronError;
use croner::time::table::{ClockTable, TableTime};
use croner_base::limits::FIRST_SEARCHED_SECOND;
use jiff::tz::TimeZone;
use std::alloc::{AllocError, Global};

/// How many seconds after the first one of a window the runs on its clock begin to be those of the zone.
const MARGIN: i64 = 180_000;

/// The clock of a zone up to a second, from the beginning of year 1 on, or from where it is calm up to that second.
///
/// In this window it shows what the zone shows.
pub struct PastClock {
    table: ClockTable,
    first: i64,
    last: i64,
    from: i64,
    is_whole: bool,
}

// By hand, as that of `Clock`.
impl Drop for PastClock {
    fn drop(self) {
        let PastClock {
            table: _,
            first: _,
            last: _,
            from: _,
            is_whole: _,
        } = self;
    }
}

impl PastClock {
    /// The clock of a zone up to a second, which is given in seconds since 1970-01-01T00:00:00 UTC. `None` if the second lies outside
    /// -377,704,764,001 to 95,649,206,399, or if the zone's clock isn't calm at the second itself.
    ///
    /// The only error is lack of memory.
    #[tactic(auto, using(crate::proofs::PastClocks::no_past, crate::proofs::PastClocks::no_past_outside))]
    pub fn of(
        alloc: Global,
        zone: &TimeZone<'_>,
        last: i64,
    ) -> Result<Option<PastClock>, AllocError>
        ensures { IfOk result (λ c. MatchOption c (IsNoPast (plain_zone zone.now) last) (IsPastClock (plain_zone zone.now) last)) }
    {
        if last < FIRST_START || LAST_SECOND < last {
            return Ok(None);
        }
        if !is_calm_back(alloc, zone, last, 0)? {
            return Ok(None);
        }
        let first = first_followed(alloc, zone, last)?;
        let clock = clock_from(alloc, zone, first, last)?;
        Ok(Some(clock))
    }

    /// Its table, with which times on the clock are made.
    pub fn table(&self) -> &ClockTable
        ensures { result.now ≡ self.now.table }
    {
        &self.table
    }

    /// What is asked for the last `count` runs up to the last second of the window. `None` if no clock of a table has that second.
    pub fn previous(&self, count: u32) -> Option<Previous<'_>>
        ensures asked { IfSome result (IsAskedOf self.now count) }
        ensures none { result ≡ None → is_table_second self.now.last ≡ false }
    {
        match TableTime::new(&self.table, self.last) {
            Ok(start) => Some(Previous {
                start,
                from: self.from,
                is_whole: self.is_whole,
                count,
            }),
            Err(_) => None,
        }
    }
}

// The first second to which a clock is followed back.
fn reach_of(last: i64) -> i64
    requires { IsHeldStart last }
    ensures value { result ≡ reach_of last }
    ensures window { IsWindow result last }
{
    if last < FIRST_SEARCHED_SECOND {
        last
    } else {
        FIRST_SEARCHED_SECOND
    }
}

// How many seconds that lies back.
fn seconds_back(last: i64) -> u64
    requires { IsHeldStart last }
    ensures reach { reach_of last ≡ last -ℤ pos result }
    ensures window { IsWindow (last -ℤ pos result) last }
{
    (last - reach_of(last)) as u64
}

// The second so many before another one.
fn second_before(last: i64, seconds: u64) -> i64
    requires { IsWindow (last -ℤ pos seconds) last }
    ensures { result ≡ last -ℤ pos seconds }
{
    last - seconds as i64
}

// Whether the window from so many seconds before a last one is calm.
fn is_calm_back(
    alloc: Global,
    zone: &TimeZone<'_>,
    last: i64,
    seconds: u64,
) -> Result<bool, AllocError>
    requires { IsWindow (last -ℤ pos seconds) last }
    ensures calm { IfOk result (λ b. OnTrue b (IsCalmWindow (plain_zone zone.now) (last -ℤ pos seconds) last)) }
    ensures not_calm { IfOk result (λ b. OnFalse b (¬ (IsCalmWindow (plain_zone zone.now) (last -ℤ pos seconds) last))) }
{
    match ClockTable::of_zone(alloc, zone, second_before(last, seconds), last) {
        Ok(_) => Ok(true),
        Err(CronError::InvalidTime) => Ok(false),
        Err(_) => Err(AllocError),
    }
}

// The first second from which the clock is followed up to a last one, at which it is calm.
fn first_followed(alloc: Global, zone: &TimeZone<'_>, last: i64) -> Result<i64, AllocError>
    requires held { IsHeldStart last }
    requires calm { IsCalmWindow (plain_zone zone.now) (last -ℤ pos 0) last }
    ensures followed { IfOk result (IsFollowedFrom (plain_zone zone.now) last) }
    ensures window { IfOk result (λ first. IsWindow first last) }
{
    let seconds = calm_seconds(alloc, zone, last)?;
    Ok(second_before(last, seconds))
}

// How many seconds that lies back.
#[tactic(auto, using(crate::proofs::PastClocks::followed_whole))]
fn calm_seconds(alloc: Global, zone: &TimeZone<'_>, last: i64) -> Result<u64, AllocError>
    requires held { IsHeldStart last }
    requires calm { IsCalmWindow (plain_zone zone.now) (last -ℤ pos 0) last }
    ensures followed { IfOk result (λ n. IsFollowedFrom (plain_zone zone.now) last (last -ℤ pos n)) }
    ensures window { IfOk result (λ n. IsWindow (last -ℤ pos n) last) }
{
    let most = seconds_back(last);
    if is_calm_back(alloc, zone, last, most)? {
        return Ok(most);
    }
    last_calm(alloc, zone, last, most)
}

// The same if the clock isn't calm from `most` seconds before the last one on, which is as far as it would be followed back.
fn last_calm(alloc: Global, zone: &TimeZone<'_>, last: i64, most: u64) -> Result<u64, AllocError>
    requires reach { reach_of last ≡ last -ℤ pos most }
    requires window { IsWindow (last -ℤ pos most) last }
    requires calm { IsCalmWindow (plain_zone zone.now) (last -ℤ pos 0) last }
    requires not_calm { ¬ (IsCalmWindow (plain_zone zone.now) (last -ℤ pos most) last) }
    ensures followed { IfOk result (λ n. IsFollowedFrom (plain_zone zone.now) last (last -ℤ pos n)) }
    ensures window { IfOk result (λ n. IsWindow (last -ℤ pos n) last) }
{
    let mut calm: u64 = 0;
    let mut gap = most;
    while 1 < gap {
        let half = gap / 2;
        if is_calm_back(alloc, zone, last, calm + half)? {
            calm += half;
            gap -= half;
        } else {
            gap = half;
        }
    }
    Ok(calm)
}

// The clock from a first second on, from which it is followed up to a last one.
fn clock_from(
    alloc: Global,
    zone: &TimeZone<'_>,
    first: i64,
    last: i64,
) -> Result<PastClock, AllocError>
    requires held { IsHeldStart last }
    requires followed { IsFollowedFrom (plain_zone zone.now) last first }
    requires window { IsWindow first last }
    ensures { IfOk result (IsPastClock (plain_zone zone.now) last) }
{
    match ClockTable::of_zone(alloc, zone, first, last) {
        Ok(table) => Ok(PastClock {
            table,
            first,
            last,
            from: first + MARGIN,
            is_whole: first <= reach_of(last),
        }),
        Err(_) => Err(AllocError),
    }
}
