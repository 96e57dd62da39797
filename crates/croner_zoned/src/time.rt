//! A time on the clock of a zone.
ghost use Rattle.std.specs.Prelude.{◌≡◌, ◌↔◌, false, IsTrue, IsOk, IfOk, IfErr, IsSome, IfSome, IfNone};
ghost use Rattle.std.proofs.Common.{ap};
ghost use Rattle.croner_base.specs.TableZone.{table_zone};

use crate::ZoneClock;
use croner::errors::CronError;
use croner::laws::searches::found_or_refused;
use croner::time::table::TableTime;
use croner::{CivilDateTime, Clocked, Cron, CronDateTime, Direction, Resolution, Weekday};
use jiff::Zoned;
use std::alloc::Global;
use std::cmp::Ordering;

/// A second on the clock of a zone: a position for searches, iterators and schedulers.
///
/// Each is a whole second of a calm clock, so what is promised in calm zones holds. If an answer lies in the clock's window, it
/// is the zone's own run. An answer outside the window means that the zone has no such run in the rest of the window;
/// [`to_zoned`](Self::to_zoned) refuses that time.
///
/// ```
/// let start = anchorage.at(1_767_225_600)?;
/// let run = cron.find_next_occurrence(&start, false)?.to_zoned()?;
/// ```
#[derive(Clone, Copy)]
pub struct ZoneTime<'t> {
    clock: &'t ZoneClock<'t>,
    time: TableTime<'t>,
    pub ghost on_clock: { table_zone time.table.now ≡ table_zone clock.now.table },
}

impl<'t> ZoneTime<'t> {
    ghost use Rattle.croner.specs.Views.{job_of};
    ghost use Rattle.croner.specs.search.PatternJob.{timetable_of};
    ghost use Rattle.croner_zoned.specs.Windows.{IsInWindow, IsTimeOn, IsShownAs, IsNearestInZone, HasNoneInZone};

    // A time on the table of a clock.
    pub(crate) fn on(clock: &'t ZoneClock<'t>, time: TableTime<'t>) -> ZoneTime<'t>
        requires { table_zone time.table.now ≡ table_zone clock.now.table }
        ensures clock { result.clock.now ≡ clock.now }
        ensures time { result.time ≡ time.entry }
    {
        ZoneTime { clock, time }
    }

    /// The clock.
    pub fn clock(&self) -> &'t ZoneClock<'t>
        ensures { result.now ≡ self.now.clock.now }
    {
        self.clock
    }

    /// Whether the second lies in the clock's window.
    pub fn is_in_window(&self) -> bool
        ensures { IsTrue result ↔ IsInWindow self.now.clock.now self.now.time.second }
    {
        self.clock.has(self.time.second())
    }

    /// The same second in the zone, as a value of `jiff`, which prints with the zone's name. `InvalidTime` if it lies outside
    /// the clock's window.
    pub fn to_zoned(&self) -> Result<Zoned<'t>, CronError>
        ensures ok { IsOk result ↔ IsInWindow self.now.clock.now self.now.time.second }
        ensures value { IfOk result (IsShownAs self.now.clock.now self.now.time.second) }
        ensures err { IfErr result (λ e. e ≡ CronError.InvalidTime) }
    {
        self.clock.to_zoned(self.time.second())
    }

    /// The zone's nearest run of a job in a direction from this second, which counts itself if the search is inclusive. `None`
    /// if the zone has no such run in the clock's window. `InvalidTime` if this second lies outside the window.
    ///
    /// ```
    /// let run = anchorage.at(1_767_225_600)?.nearest_run(&cron, false, Direction::Forward)?;
    /// ```
    pub fn nearest_run(
        &self,
        cron: &Cron,
        inclusive: bool,
        direction: Direction,
    ) -> Result<Option<ZoneTime<'t>>, CronError>
        ensures ok { IsOk result ↔ IsInWindow self.now.clock.now self.now.time.second }
        ensures some { IfOk result (λ r. IfSome r (IsNearestInZone direction inclusive (timetable_of (job_of cron.now)) self.now)) }
        ensures none { IfOk result (λ r. IfNone r (HasNoneInZone direction inclusive (timetable_of (job_of cron.now)) self.now)) }
        ensures err { IfErr result (λ e. e ≡ CronError.InvalidTime) }
    {
        if !self.is_in_window() {
            return Err(CronError::InvalidTime);
        }
        match found_or_refused(cron, self, inclusive, direction) {
            Ok(run) => Ok(self.in_window(run)),
            Err(_) => Ok(None),
        }
    }

    // The time of this clock at the second of another time, if that second lies in the window.
    fn in_window(&self, time: ZoneTime<'t>) -> Option<ZoneTime<'t>>
        ensures some { IsSome result ↔ IsInWindow self.now.clock.now time.entry.time.second }
        ensures value { IfSome result (IsTimeOn self.now.clock.now time.entry.time.second) }
    {
        self.clock.time_at(time.time.second())
    }

    // Another time on the same clock.
    fn with(&self, time: TableTime<'t>) -> ZoneTime<'t>
        requires { table_zone time.table.now ≡ table_zone self.now.time.table.now }
        ensures clock { result.clock.now ≡ self.now.clock.now }
        ensures time { result.time ≡ time.entry }
    {
        ZoneTime::on(self.clock, time)
    }
}

impl<'t> CronDateTime for ZoneTime<'t> {
    ghost use Rattle.croner_zoned.specs.ZoneMoment.{zone_moment};

    ghost moment = { zone_moment };

    ghost can_lack_memory = { false };

    fn to_civil(&self) -> CivilDateTime {
        self.time.to_civil()
    }

    fn civil_weekday(&self) -> Weekday {
        self.time.civil_weekday()
    }

    fn resolve_civil(
        &self,
        alloc: Global,
        civil: CivilDateTime,
    ) -> Result<Resolution<ZoneTime<'t>>, CronError> {
        match self.time.resolve_civil(alloc, civil)? {
            Resolution::Single(time) => Ok(Resolution::Single(self.with(time))),
            Resolution::Ambiguous(earlier, later) => {
                Ok(Resolution::Ambiguous(self.with(earlier), self.with(later)))
            }
            Resolution::Gap => Ok(Resolution::Gap),
        }
    }

    fn checked_add_seconds(
        &self,
        alloc: Global,
        seconds: i64,
    ) -> Result<Option<ZoneTime<'t>>, CronError> {
        match self.time.checked_add_seconds(alloc, seconds)? {
            Some(there) => Ok(Some(self.with(there))),
            None => Ok(None),
        }
    }

    fn cmp_instant(&self, other: &Self) -> Ordering {
        self.time.cmp_instant(&other.time)
    }

    ghost clone_keeps = { λ a b e. ap zone_moment e };

    ghost clone_memory = { λ a h. tt };
}

/// The seconds of the UTC years -9999 to 9999, of which those in the clock's window are the zone's.
impl<'t> Clocked for ZoneTime<'t> {
    ghost use Rattle.croner_base.specs.HeldSeconds.{table_held};

    fn second(&self) -> i64 {
        self.time.second()
    }

    fn at_second(&self, second: i64) -> Option<ZoneTime<'t>> {
        match self.time.at_second(second) {
            Some(time) => Some(self.with(time)),
            None => None,
        }
    }

    ghost holds_its_second = { λ t. table_held t.time };
}
