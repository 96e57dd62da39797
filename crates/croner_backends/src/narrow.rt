//! A backend that holds what lies between two instants.
ghost use Rattle.std.specs.Prelude.{◌≡◌, ◌↔◌, ◌≤ℤ◌, false, IsTrue, IsOk, IfOk, IfErr, IfNone, IsSome, IfSome};
ghost use Rattle.std.specs.Ordering.{int_cmp};
ghost use Rattle.std.proofs.Common.{ap};

use croner_base::errors::CronError;
use croner_base::time::table::TableTime;
use croner_base::time::{CivilDateTime, Clocked, CronDateTime, Resolution, Weekday};
use std::alloc::Global;
use std::cmp::Ordering;

/// A second on the clock of a table, from a backend that holds only the instants from a first to a last one.
///
/// A wall second is held if all instants that show it lie between the two, or if none shows it and its gap ends between
/// the two. Every other wall second is refused, as `InvalidTime`.
#[derive(Debug, Clone, Copy)]
pub struct NarrowTime<'t> {
    time: TableTime<'t>,
    low: i64,
    high: i64,
    pub ghost from: { low ≤ℤ time.second },
    pub ghost to: { time.second ≤ℤ high },
}

impl<'t> NarrowTime<'t> {
    ghost use Rattle.croner_base.specs.Civil.{wall_second};
    ghost use Rattle.croner_base.specs.Table.{is_table_second};
    ghost use Rattle.croner_base.specs.TableZone.{table_zone};
    ghost use Rattle.croner_base.specs.ZonedZone.{is_near_year};
    ghost use Rattle.croner_backends.specs.Narrow.{is_between, is_skipped};
    ghost use Rattle.croner_backends.specs.NarrowMoment.{narrow_moment, narrow_second};

    /// The second, with `low` and `high` as the first and the last instant that are held, in seconds since
    /// 1970-01-01T00:00:00 UTC. `InvalidTime` if the second isn't between them, which is always so if `low` is above
    /// `high`.
    pub fn new(time: TableTime<'t>, low: i64, high: i64) -> Result<NarrowTime<'t>, CronError>
        ensures ok { IsOk result ↔ ((low ≤ℤ time.entry.second) × (time.entry.second ≤ℤ high)) }
        ensures time { IfOk result (λ t. t.time ≡ time.entry) }
        ensures low { IfOk result (λ t. t.low ≡ low) }
        ensures high { IfOk result (λ t. t.high ≡ high) }
        ensures err { IfErr result (λ e. e ≡ CronError.InvalidTime) }
    {
        if low <= time.second() && time.second() <= high {
            Ok(NarrowTime { time, low, high })
        } else {
            Err(CronError::InvalidTime)
        }
    }

    /// The second on the clock of the table.
    pub fn time(&self) -> TableTime<'t>
        ensures { result ≡ self.now.time }
    {
        self.time
    }

    /// The first instant that is held.
    pub fn low(&self) -> i64
        ensures { result ≡ self.now.low }
    {
        self.low
    }

    /// The last instant that is held.
    pub fn high(&self) -> i64
        ensures { result ≡ self.now.high }
    {
        self.high
    }

    // Another second with the same bounds, or `None` where it is outside them.
    fn kept(&self, time: TableTime<'t>) -> Option<NarrowTime<'t>>
        ensures some { IsSome result ↔ IsTrue (is_between self.now.low self.now.high time.entry.second) }
        ensures value { IfSome result (λ t. narrow_moment t ≡ narrow_second time.entry self.now.low self.now.high) }
    {
        if self.low <= time.second() && time.second() <= self.high {
            Some(NarrowTime {
                time,
                low: self.low,
                high: self.high,
            })
        } else {
            None
        }
    }

    // What the clock shows at an instant, or `None` where the table doesn't have that instant.
    fn shown_at(&self, alloc: Global, second: i64) -> Option<CivilDateTime>
        ensures some { IfSome result (λ c. wall_second c ≡ (table_zone self.now.time.table.now).reads second) }
        ensures none { IfNone result (is_table_second second ≡ false) }
    {
        let elapsed = second.checked_sub(self.time.second())?;
        match self.time.checked_add_seconds(alloc, elapsed) {
            Ok(Some(there)) => Some(there.to_civil()),
            Ok(None) => None,
            Err(_) => unreachable!(),
        }
    }

    // How what the clock shows at an instant compares with a wall second of the years that a table holds.
    fn cmp_shown(&self, alloc: Global, second: i64, civil: CivilDateTime) -> Ordering
        ensures { IsTrue (is_near_year civil.date.year)
            → result ≡ int_cmp ((table_zone self.now.time.table.now).reads second) (wall_second civil) }
    {
        match self.shown_at(alloc, second) {
            Some(shown) => shown.cmp(&civil),
            None => second.cmp(&self.time.second()),
        }
    }

    // Whether the clock skips such a wall second between the bounds: it shows less before them, and more at the last of them.
    fn skips(&self, alloc: Global, civil: CivilDateTime) -> bool
        ensures { IsTrue (is_near_year civil.date.year)
            → result ≡ is_skipped (table_zone self.now.time.table.now).reads self.now.low self.now.high (wall_second civil) }
    {
        let (low, high) = (self.low, self.high);
        let less = match low.checked_sub(1) {
            Some(before) => self.cmp_shown(alloc, before, civil),
            None => Ordering::Less,
        };
        less == Ordering::Less && self.cmp_shown(alloc, high, civil) == Ordering::Greater
    }
}

impl<'t> CronDateTime for NarrowTime<'t> {
    ghost use Rattle.croner_base.specs.Zone.{IsResolved, IsUnheld};
    ghost use Rattle.croner_backends.specs.NarrowMoment.{narrow_moment};

    ghost moment = { narrow_moment };

    ghost can_lack_memory = { false };

    fn to_civil(&self) -> CivilDateTime {
        self.time.to_civil()
    }

    fn civil_weekday(&self) -> Weekday {
        self.time.civil_weekday()
    }

    fn resolve_civil(
        &self,
        alloc: Global,
        civil: CivilDateTime,
    ) -> Result<Resolution<NarrowTime<'t>>, CronError>
        ensures value { IfOk result (IsResolved narrow_moment (narrow_moment self.now).zone civil) }
        ensures err { IfErr result (IsUnheld false (narrow_moment self.now).zone civil) }
        ensures time { IfErr result (λ e. e ≡ CronError.InvalidTime) }
    {
        match self.time.resolve_civil(alloc, civil) {
            Ok(Resolution::Single(time)) => match self.kept(time) {
                Some(kept) => Ok(Resolution::Single(kept)),
                None => Err(CronError::InvalidTime),
            },
            Ok(Resolution::Ambiguous(earlier, later)) => {
                match (self.kept(earlier), self.kept(later)) {
                    (Some(first), Some(second)) => Ok(Resolution::Ambiguous(first, second)),
                    _ => Err(CronError::InvalidTime),
                }
            }
            Ok(Resolution::Gap) => {
                if self.skips(alloc, civil) {
                    Ok(Resolution::Gap)
                } else {
                    Err(CronError::InvalidTime)
                }
            }
            Err(_) => Err(CronError::InvalidTime),
        }
    }

    fn checked_add_seconds(
        &self,
        alloc: Global,
        seconds: i64,
    ) -> Result<Option<NarrowTime<'t>>, CronError> {
        match self.time.checked_add_seconds(alloc, seconds)? {
            Some(there) => Ok(self.kept(there)),
            None => Ok(None),
        }
    }

    fn cmp_instant(&self, other: &Self) -> Ordering {
        self.time.cmp_instant(&other.time)
    }

    ghost clone_keeps = { λ a b e. ap narrow_moment e };

    ghost clone_memory = { λ a h. tt };
}

/// The seconds that are held.
impl<'t> Clocked for NarrowTime<'t> {
    ghost use Rattle.croner_backends.specs.NarrowHeld.{narrow_held};

    fn second(&self) -> i64 {
        self.time.second()
    }

    #[tactic(auto, using(crate::proofs::Narrowed::kept_at, crate::proofs::Narrowed::not_at))]
    fn at_second(&self, second: i64) -> Option<NarrowTime<'t>> {
        match self.time.at_second(second) {
            Some(time) => self.kept(time),
            None => None,
        }
    }

    ghost holds_its_second = { λ t. narrow_held t };
}
