//! What holds of each time on a zone's clock, each the contract of a small public function.
ghost use Rattle.std.specs.Prelude.{◌↔◌, Bool, ℤ, pos, ◌-ℤ◌};
ghost use Rattle.jiff.specs.ZoneView.{plain_zone};
ghost use Rattle.croner_base.specs.declared.time.Direction.{Direction};
ghost use Rattle.croner_base.specs.TableZone.{table_zone};
ghost use Rattle.croner.specs.laws.Zones.{margin, IsOnClockOf};
ghost use Rattle.croner.specs.search.Limit.{NoneInSpan};
ghost use Rattle.croner.specs.search.PatternJob.{timetable_of};
ghost use Rattle.croner.specs.search.Premises.{StartsCalm, IsSearchable};
ghost use Rattle.croner.specs.search.Runs.{job_in, Run, Nearest};
ghost use Rattle.croner.specs.Views.{job_of};
ghost use Rattle.croner_zoned.specs.Windows.{own_zone, IsInWindow, HasNoneInZone};
ghost use Rattle.croner_zoned.specs.ZoneMoment.{zone_moment};

use crate::{ZoneClock, ZoneTime};
use croner::Cron;

/// What a search from a time of the window says about the zone, forward and backward, inclusive and not.
///
/// - A nearest run on the clock that lies in the window is the zone's nearest run.
/// - If the nearest run on the clock lies outside the window, no run of the zone that counts lies in the window.
/// - If no run on the clock that counts is left in the searched years, the same holds.
pub fn searches_are_the_zones(cron: &Cron, start: &ZoneTime<'_>)
    ensures nearest { IsInWindow start.now.clock.now start.now.time.second → (direction : Direction) (inclusive : Bool) (run : ℤ) → IsInWindow start.now.clock.now run →
        Nearest direction inclusive (job_in (zone_moment start.now).zone (timetable_of (job_of cron.now))) start.now.time.second run →
        Nearest direction inclusive (job_in (own_zone start.now.clock.now) (timetable_of (job_of cron.now))) start.now.time.second run }
    ensures outside { IsInWindow start.now.clock.now start.now.time.second → (direction : Direction) (inclusive : Bool) (run : ℤ) → ¬ (IsInWindow start.now.clock.now run) →
        Nearest direction inclusive (job_in (zone_moment start.now).zone (timetable_of (job_of cron.now))) start.now.time.second run →
        HasNoneInZone direction inclusive (timetable_of (job_of cron.now)) start.now }
    ensures limit { IsInWindow start.now.clock.now start.now.time.second → (direction : Direction) (inclusive : Bool) →
        NoneInSpan direction inclusive (job_in (zone_moment start.now).zone (timetable_of (job_of cron.now))) start.now.time.second →
        HasNoneInZone direction inclusive (timetable_of (job_of cron.now)) start.now }
{}

/// In the window a job's runs on the clock are its runs in the zone.
pub fn runs_are_the_zones(cron: &Cron, clock: &ZoneClock<'_>)
    ensures { (i : ℤ) → IsInWindow clock.now i →
        Run (job_in (table_zone clock.now.table) (timetable_of (job_of cron.now))) i
        ↔ Run (job_in (own_zone clock.now) (timetable_of (job_of cron.now))) i }
{}

/// A time on a zone's clock is a whole second in a calm zone. If it lies in the window, a search from it is refused only by the
/// limit, and the laws of [`croner::laws::zones`] lead from listings over the clock to listings in the zone.
pub fn time_is_searchable(time: &ZoneTime<'_>)
    ensures calm { StartsCalm (zone_moment time.now) }
    ensures searchable { IsInWindow time.now.clock.now time.now.time.second → IsSearchable (zone_moment time.now) }
    ensures on_clock { IsInWindow time.now.clock.now time.now.time.second →
        IsOnClockOf (plain_zone time.now.clock.now.zone) (time.now.clock.now.first -ℤ pos margin) time.now.clock.now.last
        (table_zone time.now.clock.now.table) (zone_moment time.now) }
{}
