//! The next run in a zone, with its promise proved from what `ZoneClock::of` answers.
ghost use Rattle.std.specs.Prelude.{IfOk, MatchOption, codes, pos};
ghost use Rattle.croner_examples.specs.ZoneRuns.{IsNextRun, HasNoneUntil};

use croner::errors::CronError;
use croner::{Clocked, Cron, Direction};
use croner_zoned::ZoneClock;
use jiff::Zoned;
use jiff::tz::{TimeZone, TimeZoneDatabase};
use std::alloc::Global;

/// 2026-01-01T00:00:00 UTC.
const FIRST_SECOND: i64 = 1_767_225_600;

/// 2099-12-31T23:59:59 UTC.
const LAST_SECOND: i64 = 4_102_444_799;

/// The next run of `30 2 * * *` in a zone after a second of the UTC years 2026 to 2099, or `None` if the zone has none in these
/// years.
pub fn next_at_half_past_two<'z>(
    alloc: Global,
    zone: &TimeZone<'z>,
    second: i64,
) -> Result<Option<Zoned<'z>>, CronError>
    ensures { IfOk result (λ r. MatchOption r
        (HasNoneUntil (codes "30 2 * * *") zone.now second (pos 4_102_444_799))
        (IsNextRun (codes "30 2 * * *") zone.now second)) }
{
    let cron = Cron::from_str(alloc, "30 2 * * *")?;
    let clock = ZoneClock::of(alloc, zone, FIRST_SECOND, LAST_SECOND)?;
    let start = clock.at(second)?;
    match start.nearest_run(&cron, false, Direction::Forward)? {
        Some(run) => Ok(Some(clock.to_zoned(run.second())?)),
        None => Ok(None),
    }
}

/// Shows such runs in Anchorage, whose clock was put back by a day in 1867 and is calm from 2026 on.
pub fn show_in_anchorage(rt: &HostRuntime, zones: &TimeZoneDatabase) -> anyhow::Result<()> {
    let anchorage = zones.get("America/Anchorage")?;
    // 2026-03-07T12:00:00 there: the night after that its clock skips 02:30.
    if let Some(run) = next_at_half_past_two(rt.alloc(), &anchorage, 1_772_917_200)? {
        println!(rt; "{run}")?; // 2026-03-08T03:00:00-08:00[America/Anchorage]
    }
    Ok(())
}
