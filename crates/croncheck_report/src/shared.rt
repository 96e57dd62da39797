//! What all reports share.
ghost use Rattle.std.specs.Prelude.{◌≡◌, None, Some};
ghost use Rattle.jiff.specs.ZoneView.{plain_zone};
ghost use Rattle.croncheck_report.specs.Offsets.{offset_of};
ghost use Rattle.croncheck_report.specs.Settings.{off_from, followed_from, stop_of};

use crate::settings::{Settings, Tongue};
use croncheck_runs::clock::stop::Stop;
use croncheck_runs::runs::Listing;
use croner::time::table::TableTime;
use jiff::tz::TimeZone;

/// What all reports share.
#[derive(Clone, Copy)]
pub struct Shared<'z> {
    /// The zone whose clock is shown.
    pub zone: TimeZone<'z>,
    /// Where and why the clock's window ends early, if it ends before year 5000 does.
    pub stop: Option<Stop>,
    /// How many runs are listed, or up to when.
    pub listing: Listing,
    /// The language of weekdays.
    pub language: Tongue,
    /// The second from which the distance of a run is counted, if it is said how far off a run is.
    pub off_from: Option<i64>,
    /// The second from which the clock of the runs before the start is followed, if these are told.
    pub followed_from: Option<i64>,
    /// Another zone, whose clock is shown too.
    pub other_zone: Option<TimeZone<'z>>,
    /// What the zone is called in the last line of a call, if that line counts the files and names it.
    pub zone_name: Option<&'z str>,
}

impl<'z> Shared<'z> {
    /// What the reports by these settings share. Their clock is that of `zone`.
    pub fn of(zone: TimeZone<'z>, settings: &Settings<'_>) -> Shared<'z>
        ensures zone { result.zone ≡ zone.entry }
        ensures stop { result.stop ≡ stop_of settings.now }
        ensures listing { result.listing ≡ settings.now.listing }
        ensures language { result.language ≡ settings.now.language }
        ensures off_from { result.off_from ≡ off_from settings.now }
        ensures followed_from { result.followed_from ≡ followed_from settings.now }
        ensures other_zone { result.other_zone ≡ None }
        ensures zone_name { result.zone_name ≡ None }
    {
        Shared {
            zone,
            stop: settings.stop(),
            listing: settings.listing,
            language: settings.language,
            off_from: off_from(settings),
            followed_from: followed_from(settings),
            other_zone: None,
            zone_name: None,
        }
    }

    /// The same, with the clock of another zone beside each run.
    pub fn with_other_zone(self, other: TimeZone<'z>) -> Shared<'z>
        ensures { result ≡ record self.entry { other_zone = Some other.entry } }
    {
        Shared {
            other_zone: Some(other),
            ..self
        }
    }

    /// The same, where the last line of the call counts the files and calls the zone by this name.
    pub fn with_zone_name(self, name: &'z str) -> Shared<'z>
        ensures { result ≡ record self.entry { zone_name = Some name.entry } }
    {
        Shared {
            zone_name: Some(name),
            ..self
        }
    }
}

/// How many seconds the zone's clock is ahead of UTC at a run, or behind it if the number is negative. It is 0 at a second that the zone
/// doesn't have; the zone has at least those of the years -9998 to 9998.
pub fn ahead_of(shared: &Shared<'_>, run: &TableTime<'_>) -> i32
    ensures { result ≡ offset_of (plain_zone shared.now.zone) run.now.second }
{
    match run.timestamp() {
        Ok(instant) => shared.zone.to_offset(instant).seconds(),
        Err(_) => 0,
    }
}

// From which second on it is said how far off a run is.
fn off_from(settings: &Settings<'_>) -> Option<i64>
    ensures { result ≡ off_from settings.now }
{
    if settings.is_from_now {
        Some(settings.changes.start.second())
    } else {
        None
    }
}

// From which second on the clock of the runs before the start is followed.
fn followed_from(settings: &Settings<'_>) -> Option<i64>
    ensures { result ≡ followed_from settings.now }
{
    match settings.previous {
        Some(asked) => Some(asked.from),
        None => None,
    }
}
