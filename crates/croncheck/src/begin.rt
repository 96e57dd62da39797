//! The seconds that the words of `--from` and `--until` say, on the clock of a zone.

use croncheck_command::words::When;
use croncheck_moments::moment::{Moment, date_at, last_up_to, second_of};
use jiff::civil::{Date, DateTime, Time};
use jiff::tz::TimeZone;

/// The moment that `--from` says; a time of day is the date and time at which the clock shows it next after `now`. `None` if the clock doesn't
/// show it.
pub fn moment_of(when: When, zone: &TimeZone<'_>, now: i64) -> Option<Moment> {
    match when {
        When::Moment(moment) => Some(moment),
        When::Tomorrow => Some(Moment::Date(tomorrow(zone, now)?)),
        When::Clock { hour, minute } => Some(Moment::Civil(next_at(zone, now, hour, minute)?)),
        When::Later(seconds) => Some(Moment::Second(later(now, seconds))),
    }
}

/// The last second up to which `--until` says that runs are listed, where the first is `first`: a time of day is the next one after that, and a
/// length begins there. `None` if the clock doesn't show it.
pub fn last_second(when: When, zone: &TimeZone<'_>, now: i64, first: i64) -> Option<i64> {
    match when {
        When::Moment(moment) => last_up_to(moment, zone, now),
        When::Tomorrow => last_up_to(Moment::Date(tomorrow(zone, now)?), zone, now),
        When::Clock { hour, minute } => next_shown(zone, first, hour, minute),
        When::Later(seconds) => Some(later(first, seconds)),
    }
}

fn tomorrow(zone: &TimeZone<'_>, now: i64) -> Option<Date> {
    date_at(zone, now)?.tomorrow().ok()
}

fn later(second: i64, seconds: u64) -> i64 {
    second.saturating_add_unsigned(seconds)
}

// The next second after one at which the clock shows a time of day.
fn next_shown(zone: &TimeZone<'_>, after: i64, hour: i8, minute: i8) -> Option<i64> {
    second_of(
        Moment::Civil(next_at(zone, after, hour, minute)?),
        zone,
        after,
    )
}

// The date and time at which the clock shows a time of day next after a second: on the date that it shows there, or on the next one.
fn next_at(zone: &TimeZone<'_>, after: i64, hour: i8, minute: i8) -> Option<DateTime> {
    let time = Time::new(hour, minute, 0, 0).ok()?;
    let today = date_at(zone, after)?;
    let civil = today.to_datetime(time);
    match second_of(Moment::Civil(civil), zone, after) {
        Some(second) if after < second => Some(civil),
        _ => Some(today.tomorrow().ok()?.to_datetime(time)),
    }
}
