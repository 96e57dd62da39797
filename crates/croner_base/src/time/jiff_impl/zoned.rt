//! Zoned date-times of `jiff` as time values, in every time zone.
ghost use Rattle.std.specs.Prelude.{◌≡◌, ◌↔◌, true, false, IsTrue, IsOk, IfOk, IfErr};
ghost use Rattle.std.proofs.Common.{ap};
ghost use Rattle.jiff.specs.Words.{civil_seconds};
ghost use Rattle.croner_base.specs.Zone.{reading, IsResolved, IsUnheld};
ghost use Rattle.croner_base.specs.ZonedZone.{is_near_year};
ghost use Rattle.croner_base.specs.ZonedValue.{value_moment, is_showing, chosen};

use crate::errors::CronError;
use crate::limits::YEAR_LIMIT;
use crate::time::jiff_impl::{to_civil, to_jiff, to_weekday};
use crate::time::{CivilDateTime, CronDateTime, Resolution, Weekday};
use jiff::civil::DateTime;
use jiff::{SignedDuration, Timestamp, Zoned};
use std::alloc::Global;
use std::cmp::Ordering;

// What the zone's clock shows at the whole second. A rule may change its clock inside the last
// second of a year, so the fraction is taken off first.
fn shown_date_time(zoned: &Zoned<'_>) -> DateTime
    ensures { civil_seconds result ≡ reading (value_moment zoned.now) }
{
    let second = zoned.timestamp().to_plain().floor_second();
    match Timestamp::from_second(second) {
        Ok(whole) => zoned.time_zone().to_datetime(whole),
        Err(_) => unreachable!(),
    }
}

// Those of two instants at which their clock shows the date-time: each once, the earlier first.
fn those_showing<'a>(datetime: DateTime, one: Zoned<'a>, other: Zoned<'a>) -> Resolution<Zoned<'a>>
    ensures { result ≡ chosen (is_showing one.entry datetime) (is_showing other.entry datetime) one.entry other.entry }
{
    match (one.datetime() == datetime, other.datetime() == datetime) {
        (true, true) => in_order(one, other),
        (true, false) => Resolution::Single(one),
        (false, true) => Resolution::Single(other),
        (false, false) => Resolution::Gap,
    }
}

// Two instants, the earlier first, or the one that both are.
fn in_order<'a>(one: Zoned<'a>, other: Zoned<'a>) -> Resolution<Zoned<'a>>
    ensures { result ≡ chosen true true one.entry other.entry }
{
    match one.timestamp().cmp(&other.timestamp()) {
        Ordering::Less => Resolution::Ambiguous(one, other),
        Ordering::Equal => Resolution::Single(one),
        Ordering::Greater => Resolution::Ambiguous(other, one),
    }
}

// The instants of the value's zone that show the second. Where the clock is moved, `jiff` offers an earlier and a later
// choice of offset: only those that really show the second count.
fn resolution_of<'a>(
    zoned: &Zoned<'a>,
    civil: CivilDateTime,
) -> Result<Resolution<Zoned<'a>>, CronError>
    ensures held { IsOk result ↔ IsTrue (is_near_year civil.date.year) }
    ensures value { IfOk result (IsResolved value_moment (value_moment zoned.now).zone civil) }
    ensures err { IfErr result (IsUnheld false (value_moment zoned.now).zone civil) }
    ensures date { IfErr result (λ e. e ≡ CronError.InvalidDate) }
{
    if civil.year() < -YEAR_LIMIT || civil.year() > YEAR_LIMIT {
        return Err(CronError::InvalidDate);
    }
    let datetime = match to_jiff(civil) {
        Ok(datetime) => datetime,
        Err(_) => unreachable!(),
    };
    let ambiguous = zoned.time_zone().to_ambiguous_zoned(datetime);
    let earlier = match ambiguous.earlier() {
        Ok(earlier) => earlier,
        Err(_) => unreachable!(),
    };
    let later = match ambiguous.later() {
        Ok(later) => later,
        Err(_) => unreachable!(),
    };
    Ok(those_showing(datetime, earlier, later))
}

impl<'a> CronDateTime for Zoned<'a> {
    ghost moment = { value_moment };

    ghost can_lack_memory = { false };

    fn to_civil(&self) -> CivilDateTime {
        to_civil(shown_date_time(self))
    }

    fn civil_weekday(&self) -> Weekday {
        to_weekday(shown_date_time(self).weekday())
    }

    fn resolve_civil(
        &self,
        _alloc: Global,
        civil: CivilDateTime,
    ) -> Result<Resolution<Zoned<'a>>, CronError>
        ensures held { IsOk result ↔ IsTrue (is_near_year civil.date.year) }
        ensures value { IfOk result (IsResolved value_moment (value_moment self.now).zone civil) }
        ensures err { IfErr result (IsUnheld false (value_moment self.now).zone civil) }
        ensures date { IfErr result (λ e. e ≡ CronError.InvalidDate) }
    {
        resolution_of(self, civil)
    }

    fn checked_add_seconds(
        &self,
        _alloc: Global,
        seconds: i64,
    ) -> Result<Option<Zoned<'a>>, CronError> {
        match self.checked_add(SignedDuration::from_secs(seconds)) {
            Ok(sum) => Ok(Some(sum)),
            Err(_) => Ok(None),
        }
    }

    fn cmp_instant(&self, other: &Self) -> Ordering {
        self.timestamp().cmp(&other.timestamp())
    }

    ghost clone_keeps = { λ a b e. ap value_moment e };

    ghost clone_memory = { λ a h. tt };
}
