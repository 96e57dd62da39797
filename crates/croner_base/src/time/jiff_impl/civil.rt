//! Civil date-times of `jiff` as time values: their clock shows each second from year -9999 to 9999 once.
ghost use Rattle.std.specs.Prelude.{◌≡◌, ◌↔◌, false, IsOk, IfOk, IfErr};
ghost use Rattle.std.proofs.Common.{ap};
ghost use Rattle.jiff_core.specs.Calendar.{IsYear};
ghost use Rattle.croner_base.specs.CivilZone.{civil_moment};
ghost use Rattle.croner_base.specs.Zone.{IsResolved, IsUnheld};

use crate::errors::CronError;
use crate::time::jiff_impl::{to_civil, to_jiff, to_weekday};
use crate::time::{CivilDateTime, CronDateTime, Resolution, Weekday};
use jiff::SignedDuration;
use jiff::civil::DateTime;
use std::alloc::Global;
use std::cmp::Ordering;

impl CronDateTime for DateTime {
    ghost moment = { civil_moment };

    ghost can_lack_memory = { false };

    fn to_civil(&self) -> CivilDateTime {
        to_civil(*self)
    }

    fn civil_weekday(&self) -> Weekday {
        to_weekday(self.weekday())
    }

    fn resolve_civil(
        &self,
        _alloc: Global,
        civil: CivilDateTime,
    ) -> Result<Resolution<DateTime>, CronError>
        ensures held { IsOk result ↔ IsYear civil.date.year }
        ensures value { IfOk result (IsResolved civil_moment (civil_moment self.now).zone civil) }
        ensures err { IfErr result (IsUnheld false (civil_moment self.now).zone civil) }
        ensures date { IfErr result (λ e. e ≡ CronError.InvalidDate) }
    {
        match to_jiff(civil) {
            Ok(datetime) => Ok(Resolution::Single(datetime)),
            Err(refused) => Err(refused),
        }
    }

    fn checked_add_seconds(
        &self,
        _alloc: Global,
        seconds: i64,
    ) -> Result<Option<DateTime>, CronError> {
        match self.checked_add(SignedDuration::from_secs(seconds)) {
            Ok(sum) => Ok(Some(sum)),
            Err(_) => Ok(None),
        }
    }

    fn cmp_instant(&self, other: &Self) -> Ordering {
        self.cmp(other)
    }

    ghost clone_keeps = { λ a b e. ap civil_moment e };

    ghost clone_memory = { λ a h. tt };
}
