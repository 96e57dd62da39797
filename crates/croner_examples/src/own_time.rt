//! A time type of your own.
ghost use Rattle.std.specs.Prelude.{◌≡◌, false};

use croner::errors::CronError;
use croner::time::table::TableTime;
use croner::{CivilDateTime, Clocked, CronDateTime, Resolution, Weekday};
use std::alloc::Global;
use std::cmp::Ordering;

/// A second on the clock of an office, which the answers of searches keep.
#[derive(Clone, Copy)]
pub struct OfficeTime<'t> {
    /// The office.
    pub office: &'static str,
    /// The second, on the clock of the office's zone.
    pub time: TableTime<'t>,
}

impl<'t> OfficeTime<'t> {
    // Another second of the same office.
    fn at(&self, time: TableTime<'t>) -> OfficeTime<'t>
        ensures { result.time ≡ time.entry }
    {
        OfficeTime {
            office: self.office,
            time,
        }
    }
}

impl<'t> CronDateTime for OfficeTime<'t> {
    ghost use Rattle.std.proofs.Common.{ap};
    ghost use Rattle.croner_examples.specs.OwnTime.{office_moment};

    ghost moment = { office_moment };

    ghost can_lack_memory = { false };

    fn to_civil(&self) -> CivilDateTime {
        self.time.to_civil()
    }

    fn civil_weekday(&self) -> Weekday {
        self.time.civil_weekday()
    }

    fn resolve_civil(
        &self,
        alloc: Global,
        civil: CivilDateTime,
    ) -> Result<Resolution<OfficeTime<'t>>, CronError> {
        match self.time.resolve_civil(alloc, civil)? {
            Resolution::Single(time) => Ok(Resolution::Single(self.at(time))),
            Resolution::Ambiguous(earlier, later) => {
                Ok(Resolution::Ambiguous(self.at(earlier), self.at(later)))
            }
            Resolution::Gap => Ok(Resolution::Gap),
        }
    }

    fn checked_add_seconds(
        &self,
        alloc: Global,
        seconds: i64,
    ) -> Result<Option<OfficeTime<'t>>, CronError> {
        match self.time.checked_add_seconds(alloc, seconds)? {
            Some(there) => Ok(Some(self.at(there))),
            None => Ok(None),
        }
    }

    fn cmp_instant(&self, other: &Self) -> Ordering {
        self.time.cmp_instant(&other.time)
    }

    ghost clone_keeps = { λ a b e. ap office_moment e };

    ghost clone_memory = { λ a h. tt };
}

/// The seconds of the table: so it can be a job's position in a scheduler.
impl<'t> Clocked for OfficeTime<'t> {
    ghost use Rattle.croner.specs.HeldSeconds.{table_held};

    fn second(&self) -> i64 {
        self.time.second()
    }

    fn at_second(&self, second: i64) -> Option<OfficeTime<'t>> {
        match self.time.at_second(second) {
            Some(time) => Some(self.at(time)),
            None => None,
        }
    }

    ghost holds_its_second = { λ t. table_held t.time };
}
