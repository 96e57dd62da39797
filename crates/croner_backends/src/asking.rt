//! A backend that asks for memory for each answer, and keeps none of it.
ghost use Rattle.std.specs.Prelude.{◌≡◌, ◌⊎◌, true, IfOk, IfErr};

use croner_base::errors::CronError;
use croner_base::time::table::TableTime;
use croner_base::time::{CivilDateTime, Clocked, CronDateTime, Resolution, Weekday};
use std::alloc::Global;
use std::cmp::Ordering;

/// A second on the clock of a table.
///
/// It does what a `TableTime` does, but `resolve_civil` and `checked_add_seconds` first ask for memory, and give it back. So a search over
/// it can lack memory, while a value holds none. Unlike a `BoxedTime`, it can therefore find the time at another second ([`Clocked`])
/// without memory.
#[derive(Debug, Clone, Copy)]
pub struct AskingTime<'t> {
    time: TableTime<'t>,
}

impl<'t> AskingTime<'t> {
    /// The second on the clock of the table.
    pub fn new(time: TableTime<'t>) -> AskingTime<'t>
        ensures { result.time ≡ time.entry }
    {
        AskingTime { time }
    }

    /// The second on the clock of the table.
    pub fn time(&self) -> TableTime<'t>
        ensures { result ≡ self.now.time }
    {
        self.time
    }
}

impl<'t> CronDateTime for AskingTime<'t> {
    ghost use Rattle.std.proofs.Common.{ap, sym};
    ghost use Rattle.std.proofs.lemmas.Bool.{false≢true};
    ghost use Rattle.croner_base.specs.Zone.{IsResolved, IsUnheld};
    ghost use Rattle.croner_backends.specs.AskingMoment.{asking_moment};

    ghost moment = { asking_moment };

    ghost can_lack_memory = { true };

    fn to_civil(&self) -> CivilDateTime {
        self.time.to_civil()
    }

    fn civil_weekday(&self) -> Weekday {
        self.time.civil_weekday()
    }

    fn resolve_civil(
        &self,
        alloc: Global,
        civil: CivilDateTime,
    ) -> Result<Resolution<AskingTime<'t>>, CronError>
        ensures value { IfOk result (IsResolved asking_moment (asking_moment self.now).zone civil) }
        ensures err { IfErr result (IsUnheld true (asking_moment self.now).zone civil) }
        ensures kinds { IfErr result (λ e. (e ≡ CronError.OutOfMemory) ⊎ (e ≡ CronError.InvalidDate)) }
    {
        let room = Box::new(alloc, self.time)?;
        match room.resolve_civil(alloc, civil)? {
            Resolution::Single(time) => Ok(Resolution::Single(AskingTime::new(time))),
            Resolution::Ambiguous(earlier, later) => {
                let (earlier, later) = (AskingTime::new(earlier), AskingTime::new(later));
                Ok(Resolution::Ambiguous(earlier, later))
            }
            Resolution::Gap => Ok(Resolution::Gap),
        }
    }

    fn checked_add_seconds(
        &self,
        alloc: Global,
        seconds: i64,
    ) -> Result<Option<AskingTime<'t>>, CronError> {
        let room = Box::new(alloc, self.time)?;
        match room.checked_add_seconds(alloc, seconds)? {
            Some(there) => Ok(Some(AskingTime::new(there))),
            None => Ok(None),
        }
    }

    fn cmp_instant(&self, other: &Self) -> Ordering {
        self.time.cmp_instant(&other.time)
    }

    ghost clone_keeps = { λ a b e. ap asking_moment e };

    ghost clone_memory = { λ a h. absurd (false≢true (sym h)) };
}

/// The seconds of the table.
impl<'t> Clocked for AskingTime<'t> {
    ghost use Rattle.croner_base.specs.HeldSeconds.{table_held};

    fn second(&self) -> i64 {
        self.time.second()
    }

    fn at_second(&self, second: i64) -> Option<AskingTime<'t>> {
        match self.time.at_second(second) {
            Some(time) => Some(AskingTime::new(time)),
            None => None,
        }
    }

    ghost holds_its_second = { λ t. table_held t.time };
}
