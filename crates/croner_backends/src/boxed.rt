//! A backend that takes memory for each answer.
ghost use Rattle.std.specs.Prelude.{◌≡◌, ◌⊎◌, true, IfOk, IfErr};

use croner_base::errors::CronError;
use croner_base::time::table::TableTime;
use croner_base::time::{CivilDateTime, CronDateTime, Resolution, Weekday};
use std::alloc::Global;
use std::cmp::Ordering;

/// A second on the clock of a table, in memory of its own.
///
/// It does what a `TableTime` does, but each call that can give `OutOfMemory` asks for memory: `resolve_civil` and
/// `checked_add_seconds`, first and whatever their answer, and `clone`.
#[derive(Debug, Clone, Drop)]
pub struct BoxedTime<'t> {
    time: Box<TableTime<'t>>,
}

impl<'t> BoxedTime<'t> {
    ghost use Rattle.croner_base.specs.TableZone.{table_moment};
    ghost use Rattle.croner_backends.specs.BoxedMoment.{boxed_moment};

    /// The second, in memory of its own. The only error is `OutOfMemory`.
    pub fn new(alloc: Global, time: TableTime<'t>) -> Result<BoxedTime<'t>, CronError>
        ensures value { IfOk result (λ b. b.time.value ≡ time.entry) }
        ensures err { IfErr result (λ e. e ≡ CronError.OutOfMemory) }
    {
        Ok(BoxedTime {
            time: Box::new(alloc, time)?,
        })
    }

    /// The second on the clock of the table.
    pub fn time(&self) -> TableTime<'t>
        ensures { result ≡ self.now.time.value }
    {
        *self.time
    }

    // Another second in this memory.
    fn holding(self, time: TableTime<'t>) -> BoxedTime<'t>
        ensures { result.time.value ≡ time.entry }
    {
        let mut room = self.time;
        Box::replace(&mut room, time);
        BoxedTime { time: room }
    }
}

impl<'t> CronDateTime for BoxedTime<'t> {
    ghost use Rattle.std.proofs.Common.{ap, sym};
    ghost use Rattle.std.proofs.lemmas.Bool.{false≢true};
    ghost use Rattle.croner_base.specs.TableZone.{table_moment};
    ghost use Rattle.croner_base.specs.Zone.{IsResolved, IsUnheld};
    ghost use Rattle.croner_backends.specs.BoxedMoment.{boxed_moment};

    ghost moment = { boxed_moment };

    ghost can_lack_memory = { true };

    fn to_civil(&self) -> CivilDateTime {
        self.time().to_civil()
    }

    fn civil_weekday(&self) -> Weekday {
        self.time().civil_weekday()
    }

    fn resolve_civil(
        &self,
        alloc: Global,
        civil: CivilDateTime,
    ) -> Result<Resolution<BoxedTime<'t>>, CronError>
        ensures value { IfOk result (IsResolved boxed_moment (boxed_moment self.now).zone civil) }
        ensures err { IfErr result (IsUnheld true (boxed_moment self.now).zone civil) }
        ensures kinds { IfErr result (λ e. (e ≡ CronError.OutOfMemory) ⊎ (e ≡ CronError.InvalidDate)) }
    {
        let room = BoxedTime::new(alloc, self.time())?;
        match self.time().resolve_civil(alloc, civil)? {
            Resolution::Single(time) => Ok(Resolution::Single(room.holding(time))),
            Resolution::Ambiguous(earlier, later) => {
                let other = BoxedTime::new(alloc, later)?;
                Ok(Resolution::Ambiguous(room.holding(earlier), other))
            }
            Resolution::Gap => Ok(Resolution::Gap),
        }
    }

    fn checked_add_seconds(
        &self,
        alloc: Global,
        seconds: i64,
    ) -> Result<Option<BoxedTime<'t>>, CronError> {
        let room = BoxedTime::new(alloc, self.time())?;
        match self.time().checked_add_seconds(alloc, seconds)? {
            Some(there) => Ok(Some(room.holding(there))),
            None => Ok(None),
        }
    }

    fn cmp_instant(&self, other: &Self) -> Ordering {
        self.time().cmp_instant(&other.time())
    }

    ghost clone_keeps = { λ a b e. ap table_moment e };

    ghost clone_memory = { λ a h. absurd (false≢true (sym h)) };
}
