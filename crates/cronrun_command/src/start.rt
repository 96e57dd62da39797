//! The instant from which a listing starts.
ghost use Rattle.std.specs.Prelude.{◌≡◌, Some, IfOk, IfErr};
ghost use Rattle.croner_base.specs.Civil.{wall_second};
ghost use Rattle.croner_base.specs.Zone.{Names};
ghost use Rattle.cronrun_command.specs.Start.{start_instant, IsNoStart};

use croner::errors::CronError;
use croner::time::{CivilDateTime, CronDateTime, Resolution};
use std::alloc::Global;

/// The instant at which a clock shows a date and time; of two, the earlier. `clock` is any value of
/// that clock.
///
/// `InvalidTime` where the clock never shows it, or doesn't hold it.
pub fn start_at<T: CronDateTime>(
    alloc: Global,
    clock: &T,
    at: CivilDateTime,
) -> Result<T, CronError>
    ensures shows { IfOk result (Names T.moment (T.moment clock.now).zone (wall_second at)) }
    ensures first { IfOk result
        (λ t. start_instant ((T.moment clock.now).zone.resolves at) ≡ Some (T.moment t).instant) }
    ensures err { IfErr result
        (IsNoStart T.can_lack_memory (start_instant ((T.moment clock.now).zone.resolves at))) }
{
    match clock.resolve_civil(alloc, at) {
        Ok(Resolution::Single(start)) => Ok(start),
        Ok(Resolution::Ambiguous(earlier, _)) => Ok(earlier),
        Ok(Resolution::Gap) => Err(CronError::InvalidTime),
        Err(CronError::OutOfMemory) => Err(CronError::OutOfMemory),
        Err(_) => Err(CronError::InvalidTime),
    }
}
