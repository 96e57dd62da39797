//! Searches over the two backends: their answers are the nearest runs on the clocks of their tables.
ghost use Rattle.std.specs.Prelude.{◌≡◌, true, false, IfOk, IfErr};
ghost use Rattle.croner_base.specs.Calm.{IsStart};
ghost use Rattle.croner_base.specs.TableZone.{table_zone};
ghost use Rattle.croner_base.specs.Zone.{reading};
ghost use Rattle.croner.specs.search.Limit.{NoneInSpan};
ghost use Rattle.croner.specs.search.PatternJob.{pattern_job};
ghost use Rattle.croner.specs.search.Premises.{IsSearchable};
ghost use Rattle.croner.specs.search.Refusal.{IsRefusal, IsLimitOrMemory};
ghost use Rattle.croner.specs.search.Runs.{Nearest};
ghost use Rattle.croner.specs.Views.{job_of};
ghost use Rattle.croner_backends.specs.BoxedMoment.{boxed_moment};
ghost use Rattle.croner_backends.specs.NarrowMoment.{narrow_moment};

use crate::{BoxedTime, NarrowTime};
use croner::errors::CronError;
use croner::laws::searches::found_or_refused;
use croner::{Cron, Direction};

/// What a search over the backend that takes memory answers, however much there is: the nearest run on the clock of the
/// table; the limit, if none is left in the searched years; or `OutOfMemory`. Only from a start that reads a year before
/// -9997 or after 9997 can it also be `InvalidDate` or `InvalidTime`.
pub fn nearest_boxed_run<'t>(
    job: &Cron,
    start: &BoxedTime<'t>,
    inclusive: bool,
    direction: Direction,
) -> Result<BoxedTime<'t>, CronError>
    ensures nearest { IfOk result (λ t. Nearest direction inclusive
        (pattern_job (job_of job.now) (table_zone start.now.time.value.table.now)) start.now.time.value.second t.time.value.second) }
    ensures same_zone { IfOk result (λ t. (boxed_moment t).zone ≡ (boxed_moment start.now).zone) }
    ensures limit { IfErr result (λ e. e ≡ CronError.TimeSearchLimitExceeded → NoneInSpan direction inclusive
        (pattern_job (job_of job.now) (table_zone start.now.time.value.table.now)) start.now.time.value.second) }
    ensures held { IsStart (reading (boxed_moment start.now)) → IfErr result (IsLimitOrMemory true) }
    ensures kinds { IfErr result (IsRefusal true) }
{
    found_or_refused(job, start, inclusive, direction)
}

/// What a search over the backend that holds little answers, whatever it holds: the nearest run on the clock of the table;
/// or the limit, if none is left in the searched years. Where the backend doesn't hold something that the search needs, it
/// can also be `InvalidDate` or `InvalidTime`.
pub fn nearest_narrow_run<'t>(
    job: &Cron,
    start: &NarrowTime<'t>,
    inclusive: bool,
    direction: Direction,
) -> Result<NarrowTime<'t>, CronError>
    ensures nearest { IfOk result (λ t. Nearest direction inclusive
        (pattern_job (job_of job.now) (table_zone start.now.time.table.now)) start.now.time.second t.time.second) }
    ensures same_zone { IfOk result (λ t. (narrow_moment t).zone ≡ (narrow_moment start.now).zone) }
    ensures limit { IfErr result (λ e. e ≡ CronError.TimeSearchLimitExceeded → NoneInSpan direction inclusive
        (pattern_job (job_of job.now) (table_zone start.now.time.table.now)) start.now.time.second) }
    ensures held { IsSearchable (narrow_moment start.now) → IfErr result (IsLimitOrMemory false) }
    ensures kinds { IfErr result (IsRefusal false) }
{
    found_or_refused(job, start, inclusive, direction)
}
