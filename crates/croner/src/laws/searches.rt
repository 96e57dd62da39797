//! Laws of searches in every zone, calm or not, and from each start, fractions of a second included. [`CronDateTime`] says when
//! a zone is calm.
ghost use Rattle.std.specs.Prelude.{◌≡◌, ◌↔◌, false, IsTrue, IfOk, IfErr, Err};
ghost use Rattle.croner_base.specs.Civil.{wall_second};
ghost use Rattle.croner_base.specs.Zone.{reading};
ghost use Rattle.croner_pattern.specs.Schedule.{IsScheduled, is_fixed_time};
ghost use Rattle.croner.specs.search.Limit.{IsOutside};
ghost use Rattle.croner.specs.search.PatternJob.{timetable_of};
ghost use Rattle.croner.specs.search.Premises.{HasOneInstantEach};
ghost use Rattle.croner.specs.search.Refusal.{IsRefusal};
ghost use Rattle.croner.specs.search.Searches.{IsFound, IsRefused};
ghost use Rattle.croner.specs.Views.{job_of};

use crate::Cron;
use croner_base::errors::CronError;
use croner_base::time::{CivilDateTime, CronDateTime, Direction};

/// What a search finds, and what `is_time_matching` says of it.
///
/// The second value says whether the zone's clock shows a scheduled second at the first. It is true for an interval job, and
/// for every job if the zone resolves each second that it holds to one instant. It is false at a fixed-time job's run that
/// is carried across a gap, since nothing is scheduled there.
pub fn found_and_matching<T: CronDateTime>(
    job: &Cron,
    start: &T,
    inclusive: bool,
    direction: Direction,
) -> Result<(T, bool), CronError>
    ensures found { IfOk result (λ r. IsFound direction inclusive (timetable_of (job_of job.now)) (T.moment start.now) (T.moment r.0)) }
    ensures matching { IfOk result (λ r. IsTrue r.1 ↔ IsScheduled (job_of job.now) (reading (T.moment r.0))) }
    ensures interval { is_fixed_time (job_of job.now) ≡ false → IfOk result (λ r. IsTrue r.1) }
    ensures single { HasOneInstantEach (T.moment start.now).zone → IfOk result (λ r. IsTrue r.1) }
    ensures refused { IfErr result (IsRefused T.can_lack_memory direction inclusive (timetable_of (job_of job.now)) (T.moment start.now)) }
{
    let found = job.find_occurrence(start, inclusive, direction)?;
    let matching = job.is_time_matching(&found)?;
    Ok((found, matching))
}

/// What a search finds, and what its clock shows there.
///
/// The first value is a whole second in the start's zone, and the second is what that zone's clock shows at it. That is a
/// scheduled second for an interval job, and for every job if the zone resolves each second that it holds to one instant. The
/// job and the start are only read.
pub fn found_and_shown<T: CronDateTime>(
    job: &Cron,
    start: &T,
    inclusive: bool,
    direction: Direction,
) -> Result<(T, CivilDateTime), CronError>
    ensures found { IfOk result (λ r. IsFound direction inclusive (timetable_of (job_of job.now)) (T.moment start.now) (T.moment r.0)) }
    ensures zone { IfOk result (λ r. (T.moment r.0).zone ≡ (T.moment start.now).zone) }
    ensures whole { IfOk result (λ r. (T.moment r.0).fraction ≡ 0) }
    ensures shown { IfOk result (λ r. wall_second r.1 ≡ (T.moment start.now).zone.reads (T.moment r.0).instant) }
    ensures interval { is_fixed_time (job_of job.now) ≡ false → IfOk result (λ r. IsScheduled (job_of job.now) (wall_second r.1)) }
    ensures single { HasOneInstantEach (T.moment start.now).zone → IfOk result (λ r. IsScheduled (job_of job.now) (wall_second r.1)) }
    ensures refused { IfErr result (IsRefused T.can_lack_memory direction inclusive (timetable_of (job_of job.now)) (T.moment start.now)) }
{
    let found = job.find_occurrence(start, inclusive, direction)?;
    let shown = found.to_civil();
    Ok((found, shown))
}

/// A search's answer: the law of its errors.
///
/// Its errors are `TimeSearchLimitExceeded` (the limit), `InvalidDate`, `InvalidTime` and, only over a backend that can lack
/// memory, `OutOfMemory`. In a calm zone from a whole second the limit means that no run is left in the searched years. If the
/// backend also holds what a search needs, the only errors are the limit and lack of memory. From a start whose clock shows year
/// 5001 or later (forward), or year 0 or earlier (backward), the answer is the limit, in every zone and over every backend.
pub fn found_or_refused<T: CronDateTime>(
    job: &Cron,
    start: &T,
    inclusive: bool,
    direction: Direction,
) -> Result<T, CronError>
    ensures kinds { IfErr result (IsRefusal T.can_lack_memory) }
    ensures refused { IfErr result (IsRefused T.can_lack_memory direction inclusive (timetable_of (job_of job.now)) (T.moment start.now)) }
    ensures found { IfOk result (λ t. IsFound direction inclusive (timetable_of (job_of job.now)) (T.moment start.now) (T.moment t)) }
    ensures outside { IsOutside direction (reading (T.moment start.now)) → result ≡ Err CronError.TimeSearchLimitExceeded }
{
    job.find_occurrence(start, inclusive, direction)
}
