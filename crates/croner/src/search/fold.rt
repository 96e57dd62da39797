//! The two halves of a repeated range of the wall clock.
ghost use Rattle.std.specs.Prelude.{◌≡◌, ◌↔◌, ◌≤◌, IsTrue, IfOk, IfErr};
ghost use Rattle.croner_base.specs.Civil.{wall_second};
ghost use Rattle.croner_base.specs.Zone.{reading};
ghost use Rattle.croner_base.specs.Calm.{HoldsAround};
ghost use Rattle.croner.specs.search.Limit.{InSpan};
ghost use Rattle.croner.specs.search.Premises.{IsCalmStart, IsSearchable};
ghost use Rattle.croner.specs.Private.search.Halves.{edge_limit, HasTwin, IsEdge, offset_from};
ghost use Rattle.croner.specs.Private.search.Held.{HoldsSecond, IsBackendError};

use crate::search::instant::{instant_on, opposite_way, precedes};
use crate::search::wall::is_within;
use croner_base::errors::CronError;
use croner_base::time::{CivilDateTime, CronDateTime, Direction, Resolution};
use std::alloc::Global;

/// How far from the start the edge of the other half is looked for, in seconds.
const HALF_SEARCH_SECONDS: u32 = 86_400;

/// Whether the instant, which reads `shown`, is on the half of a repeated range that a search in the direction meets first.
pub(crate) fn is_on_first_half<T: CronDateTime>(
    alloc: Global,
    instant: &T,
    shown: CivilDateTime,
    direction: Direction,
) -> Result<bool, CronError>
    requires { wall_second shown ≡ reading (T.moment instant.now) }
    ensures value { IsCalmStart (T.moment instant.now).zone (T.moment instant.now).fraction
        → IfOk result (λ b. IsTrue b
        ↔ HasTwin direction (T.moment instant.now).zone.reads (T.moment instant.now).instant) }
    ensures err { IfErr result (IsBackendError T.can_lack_memory
        (¬ (HoldsSecond (T.moment instant.now).zone (reading (T.moment instant.now))))) }
{
    match instant.resolve_civil(alloc, shown)? {
        // An instant with a fraction still comes before the later of the two.
        Resolution::Ambiguous(_, later) => {
            let is_earlier = precedes(instant, &later, Direction::Forward);
            match direction {
                Direction::Forward => Ok(is_earlier),
                Direction::Backward => Ok(!is_earlier),
            }
        }
        Resolution::Single(_) => Ok(false),
        Resolution::Gap => Ok(false),
    }
}

/// From a start on the half of a repeated range that the search meets first: the nearest instant of the other half. `None`
/// where a day on is still on the start's half.
pub(crate) fn other_edge<T: CronDateTime>(
    alloc: Global,
    start: &T,
    direction: Direction,
) -> Result<Option<T>, CronError>
    ensures value { IfOk result (IsEdge T.moment direction (T.moment start.now)) }
    ensures err { IfErr result (IsBackendError T.can_lack_memory
        (IsCalmStart (T.moment start.now).zone (T.moment start.now).fraction → ¬ (HoldsAround (T.moment start.now)))) }
{
    if is_offset_on_first_half(alloc, start, HALF_SEARCH_SECONDS, direction)? {
        return Ok(None);
    }
    let mut inside: u32 = 0;
    let mut outside: u32 = HALF_SEARCH_SECONDS;
    while outside - inside > 1 {
        let middle = inside + (outside - inside) / 2;
        if is_offset_on_first_half(alloc, start, middle, direction)? {
            inside = middle;
        } else {
            outside = middle;
        }
    }
    let edge = instant_on(alloc, start, outside, direction)?;
    Ok(Some(edge))
}

// Whether the instant so many seconds on from the start is on the half that the search meets first.
fn is_offset_on_first_half<T: CronDateTime>(
    alloc: Global,
    start: &T,
    seconds: u32,
    direction: Direction,
) -> Result<bool, CronError>
    requires { seconds ≤ edge_limit }
    ensures value { IsCalmStart (T.moment start.now).zone (T.moment start.now).fraction
        → IfOk result (λ b. IsTrue b
        ↔ HasTwin direction (T.moment start.now).zone.reads
        (offset_from direction (T.moment start.now).instant seconds)) }
    ensures err { IfErr result (IsBackendError T.can_lack_memory
        (IsCalmStart (T.moment start.now).zone (T.moment start.now).fraction → ¬ (HoldsAround (T.moment start.now)))) }
{
    let there = instant_on(alloc, start, seconds, direction)?;
    is_on_first_half(alloc, &there, there.to_civil(), direction)
}

/// Whether a run lies in the span of a search in the direction: it reads a year before 5000 forward, after 1 backward, and on
/// the half of a repeated range that the search meets last the nearest instant of the other half does too.
pub(crate) fn is_in_span<T: CronDateTime>(
    alloc: Global,
    run: &T,
    direction: Direction,
) -> Result<bool, CronError>
    ensures value { IsCalmStart (T.moment run.now).zone (T.moment run.now).fraction
        → IfOk result (λ b. IsTrue b
        ↔ InSpan direction (T.moment run.now).zone.reads (T.moment run.now).instant) }
    ensures err { IfErr result (IsBackendError T.can_lack_memory (¬ (IsSearchable (T.moment run.now)))) }
{
    let shown = run.to_civil();
    if !is_within(shown, direction) {
        return Ok(false);
    }
    let back = opposite_way(direction);
    if !is_on_first_half(alloc, run, shown, back)? {
        return Ok(true);
    }
    let Some(edge) = other_edge(alloc, run, back)? else {
        return Ok(false);
    };
    Ok(is_within(edge.to_civil(), direction))
}
