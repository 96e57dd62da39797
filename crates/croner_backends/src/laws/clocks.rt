//! What the clocks of the two backends have in common with their tables.
ghost use Rattle.std.specs.Prelude.{◌↔◌, IsSome};
ghost use Rattle.croner_base.specs.declared.time.civil.CivilDateTime.{CivilDateTime};
ghost use Rattle.croner_base.specs.Civil.{wall_second};
ghost use Rattle.croner_base.specs.TableZone.{table_zone};
ghost use Rattle.croner.specs.search.Premises.{StartsCalm};
ghost use Rattle.croner_backends.specs.BoxedMoment.{boxed_moment};
ghost use Rattle.croner_backends.specs.Narrow.{IsHeldBetween};
ghost use Rattle.croner_backends.specs.NarrowMoment.{narrow_moment};

use crate::{BoxedTime, NarrowTime};

/// A second of the backend that takes memory is a whole second in a calm zone.
pub fn boxed_time_is_calm(time: &BoxedTime<'_>)
    ensures { StartsCalm (boxed_moment time.now) }
{}

/// A second of the backend that holds little is a whole second in a calm zone, whatever it holds. Its clock is the table's,
/// and a wall second that is held is resolved to all instants that show it.
pub fn narrow_time_is_calm(time: &NarrowTime<'_>)
    ensures { StartsCalm (narrow_moment time.now) }
{}

/// That backend holds a wall second if the table does, and all instants that show it lie between the bounds, and so does
/// the end of the gap, if it is in one.
pub fn narrow_time_holds_between(time: &NarrowTime<'_>)
    ensures { (civil : CivilDateTime) → IsSome ((narrow_moment time.now).zone.resolves civil)
        ↔ (IsSome ((table_zone time.now.time.table.now).resolves civil)
        × IsHeldBetween (table_zone time.now.time.table.now).reads time.now.low time.now.high (wall_second civil)) }
{}
