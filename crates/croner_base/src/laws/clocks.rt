//! What holds for `jiff`'s clocks, whatever a search asks of them.
//!
//! [`CronDateTime`](crate::time::CronDateTime) says when a zone is calm.
ghost use Rattle.std.specs.Prelude.{◌≡◌, ℤ, Some};
ghost use Rattle.croner_base.specs.declared.time.civil.CivilDateTime.{CivilDateTime};
ghost use Rattle.croner_base.specs.declared.time.value.Resolution.{Resolution};
ghost use Rattle.croner_base.specs.Calm.{IsCalm, IsStart, HoldsAround};
ghost use Rattle.croner_base.specs.Civil.{wall_second};
ghost use Rattle.croner_base.specs.CivilZone.{civil_moment};
ghost use Rattle.croner_base.specs.Zone.{reading};
ghost use Rattle.croner_base.specs.ZonedValue.{value_moment};

use jiff::Zoned;
use jiff::civil::DateTime;

/// The clock of civil date-times is calm: it never changes, and each second that `jiff` holds is resolved to exactly
/// the one instant that shows it.
pub fn civil_time_is_calm(start: DateTime)
    ensures calm { IsCalm (civil_moment start).zone }
    ensures single { (civil : CivilDateTime) (instants : Resolution ℤ)
        → (civil_moment start).zone.resolves civil ≡ Some instants
        → instants ≡ Resolution.Single (wall_second civil) }
{}

/// `jiff` holds all that a search needs from a civil date-time of the years -9997 to 9997.
pub fn civil_time_holds_around(start: DateTime)
    ensures { IsStart (reading (civil_moment start)) → HoldsAround (civil_moment start) }
{}

/// `jiff` holds all that a search needs from a zoned date-time whose clock shows a year from -9997 to 9997, in every
/// time zone, calm or not.
pub fn zoned_holds_around(start: &Zoned<'_>)
    ensures { IsStart (reading (value_moment start.now)) → HoldsAround (value_moment start.now) }
{}
