//! Reading the rule of a zone.
ghost use Rattle.std.specs.Prelude.{◌↔◌, IsSome, IfSome};
ghost use Rattle.jiff.specs.Placed.{IsPosixZone};
ghost use Rattle.jiff.specs.ZoneView.{plain_zone};
ghost use Rattle.cronrun_command.specs.Command.{IsRule};

use jiff::tz::TimeZone;

/// Reads a zone's POSIX rule, as `CET-1CEST,M3.5.0,M10.5.0/3`. `None` for every other text. It
/// takes no memory.
pub fn read_zone(rule: &str) -> Option<TimeZone<'static>>
    ensures finds { IsSome result ↔ IsRule rule.now }
    ensures reads { IfSome result (λ zone. IsPosixZone rule.now (plain_zone zone)) }
{
    TimeZone::posix(rule).ok()
}
