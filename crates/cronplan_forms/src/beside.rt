//! The clock of a second zone, beside that of a plan.
ghost use Rattle.std.specs.Prelude.{option_copied};
ghost use Rattle.cronplan_forms.specs.Besides.{IsBeside, IsBesideOn, IsShownTime};

use crate::clock::ClockTime;
use crate::view::View;
use croner_base::time::table::ClockTable;
use std::fmt;

/// The clock of a second zone, which is shown beside that of a plan.
#[derive(Clone, Copy)]
pub struct OtherClock<'c> {
    /// The name of its zone.
    pub zone: &'c str,
    /// `None` if its clock isn't followed in the span of the plan.
    pub table: Option<&'c ClockTable>,
}

/// What the clock of a second zone shows at a second.
#[derive(Clone, Copy)]
pub enum Beside {
    /// No second zone is shown.
    Nothing,
    /// Its clock isn't followed.
    Unfollowed,
    Shown(ClockTime),
}

impl Beside {
    // That of this clock, if there is one.
    fn at(other: Option<OtherClock<'_>>, second: i64) -> Beside
        ensures { IsBeside other.entry second result }
    {
        match other {
            Some(other) => Beside::on(other.table, second),
            None => Beside::Nothing,
        }
    }

    // That of the clock of this table, if it is followed.
    fn on(table: Option<&ClockTable>, second: i64) -> Beside
        ensures { IsBesideOn (option_copied table.entry) second result }
    {
        match table {
            Some(table) => Beside::Shown(ClockTime::shown_at(table, second)),
            None => Beside::Unfollowed,
        }
    }
}

/// A second, with what the clock of a plan shows then, and that of a second zone. As a text it is `Sun 2027-03-28 03:00:00 +02:00`, or with a
/// second zone `Sun 2027-03-28 03:00:00 +02:00 = Sun 2027-03-28 04:00:00 +03:00`.
#[derive(Clone, Copy)]
pub struct ShownTime {
    pub own: ClockTime,
    pub beside: Beside,
}

impl ShownTime {
    /// What the clocks of a view show at a second.
    pub fn at(view: View<'_>, second: i64) -> ShownTime
        ensures { IsShownTime view.entry second result }
    {
        ShownTime {
            own: ClockTime::shown_at(view.table, second),
            beside: Beside::at(view.other, second),
        }
    }
}

impl fmt::Display for Beside {
    ghost use Rattle.std.specs.Prelude.{Some};
    ghost use Rattle.cronplan_forms.specs.Besides.{beside_text};

    ghost output = { λ b. Some (beside_text b) };

    fn fmt<W: fmt::Write>(&self, f: &mut fmt::Formatter<W>) -> fmt::Result {
        match self {
            Beside::Shown(time) => write!(f, " = {time}"),
            Beside::Nothing | Beside::Unfollowed => Ok(()),
        }
    }
}

impl fmt::Display for ShownTime {
    ghost use Rattle.std.specs.Prelude.{Some};
    ghost use Rattle.cronplan_forms.specs.Besides.{shown_time_text};

    ghost output = { λ t. Some (shown_time_text t) };

    fn fmt<W: fmt::Write>(&self, f: &mut fmt::Formatter<W>) -> fmt::Result {
        let (own, beside) = (self.own, self.beside);
        write!(f, "{own}{beside}")
    }
}
