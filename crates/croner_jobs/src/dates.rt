//! Sets of dates.
ghost use Rattle.std.specs.Prelude.{◌↔◌, IsTrue, Contains};

use croner::CivilDate;

/// Which dates are kept.
#[derive(Drop)]
pub enum Dates {
    /// Those of a list.
    Only(Vec<CivilDate>),
    /// All but those of a list.
    AllBut(Vec<CivilDate>),
}

impl Dates {
    ghost use Rattle.croner_jobs.specs.Dates.{Keeps};

    /// Whether a date is kept.
    ///
    /// ```
    /// let is_open = Dates::AllBut(holidays).keeps(CivilDate::from_ymd(2024, 4, 1)?); // false
    /// ```
    pub fn keeps(&self, date: CivilDate) -> bool
        ensures { IsTrue result ↔ Keeps self.now date }
    {
        match self {
            Dates::Only(dates) => lists(dates, date),
            Dates::AllBut(dates) => !lists(dates, date),
        }
    }
}

// Whether a list has a date.
fn lists(dates: &Vec<CivilDate>, date: CivilDate) -> bool
    ensures { IsTrue result ↔ Contains dates.now.items date }
{
    dates.contains(&date)
}
