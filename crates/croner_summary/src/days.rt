//! The days of a schedule: by number, from the end of the month, and by weekday.

use crate::phrase::Phrase;

/// The day that is counted from the end of each month, if any.
#[derive(Debug, Clone, Copy)]
pub enum FromEnd {
    /// None.
    Neither,
    /// The last day of the month.
    LastDay,
    /// The last Monday-to-Friday day of the month.
    LastWorkingDay,
}

/// Days of the month by number. A day is named if one of the parts names it.
#[derive(Debug)]
pub struct MonthDays {
    /// Days by number, 1 to 31.
    pub numbers: Phrase,
    /// The day from the end.
    pub from_end: FromEnd,
    /// Days by number, 1 to 31: of each the nearest Monday-to-Friday day of the month is named. A month without the day has
    /// none.
    pub nearest: Phrase,
}

/// Days by weekday, 0 for Sunday to 6 for Saturday. A day is named if one of the parts names it.
#[derive(Debug)]
pub struct Weekdays {
    /// Weekdays, each time they occur.
    pub each: Phrase,
    /// Weekdays, the first time they occur in a month.
    pub first: Phrase,
    /// The second time.
    pub second: Phrase,
    /// The third time.
    pub third: Phrase,
    /// The fourth time.
    pub fourth: Phrase,
    /// The fifth time. Some months have none.
    pub fifth: Phrase,
    /// Weekdays, the last time they occur in a month.
    pub last: Phrase,
}

/// Which days are named.
#[derive(Debug)]
pub enum Days {
    /// Each day.
    Every,
    /// Days of the month.
    OfMonth(MonthDays),
    /// Days by weekday.
    OfWeek(Weekdays),
    /// Days that one of the two names.
    Either(MonthDays, Weekdays),
    /// Days that both name.
    Both(MonthDays, Weekdays),
}

// By hand, as for the other types here, so that a function that drops one calls this one.
impl Drop for MonthDays {
    fn drop(self) {
        let MonthDays {
            numbers: _,
            from_end: _,
            nearest: _,
        } = self;
    }
}

impl Drop for Weekdays {
    fn drop(self) {
        let Weekdays {
            each: _,
            first: _,
            second: _,
            third: _,
            fourth: _,
            fifth: _,
            last: _,
        } = self;
    }
}

impl Drop for Days {
    fn drop(self) {
        match self {
            Days::Every => {}
            Days::OfMonth(_) => {}
            Days::OfWeek(_) => {}
            Days::Either(_, _) => {}
            Days::Both(_, _) => {}
        }
    }
}
