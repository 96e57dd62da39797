//! The languages of summaries, and what their texts are made of.

/// A language for summaries.
#[derive(Debug, Clone, Copy)]
pub enum SummaryLanguage {
    /// English.
    English,
    /// Swedish.
    Swedish,
}

/// How a text is written.
#[derive(Debug, Clone, Copy)]
pub struct Style {
    /// Its language.
    pub language: SummaryLanguage,
    /// The most pieces of a list that are written. Of the others the text says how many there are.
    pub most: u16,
}

/// The unit of a value.
#[derive(Debug, Clone, Copy)]
pub enum TimeUnit {
    Second,
    Minute,
    Hour,
    Day,
    Month,
    Year,
}

/// A term: a fixed part of a text, which each language has. Each variant says where it goes.
#[derive(Debug, Clone, Copy)]
pub enum Term {
    /// Between the first and the last value of a range.
    To,
    /// Before the last item of a list.
    And,
    /// After the number of items that are left out.
    More,
    /// In a list, for each value.
    EachOne,
    /// In a list, between a step and the first value.
    FromValue,
    /// Before a unit or a weekday that is meant each time it occurs.
    Each,
    /// Before weekdays in a row that are meant each time they occur.
    EachFrom,
    /// The end of a unit before several numbers.
    Plural,
    /// Between a step of a unit and the first value.
    From,
    /// Before times of day.
    AtTime,
    /// Before other times.
    At,
    /// Before minutes beside a step.
    AndAt,
    /// Between a unit and a larger one.
    Of,
    /// Between a step and the times of day between which it runs.
    FromTime,
    /// Between a step and the minutes of an hour between which it runs.
    FromMinute,
    /// After times, before their second.
    AtSecond,
    /// Before days.
    On,
    /// Before days, after others.
    AndOn,
    /// Before ordinals of days.
    The,
    /// Between a step and the day from which it runs.
    FromThe,
    /// Between that day and the day to which it runs.
    ToThe,
    /// Between a weekday and its day of the month.
    DatedThe,
    /// Before the weekdays to which other days are limited.
    ButOnly,
    /// After `ButOnly`, before such weekdays that are meant each time they occur.
    OnlyEach,
    /// After each of those weekdays.
    OnlyEnd,
    /// After a weekday that follows `FirstTime` to `LastTime`.
    NthEnd,
    /// Before weekdays: the first of the month.
    FirstTime,
    /// The second.
    SecondTime,
    /// The third.
    ThirdTime,
    /// The fourth.
    FourthTime,
    /// The fifth.
    FifthTime,
    /// The last.
    LastTime,
    /// After `FirstTime` to `LastTime`, before weekdays of which some are in a row.
    OfEachWeekday,
    /// After those weekdays.
    OfTheMonth,
    /// The last day of the month.
    TheLastDay,
    /// The last Monday-to-Friday day of the month.
    TheLastWorkingDay,
    /// The first Monday-to-Friday day of the month.
    TheFirstWorkingDay,
    /// Before the days whose nearest Monday-to-Friday day is meant.
    Nearest,
    /// After a day that not every month has, before its number is repeated.
    HavingOne,
    /// After that number.
    HavingOneEnd,
    /// After several days that not every month has.
    HavingDays,
    /// Before months.
    InMonths,
    /// Before months beside a step.
    AndInMonths,
    /// Before years at a step.
    InNthYears,
    /// Before years.
    InYears,
    /// Before years beside a step.
    AndInYears,
    /// No second is named, so nothing is scheduled.
    NoSecond,
    /// The same for minutes.
    NoMinute,
    /// The same for hours.
    NoHour,
    /// The same for months.
    NoMonth,
    /// The same for years.
    NoYear,
    /// No day of the month is named.
    NoMonthDay,
    /// No weekday is named.
    NoWeekday,
    /// No day of the month and no weekday is named.
    NoDay,
}
