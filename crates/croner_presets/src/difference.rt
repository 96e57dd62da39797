//! The differences, each with its kind and its name.
ghost use Rattle.std.specs.Prelude.{◌≡◌};
ghost use Rattle.croner_presets.specs.Presets.{kind_of};

/// A way in which a program reads a pattern differently from the parser of its preset. Each is about one form in the text. Where a text has
/// several of these forms, or is otherwise wrong, another form or fault may decide what the program does.
#[derive(Debug, Clone, Copy, PartialEq, Eq, Drop)]
pub enum Difference {
    // ---- refused by the program
    /// A nickname with a capital letter.
    NicknameInCapitals,
    /// A nickname, as `@daily`.
    Nickname,
    /// Sunday as 7.
    SundayAsSeven,
    /// A range to `SUN`, as `MON-SUN`.
    RangeToSunday,
    /// A name in a field that has no such name.
    OtherName,
    /// `L`, `W` or `#` in a day field.
    DayModifier,
    /// A `?` in a day field.
    QuestionMark,
    /// A `+` before the weekdays.
    Plus,
    /// A `+` before the weekdays, and no digit after it.
    PlusBeforeName,
    /// A step without a start, as `/15`.
    StepWithoutStart,
    /// An empty part of a list, as in `1,,2`.
    EmptyPart,
    /// A `?` in neither day field, or in both.
    NotOneOpenDay,
    /// An `L` in a list of several parts.
    LastInList,
    /// A weekday with `#L`, as `FRI#L`.
    LastByHash,
    /// Two `#` in the weekdays.
    SecondNth,
    /// A step greater than the greatest value of its field.
    LargeStep,
    /// A range from a name to a number, or from a number to a name.
    MixedRange,
    // ---- taken by the program
    /// A star in a list of several parts.
    StarInList,
    /// `@midnight`.
    Midnight,
    /// `@every` and a duration.
    Every,
    /// `TZ=` or `CRON_TZ=` before the pattern.
    ZoneInFront,
    /// A `?` in minutes, hours or months.
    QuestionMarkElsewhere,
    /// Days before a month's last, as `L-3`.
    DaysBeforeLast,
    /// A range that goes down, as `FRI-MON`.
    RangeDown,
    /// A range with `L` or `W` after it, as `1-5W`.
    RangeModified,
    /// A step of 0.
    StepOfZero,
    /// More letters after a name, as `MONDAY`.
    LongName,
    /// Day 0 of a month.
    DayZero,
    // ---- read otherwise by the program
    /// A star among other parts of a day field, or a star with the step 1 there.
    StarAmongDays,
    /// A range from Sunday to `SUN`.
    SundayToSunday,
    /// A `+` before the weekdays, and a digit after it.
    PlusBeforeNumber,
    /// A step that leads from a weekday to the value 7.
    StepToSunday,
    /// Two minutes less than five apart.
    Frequent,
    /// A `#` in a list of several parts, behind no range.
    NthInList,
    /// A range with a `#` after it, as `MON-FRI#2`.
    NthOfRange,
    /// A `W` in a list of several parts, behind no range.
    NearestInList,
    /// `29W`, `30W` or `31W`.
    LateNearest,
    /// Weekdays that are just `L`.
    LoneLastWeekday,
    /// A step after a name.
    StepOfName,
    /// A step in a day field with a `?`.
    StepOfOpenDay,
    /// Days of the month as `*/n`.
    DayStepFromZero,
    /// Years as `*/n` or `/n`.
    YearStepFrom1970,
}

/// How a program differs.
#[derive(Debug, Clone, Copy, PartialEq, Eq, Drop)]
pub enum Kind {
    /// It refuses what the parser accepts.
    Refuses,
    /// It accepts what the parser refuses.
    Takes,
    /// Both accept it, with different meanings.
    ReadsOtherwise,
}

impl Difference {
    /// How the program differs.
    pub fn kind(self) -> Kind
        ensures { result ≡ kind_of self }
    {
        match self {
            Difference::NicknameInCapitals
            | Difference::Nickname
            | Difference::SundayAsSeven
            | Difference::RangeToSunday
            | Difference::OtherName
            | Difference::DayModifier
            | Difference::QuestionMark
            | Difference::Plus
            | Difference::PlusBeforeName
            | Difference::StepWithoutStart
            | Difference::EmptyPart
            | Difference::NotOneOpenDay
            | Difference::LastInList
            | Difference::LastByHash
            | Difference::SecondNth
            | Difference::LargeStep
            | Difference::MixedRange => Kind::Refuses,
            Difference::StarInList
            | Difference::Midnight
            | Difference::Every
            | Difference::ZoneInFront
            | Difference::QuestionMarkElsewhere
            | Difference::DaysBeforeLast
            | Difference::RangeDown
            | Difference::RangeModified
            | Difference::StepOfZero
            | Difference::LongName
            | Difference::DayZero => Kind::Takes,
            Difference::StarAmongDays
            | Difference::SundayToSunday
            | Difference::PlusBeforeNumber
            | Difference::StepToSunday
            | Difference::Frequent
            | Difference::NthInList
            | Difference::NthOfRange
            | Difference::NearestInList
            | Difference::LateNearest
            | Difference::LoneLastWeekday
            | Difference::StepOfName
            | Difference::StepOfOpenDay
            | Difference::DayStepFromZero
            | Difference::YearStepFrom1970 => Kind::ReadsOtherwise,
        }
    }
}
