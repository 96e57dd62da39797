//! The programs, and the settings of the parser for each.
ghost use Rattle.std.specs.Prelude.{◌≡◌, MatchOption};
ghost use Rattle.croner_presets.specs.Presets.{name_of, five_fields, settings_of, differences_looked_for, IsNoName};

use crate::difference::Difference;
use croner::parser::{CronParser, Seconds, Year};

/// A program that reads patterns.
#[derive(Debug, Clone, Copy, PartialEq, Eq, Drop)]
pub enum Preset {
    /// The schedule of a Kubernetes CronJob, as `robfig/cron` 3.0.1 reads it.
    Kubernetes,
    /// The schedule of a workflow, by GitHub's documentation.
    Github,
    /// `CronExpression` of Quartz 2.3.2.
    Quartz,
    /// `CronSequenceGenerator` of Spring up to 5.2.
    Spring,
}

/// All presets.
pub const PRESETS: [Preset; 4] = [
    Preset::Kubernetes,
    Preset::Github,
    Preset::Quartz,
    Preset::Spring,
];

impl Preset {
    /// Its name as an option's word: `kubernetes`, `github`, `quartz` or `spring`.
    pub fn name(self) -> &'static str
        ensures { result.now ≡ name_of self }
    {
        match self {
            Preset::Kubernetes => "kubernetes",
            Preset::Github => "github",
            Preset::Quartz => "quartz",
            Preset::Spring => "spring",
        }
    }

    /// The preset with that name, in lower case; `None` if there is none.
    pub fn of_name(name: &str) -> Option<Preset>
        ensures { MatchOption result (IsNoName name.now) (λ preset. name.now ≡ name_of preset) }
    {
        match name {
            "kubernetes" => Some(Preset::Kubernetes),
            "github" => Some(Preset::Github),
            "quartz" => Some(Preset::Quartz),
            "spring" => Some(Preset::Spring),
            _ => None,
        }
    }

    /// The parser that comes nearest to the program. For each of them a step may follow a number, as in `5/10`. Kubernetes and GitHub
    /// have five fields. Quartz has seconds, optional years, and weekdays from 1 for Sunday. Spring has seconds and no years, and a
    /// day has to match both day fields.
    pub fn parser(self) -> CronParser
        ensures { result ≡ settings_of self }
    {
        match self {
            Preset::Kubernetes | Preset::Github => five_fields(),
            Preset::Quartz => CronParser::builder()
                .seconds(Seconds::Required)
                .year(Year::Optional)
                .alternative_weekdays(true)
                .sloppy_ranges(true)
                .build(),
            Preset::Spring => CronParser::builder()
                .seconds(Seconds::Required)
                .year(Year::Disallowed)
                .dom_and_dow(true)
                .sloppy_ranges(true)
                .build(),
        }
    }

    /// The differences looked for in a text, in the order in which they are listed: what the program refuses, what it accepts,
    /// and what it reads differently.
    pub fn differences_looked_for(self) -> &'static [Difference]
        ensures { result.now ≡ differences_looked_for self }
    {
        match self {
            Preset::Kubernetes => &OF_KUBERNETES,
            Preset::Github => &OF_GITHUB,
            Preset::Quartz => &OF_QUARTZ,
            Preset::Spring => &OF_SPRING,
        }
    }
}

fn five_fields() -> CronParser
    ensures { result ≡ five_fields }
{
    CronParser::builder()
        .seconds(Seconds::Disallowed)
        .year(Year::Disallowed)
        .sloppy_ranges(true)
        .build()
}

const OF_KUBERNETES: [Difference; 16] = [
    Difference::NicknameInCapitals,
    Difference::SundayAsSeven,
    Difference::RangeToSunday,
    Difference::OtherName,
    Difference::DayModifier,
    Difference::PlusBeforeName,
    Difference::StepWithoutStart,
    Difference::StarInList,
    Difference::Midnight,
    Difference::Every,
    Difference::ZoneInFront,
    Difference::QuestionMarkElsewhere,
    Difference::StarAmongDays,
    Difference::SundayToSunday,
    Difference::PlusBeforeNumber,
    Difference::StepToSunday,
];

const OF_GITHUB: [Difference; 8] = [
    Difference::Nickname,
    Difference::SundayAsSeven,
    Difference::OtherName,
    Difference::DayModifier,
    Difference::QuestionMark,
    Difference::Plus,
    Difference::StepWithoutStart,
    Difference::Frequent,
];

const OF_QUARTZ: [Difference; 22] = [
    Difference::Nickname,
    Difference::NotOneOpenDay,
    Difference::OtherName,
    Difference::Plus,
    Difference::LastInList,
    Difference::LastByHash,
    Difference::SecondNth,
    Difference::LargeStep,
    Difference::MixedRange,
    Difference::StarInList,
    Difference::DaysBeforeLast,
    Difference::RangeDown,
    Difference::RangeModified,
    Difference::StepOfZero,
    Difference::LongName,
    Difference::NthInList,
    Difference::NthOfRange,
    Difference::NearestInList,
    Difference::LateNearest,
    Difference::LoneLastWeekday,
    Difference::StepOfName,
    Difference::YearStepFrom1970,
];

const OF_SPRING: [Difference; 11] = [
    Difference::Nickname,
    Difference::RangeToSunday,
    Difference::OtherName,
    Difference::DayModifier,
    Difference::StepWithoutStart,
    Difference::EmptyPart,
    Difference::StarInList,
    Difference::DayZero,
    Difference::SundayToSunday,
    Difference::StepOfOpenDay,
    Difference::DayStepFromZero,
];
