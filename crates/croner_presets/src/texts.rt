//! The differences in words.
ghost use Rattle.std.specs.Prelude.{◌≡◌, IfOk, string_bytes};
ghost use Rattle.croner_presets.specs.Presets.{program_of, SaysOf};

use crate::difference::Difference;
use crate::preset::Preset;
use std::alloc::{AllocError, Global};

impl Preset {
    /// The program's name, as a sentence has it.
    pub fn program(self) -> &'static str
        ensures { result.now ≡ program_of self }
    {
        match self {
            Preset::Kubernetes => "Kubernetes",
            Preset::Github => "GitHub",
            Preset::Quartz => "Quartz",
            Preset::Spring => "Spring up to 5.2",
        }
    }

    /// A sentence that says what the program does where a difference holds. The only error is lack of memory.
    pub fn sentence(self, alloc: Global, difference: Difference) -> Result<String, AllocError>
        ensures { IfOk result (λ said. SaysOf self (string_bytes said)) }
    {
        let program = self.program();
        let text = difference.text();
        format!(in alloc; "{program} {text}.")
    }
}

impl Difference {
    // What the program does, to follow its name.
    fn text(self) -> &'static str {
        match self {
            Difference::NicknameInCapitals => "takes nicknames in small letters alone",
            Difference::Nickname => "has no nicknames: write the fields",
            Difference::SundayAsSeven => "has no weekday 7: write 0 for Sunday",
            Difference::RangeToSunday => {
                "reads SUN as 0 also at the end of a range: write MON-SAT,SUN for MON-SUN"
            }
            Difference::OtherName => "refuses a name in a field that has no such names",
            Difference::DayModifier => "has no L, W and #",
            Difference::QuestionMark => "has no question mark: write a star",
            Difference::Plus => "has no plus in front of the weekdays",
            Difference::PlusBeforeName => { "refuses a plus in front of anything but a number" }
            Difference::StepWithoutStart => "refuses a step without a start: write a star there",
            Difference::EmptyPart => "refuses an empty part of a list",
            Difference::NotOneOpenDay =>
                "wants a question mark in one of the day fields, and in one alone",
            Difference::LastInList => "refuses an L in a list of days",
            Difference::LastByHash => "has no L after a #: write FRIL for FRI#L, and 6L for 6#L",
            Difference::SecondNth => "refuses a second # in the weekdays",
            Difference::LargeStep => "refuses a step greater than the greatest value of its field",
            Difference::MixedRange => {
                "refuses a range from a name to a number, or from a number to a name"
            }
            Difference::StarInList => "takes a star in a list, so that the field names all",
            Difference::Midnight => "takes @midnight, as 0 0 * * *",
            Difference::Every => "takes @every and a duration, as @every 5m",
            Difference::ZoneInFront => {
                "takes a zone in front up to version 1.28 alone: name it in .spec.timeZone"
            }
            Difference::QuestionMarkElsewhere => "takes a question mark for a star in each field",
            Difference::DaysBeforeLast => {
                "takes L-n, so many days before the month's last, up to 30"
            }
            Difference::RangeDown => {
                "takes a range that goes down, which goes on at the field's first value"
            }
            Difference::RangeModified => "takes an L or a W after a range, and passes over it",
            Difference::StepOfZero => {
                "takes a step of 0, as none after a star, and else for the first value alone"
            }
            Difference::LongName => "takes letters after the three of a name, and passes over them",
            Difference::DayZero => "takes day 0, on which nothing runs",
            Difference::StarAmongDays => {
                "takes a day field for a star if one stands in its list, also as */1, so that the other day field decides alone"
            }
            Difference::SundayToSunday => "reads a range from Sunday to SUN as Sunday alone",
            Difference::PlusBeforeNumber => {
                "reads the plus as the sign of a number: a day needs to match only one of the day fields"
            }
            Difference::StepToSunday =>
                "counts weekdays to 6: no step from a weekday reaches Sunday",
            Difference::Frequent => "starts a workflow at most once in five minutes",
            Difference::NthInList =>
                "runs on that weekday of the list alone which has the least number, as the # says",
            Difference::NthOfRange =>
                "passes over a # after a range, so that it runs on each of the range's days",
            Difference::NearestInList => "goes by the least day of the list alone",
            Difference::LateNearest => {
                "runs on a month's last day too, if this one lacks the day after it and the next month begins with a Saturday"
            }
            Difference::LoneLastWeekday => "reads a lone L of the weekdays as each Saturday",
            Difference::StepOfName => "passes over a step after a name",
            Difference::StepOfOpenDay => {
                "takes a day field with a question mark for a star, whatever else stands there"
            }
            Difference::DayStepFromZero => "counts days */n from 0: n, 2n and so on",
            Difference::YearStepFrom1970 =>
                "counts years */n from 1970: name a first year, as 2027/2",
        }
    }
}
