//! The names of warnings, and what they say.
ghost use Rattle.std.specs.Prelude.{◌≡◌};
ghost use Rattle.croncheck_warnings.specs.Warnings.{field_of, warning_name, is_refusal_elsewhere, other_name};

use super::{OtherWarning, Warning};
use crate::presets::PRESET;
use croner::parser::PatternField;
use std::alloc::{AllocError, Global};

impl Warning {
    /// The name of the warning, as `either-day`.
    pub fn name(self) -> &'static str
        ensures { result.now ≡ warning_name self }
    {
        match self {
            Warning::EitherDay => "either-day",
            Warning::UnevenStep(_) => "uneven-step",
            Warning::StepBeyond(_) => "step-beyond",
            Warning::RangeDown(_) => "range-down",
            Warning::PassedOver(_) => "passed-over",
            Warning::LargeNumber(_) => "large-number",
            Warning::WholeHour => "whole-hour",
            Warning::ShortMonths => "short-months",
            Warning::Gone => "gone",
            Warning::Never => "never",
            Warning::NoCommand => "no-command",
            Warning::LooksLikeField => "looks-like-field",
            Warning::User => "user",
            Warning::Percent => "percent",
            Warning::Continued => "continued",
            Warning::ControlByte => "control-byte",
            Warning::NoNewline => "no-newline",
            Warning::CarriageReturn => "carriage-return",
            Warning::EmptyItem => "empty-item",
            Warning::OtherName(_) => "other-name",
            Warning::Preset(_) => PRESET,
        }
    }

    /// The field that the warning is about, if it is about one.
    pub fn field(self) -> Option<PatternField>
        ensures { result ≡ field_of self }
    {
        match self {
            Warning::UnevenStep(field)
            | Warning::StepBeyond(field)
            | Warning::RangeDown(field)
            | Warning::PassedOver(field)
            | Warning::LargeNumber(field)
            | Warning::OtherName(field) => Some(field),
            Warning::EitherDay
            | Warning::WholeHour
            | Warning::ShortMonths
            | Warning::Gone
            | Warning::Never
            | Warning::NoCommand
            | Warning::LooksLikeField
            | Warning::User
            | Warning::Percent
            | Warning::Continued
            | Warning::ControlByte
            | Warning::NoNewline
            | Warning::CarriageReturn
            | Warning::EmptyItem
            | Warning::Preset(_) => None,
        }
    }

    /// Whether it says that the program which patterns are read for refuses the pattern.
    pub fn is_refusal_elsewhere(self) -> bool
        ensures { result ≡ is_refusal_elsewhere self }
    {
        if let Warning::Preset(reading) = self {
            reading.is_refusal()
        } else {
            false
        }
    }

    /// What happens, and what to write instead.
    pub fn text(self) -> &'static str {
        match self {
            Warning::EitherDay => EITHER_DAY,
            Warning::UnevenStep(_) => UNEVEN_STEP,
            Warning::StepBeyond(_) => STEP_BEYOND,
            Warning::RangeDown(_) => RANGE_DOWN,
            Warning::PassedOver(_) => PASSED_OVER,
            Warning::LargeNumber(_) => LARGE_NUMBER,
            Warning::WholeHour => WHOLE_HOUR,
            Warning::ShortMonths => SHORT_MONTHS,
            Warning::Gone => GONE,
            Warning::Never => NEVER,
            Warning::NoCommand => NO_COMMAND,
            Warning::LooksLikeField => LOOKS_LIKE_FIELD,
            Warning::User => USER,
            Warning::Percent => PERCENT,
            Warning::Continued => CONTINUED,
            Warning::ControlByte => CONTROL_BYTE,
            Warning::NoNewline => NO_NEWLINE,
            Warning::CarriageReturn => CARRIAGE_RETURN,
            Warning::EmptyItem => EMPTY_ITEM,
            Warning::OtherName(_) => OTHER_NAME,
            Warning::Preset(_) => OTHER_READING,
        }
    }
}

impl OtherWarning {
    /// The name of the warning, as `no-zone`.
    pub fn name(self) -> &'static str
        ensures { result.now ≡ other_name self }
    {
        match self {
            OtherWarning::NoNewline => Warning::NoNewline.name(),
            OtherWarning::ControlByte => Warning::ControlByte.name(),
            OtherWarning::NoZone => "no-zone",
            OtherWarning::NoEffect => "no-effect",
            OtherWarning::NotExpanded => "not-expanded",
            OtherWarning::NoMail => "no-mail",
            OtherWarning::ManyLines => "many-lines",
        }
    }

    /// What happens, and what to write instead.
    pub fn text(self) -> &'static str {
        match self {
            OtherWarning::NoNewline => Warning::NoNewline.text(),
            OtherWarning::ControlByte => Warning::ControlByte.text(),
            OtherWarning::NoZone => NO_ZONE,
            OtherWarning::NoEffect => NO_EFFECT,
            OtherWarning::NotExpanded => NOT_EXPANDED,
            OtherWarning::NoMail => NO_MAIL,
            OtherWarning::ManyLines => MANY_LINES,
        }
    }
}

/// The text of a warning of which nothing but its kind is known; that of `preset` says what the program does. The only error is lack of
/// memory.
pub fn warning_text(alloc: Global, warning: Warning) -> Result<String, AllocError> {
    if let Warning::Preset(reading) = warning {
        return reading.sentence(alloc);
    }
    String::from_str(alloc, warning.text())
}

const EITHER_DAY: &str =
    "This starts on each day that the day of the month or the weekday names, not only where both match. Write `*` for one of them, or test the weekday in the command.";

const UNEVEN_STEP: &str =
    "The last interval of each minute, hour or day is shorter than the others. Write a step that divides 60 (24 for hours).";

const STEP_BEYOND: &str =
    "The step leads past the end of its range, so only the first value counts. Write that value.";

const RANGE_DOWN: &str =
    "A range that goes down names nothing to cron. Write it as two, as `22-23,0-4` for `22-4`, and `fri-7` for `fri-sun`.";

const PASSED_OVER: &str =
    "Cron reads only the front of the field and ignores the rest. Write only what counts.";

const LARGE_NUMBER: &str = "Cron keeps only 32 bits of a number. Write the number that is left.";

const WHOLE_HOUR: &str =
    "The job runs in each of the sixty minutes of its hours. For one run an hour write one minute, as `0`; where each minute is meant, write the hours as one range, as `9-17`.";

const SHORT_MONTHS: &str =
    "A named month is too short for a named day, and has no run on that day. For a run in each month name a day up to 28, or the days 28 to 31 and let the command test for the last one.";

const GONE: &str =
    "All years that it names are past, so it never runs again. Name a later year, or take the line out.";

const NEVER: &str =
    "No run is left before year 5000. Look for a date that doesn't exist, a range that runs down, as `10-5`, or a time that the clock skips.";

const NO_COMMAND: &str =
    "The line has no command, so cron starts a shell that does nothing. Write the command after the times, or put `#` in front of the line.";

const LOOKS_LIKE_FIELD: &str =
    "A crontab has five fields, so a sixth is taken for the command or the user. Take one field out: seconds and years have no place there.";

const USER: &str =
    "In a crontab of the system the word after the times is the user who runs the command; in a user's crontab it is the command. Put the user's name in, or take it out.";

const PERCENT: &str =
    "Cron ends the command at a percent sign that no backslash takes in, and gives it what follows as its input. Write `\\%` for a percent sign.";

const CONTINUED: &str =
    "Cron has no continued lines: the command ends here, and the next line is read as one of its own. Write the command on one line, or into a script.";

const CONTROL_BYTE: &str =
    "A control byte, or a character that nobody sees, stands in the line: it can hide what cron runs. Take it out.";

const NO_NEWLINE: &str =
    "The last line doesn't end with a line feed, so cron ignores the whole file. End the line.";

const NO_ZONE: &str =
    "This cron doesn't run jobs in the zone of a setting: it is only a variable of the commands. Write the times in the machine's zone.";

const NO_EFFECT: &str =
    "Debian's cron only passes this variable to the commands; other crons, such as systemd-cron and cronie, start jobs by it. Take the line out. For a random delay begin the command with `sleep $((RANDOM \\% 300));` and set `SHELL=/bin/bash`.";

const NOT_EXPANDED: &str =
    "Cron takes a value as it stands: it expands neither `$` nor `~`, and a comment after it is a part of it. Write the whole path, and put a comment on a line of its own.";

const NO_MAIL: &str =
    "Cron sends no mail where the value of `MAILTO` has a blank, a `<` or another sign than letters, digits and `@!:%-.,_+=/`, or doesn't begin with a letter or a digit. Write the address alone, as `ops@example.org`; several stand with commas between them, and no blanks.";

const CARRIAGE_RETURN: &str =
    "The line ends with a carriage return, which becomes part of the command. Save the file with line feeds alone.";

const EMPTY_ITEM: &str =
    "A list has an empty item, which is skipped here and refused by cron. Take out the comma, or write what is missing.";

const OTHER_NAME: &str =
    "The name is one of another field, and its number counts here: `MON` among months is January. Write the number, or a name of this field.";

const OTHER_READING: &str =
    "The program that the patterns are read for refuses this one, or reads it otherwise.";

const MANY_LINES: &str =
    "The file is longer than cron takes it, so cron ignores it. Write fewer lines.";
