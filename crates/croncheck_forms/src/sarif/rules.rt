//! The rules: what the names of findings stand for.

/// A rule: the name of a finding, and what it stands for.
#[derive(Clone, Copy)]
pub struct Rule {
    pub name: &'static str,
    pub text: &'static str,
}

/// The rules of all findings.
pub const RULES: [Rule; 57] = [
    Rule {
        name: "nul",
        text: "The line has a byte 0, at which cron ends it.",
    },
    Rule {
        name: "minutes",
        text: "Cron refuses the field of minutes.",
    },
    Rule {
        name: "hours",
        text: "Cron refuses the field of hours.",
    },
    Rule {
        name: "days",
        text: "Cron refuses the field of days of the month.",
    },
    Rule {
        name: "months",
        text: "Cron refuses the field of months.",
    },
    Rule {
        name: "weekdays",
        text: "Cron refuses the field of weekdays.",
    },
    Rule {
        name: "nickname",
        text: "Cron knows no such nickname.",
    },
    Rule {
        name: "user",
        text: "A user is missing where one has to be named, or named where none may be.",
    },
    Rule {
        name: "unknown-user",
        text: "The user of the job is none of those that --users or --root names, so cron refuses the line.",
    },
    Rule {
        name: "command",
        text: "The command begins with a star.",
    },
    Rule {
        name: "long-command",
        text: "The command is longer than cron takes.",
    },
    Rule {
        name: "pattern",
        text: "The pattern is refused.",
    },
    Rule {
        name: "text",
        text: "The times of the line can't be read.",
    },
    Rule {
        name: "not-utf-8",
        text: "The pattern is no text in UTF-8.",
    },
    Rule {
        name: "refused-line",
        text: "A line is refused, so cron ignores the whole file.",
    },
    Rule {
        name: "no-newline",
        text: "The last line has no line feed, so cron ignores the whole file.",
    },
    Rule {
        name: "many-lines",
        text: "The file has more lines than cron takes, so cron ignores it.",
    },
    Rule {
        name: "file-user",
        text: "No user has the name of the file, so cron ignores it.",
    },
    Rule {
        name: "file-owner",
        text: "The file belongs to another user than it has to, so cron ignores it.",
    },
    Rule {
        name: "file-type",
        text: "The file is no regular file, so cron ignores it.",
    },
    Rule {
        name: "file-mode",
        text: "The file has a mode for which cron ignores it.",
    },
    Rule {
        name: "file-links",
        text: "The file has several hard links, so cron ignores it.",
    },
    Rule {
        name: "file-name",
        text: "Cron passes over a file of this name.",
    },
    Rule {
        name: "either-day",
        text: "The job runs where either day field matches, not only where both do.",
    },
    Rule {
        name: "uneven-step",
        text: "The last step of the field is shorter than the others.",
    },
    Rule {
        name: "step-beyond",
        text: "The step leads past the end of the range, so only its first value is named.",
    },
    Rule {
        name: "range-down",
        text: "The range goes down, and names nothing.",
    },
    Rule {
        name: "passed-over",
        text: "Cron passes over a part of the field.",
    },
    Rule {
        name: "large-number",
        text: "Cron keeps of the number what is left after division by 2^32.",
    },
    Rule {
        name: "whole-hour",
        text: "The job runs in each minute of its hours.",
    },
    Rule {
        name: "short-months",
        text: "A named month is too short for a named day.",
    },
    Rule {
        name: "gone",
        text: "All named years are past.",
    },
    Rule {
        name: "never",
        text: "No run is left.",
    },
    Rule {
        name: "no-command",
        text: "The line has no command.",
    },
    Rule {
        name: "looks-like-field",
        text: "What follows the five fields may be meant as a sixth.",
    },
    Rule {
        name: "percent",
        text: "Cron ends the command at a percent sign.",
    },
    Rule {
        name: "continued",
        text: "Cron has no continued lines.",
    },
    Rule {
        name: "control-byte",
        text: "The line has an invisible byte or character.",
    },
    Rule {
        name: "carriage-return",
        text: "The command ends with a carriage return.",
    },
    Rule {
        name: "empty-item",
        text: "A list has an empty item.",
    },
    Rule {
        name: "other-name",
        text: "The name is one of another field.",
    },
    Rule {
        name: "preset",
        text: "The program that patterns are read for (--for) refuses the pattern, or reads it otherwise.",
    },
    Rule {
        name: "no-zone",
        text: "Cron runs no job in the zone of a setting.",
    },
    Rule {
        name: "no-effect",
        text: "A setting has no effect in Debian's cron.",
    },
    Rule {
        name: "not-expanded",
        text: "Cron expands nothing in the value of a setting.",
    },
    Rule {
        name: "no-mail",
        text: "Cron sends no mail to what a setting names.",
    },
    Rule {
        name: "gap",
        text: "A run is left out where the clock changes.",
    },
    Rule {
        name: "twice",
        text: "A run is made twice where the clock goes back.",
    },
    Rule {
        name: "same-job",
        text: "An earlier line has the same job.",
    },
    Rule {
        name: "not-needed",
        text: "A comment allows a warning that the line doesn't have.",
    },
    Rule {
        name: "unknown-name",
        text: "A comment allows a name that no warning has.",
    },
    Rule {
        name: "star-day",
        text: "A day has to match both day fields, since one begins with a star.",
    },
    Rule {
        name: "star-among-parts",
        text: "The field names each value, since one of its parts is a star.",
    },
    Rule {
        name: "empty-part",
        text: "A part of the field is empty.",
    },
    Rule {
        name: "modifier",
        text: "The field has a modifier, as in `L`, `15W` or `5#2`. Cron has none.",
    },
    Rule {
        name: "capital-nickname",
        text: "Cron knows a nickname only in small letters.",
    },
    Rule {
        name: "seconds",
        text: "The line begins with a field of seconds. Cron has no such field.",
    },
];
