//! Warnings: what is to be said of a line that isn't refused.
ghost use Rattle.std.specs.Prelude.{◌≡◌, IfOk, IfErr, filter, length, ◌++◌, ◌&&◌, false, option_map};
ghost use Rattle.croner.specs.Views.{job_of as meaning_of_job};
ghost use Rattle.crontab.specs.Bytes.{begins_with};
ghost use Rattle.croncheck_warnings.specs.Warnings.{is_either_day, is_whole_hour, has_short_months, has_uneven_step, has_step_beyond, has_hours_in_range, is_last_field, has_command_within, has_hidden_field, has_empty_items, has_no_command, looks_like_field, has_sixth_field, begins_with_name, has_no_user, has_percent, is_continued, has_carriage_return, are_many_lines, is_first_too_many, is_after_last, is_some_so, text_after_times, holds, all_warnings, fields_seen, subject_seen};
ghost use Rattle.croncheck_warnings.specs.Hidden.{has_hidden, has_hidden_within};
ghost use Rattle.croncheck_warnings.specs.Users.{users_seen};
ghost use Rattle.croncheck_warnings.specs.Warnings as Spec;

pub mod command;
mod fields;
mod hidden;
mod meaning;
mod texts;

use crate::presets::Reading;
use crate::users::{Users, begins_with_user};
use croner::Cron;
use croner::errors::CronError;
use croner::parser::PatternField;
use crontab::bytes::begins_with;
pub use fields::{
    Fields, bounds_of_field, fields_of_pattern, fields_of_schedule, is_beyond, turn_of,
};
pub use hidden::{has_hidden, has_hidden_within};
use std::alloc::Global;
pub use texts::warning_text;

/// The most lines that `crontab` takes of a user's crontab.
const MOST_LINES: u64 = 10_000;

/// The last line at which cron itself takes a job or a setting: of a crontab of the system, and of one of a user that is installed.
const LAST_LINE_TAKEN: u64 = 10_003;

/// The name of the warning of a job that is the same as an earlier one.
pub const SAME_JOB: &str = "same-job";

/// What is to be said of a job or a pattern. Its [`name`](Warning::name) and [`text`](Warning::text) say it in words.
#[derive(Clone, Copy, Drop)]
pub enum Warning {
    /// Neither day field is a star, a day needs to match only one of them, and at least one of them doesn't name each day.
    EitherDay,
    /// The seconds, minutes or hours are `*/n`, and n is below 60, 60 or 24 and doesn't divide that number. For seconds and minutes n is
    /// also above 15.
    UnevenStep(PatternField),
    /// A step of the field leads past the end of its range, so that only the first value of the range is named.
    StepBeyond(PatternField),
    /// A range of the field runs down, so that it names nothing.
    RangeDown(PatternField),
    /// Bytes of the field stand after a part, and cron passes over them.
    PassedOver(PatternField),
    /// A number of the field is 2^32 or more; cron takes the remainder of its division by 2^32.
    LargeNumber(PatternField),
    /// All minutes are named, but not all hours of all dates, and the hours aren't one range.
    WholeHour,
    /// Each named day is above 28, and one of them is missing in some named month of a named year. Not where February 29 alone is named.
    ShortMonths,
    /// All named years are past.
    Gone,
    /// No run is left before year 5000.
    Never,
    /// There is no command: it is spaces alone, or begins with `#`, as a comment does.
    NoCommand,
    /// What stands after five fields, a user's name or the command, begins with a word that may be a field of weekdays.
    LooksLikeField,
    /// The word in the user's place is no user's name; or the command of a user's crontab begins with the name of one.
    User,
    /// The command has a percent sign that no backslash escapes.
    Percent,
    /// The command ends in a backslash that no other backslash escapes.
    Continued,
    /// A control byte but the tab, or a character that nobody sees, stands within the line.
    ControlByte,
    /// The last line has no line feed.
    NoNewline,
    /// The command ends with a carriage return.
    CarriageReturn,
    /// A list of a pattern has an empty item.
    EmptyItem,
    /// A field of a pattern has the name of a month or of a weekday, and that isn't a name of this field.
    OtherName(PatternField),
    /// The program that patterns are read for refuses the pattern, or reads it differently.
    Preset(Reading),
}

/// What is to be said of a setting, or of the number of lines. Its [`name`](OtherWarning::name) and
/// [`text`](OtherWarning::text) say it in words.
#[derive(Clone, Copy, Drop)]
pub enum OtherWarning {
    /// The setting's line is the last, and has no line feed.
    NoNewline,
    /// A control byte but the tab, or a character that nobody sees, stands in the setting's line.
    ControlByte,
    /// The setting's variable is `CRON_TZ` or `TZ`.
    NoZone,
    /// The setting's variable is one by which other crons start jobs otherwise, such as `RANDOM_DELAY`.
    NoEffect,
    /// The setting's value has something that a shell would expand, and that cron takes as it stands.
    NotExpanded,
    /// The setting's variable is `MAILTO`, and its value is no address to which cron sends mail.
    NoMail,
    /// The file has more lines than cron takes.
    ManyLines,
}

/// The warnings of jobs and patterns, in the order in which they are given.
const ALL_WARNINGS: [Warning; 46] = [
    Warning::EitherDay,
    Warning::UnevenStep(PatternField::Seconds),
    Warning::UnevenStep(PatternField::Minutes),
    Warning::UnevenStep(PatternField::Hours),
    Warning::StepBeyond(PatternField::Seconds),
    Warning::StepBeyond(PatternField::Minutes),
    Warning::StepBeyond(PatternField::Hours),
    Warning::StepBeyond(PatternField::DayOfMonth),
    Warning::StepBeyond(PatternField::Month),
    Warning::StepBeyond(PatternField::Weekday),
    Warning::StepBeyond(PatternField::Year),
    Warning::RangeDown(PatternField::Minutes),
    Warning::RangeDown(PatternField::Hours),
    Warning::RangeDown(PatternField::DayOfMonth),
    Warning::RangeDown(PatternField::Month),
    Warning::RangeDown(PatternField::Weekday),
    Warning::PassedOver(PatternField::Minutes),
    Warning::PassedOver(PatternField::Hours),
    Warning::PassedOver(PatternField::DayOfMonth),
    Warning::PassedOver(PatternField::Month),
    Warning::PassedOver(PatternField::Weekday),
    Warning::LargeNumber(PatternField::Minutes),
    Warning::LargeNumber(PatternField::Hours),
    Warning::LargeNumber(PatternField::DayOfMonth),
    Warning::LargeNumber(PatternField::Month),
    Warning::LargeNumber(PatternField::Weekday),
    Warning::WholeHour,
    Warning::ShortMonths,
    Warning::Gone,
    Warning::Never,
    Warning::NoCommand,
    Warning::LooksLikeField,
    Warning::User,
    Warning::Percent,
    Warning::Continued,
    Warning::ControlByte,
    Warning::NoNewline,
    Warning::CarriageReturn,
    Warning::EmptyItem,
    Warning::OtherName(PatternField::Seconds),
    Warning::OtherName(PatternField::Minutes),
    Warning::OtherName(PatternField::Hours),
    Warning::OtherName(PatternField::DayOfMonth),
    Warning::OtherName(PatternField::Month),
    Warning::OtherName(PatternField::Weekday),
    Warning::OtherName(PatternField::Year),
];

/// What is looked at of a job or a pattern.
#[derive(Clone, Copy)]
pub struct Subject<'s, 'j> {
    /// The texts of its fields, where it has fields.
    pub fields: Option<Fields<'s>>,
    /// The job that the parser made of its times, where it made one.
    pub job: Option<&'j Cron>,
    /// The name of its user, where the file names users.
    pub user: Option<&'s [u8]>,
    /// The users that are known, if any are.
    pub users: Option<Users<'s>>,
    /// Its command, where it is a job of a crontab.
    pub command: Option<&'s [u8]>,
    /// It is a job of a crontab, and not a pattern alone.
    pub is_crontab: bool,
    /// Its line has a line feed.
    pub is_fed: bool,
    /// Its times name no year from the start on.
    pub is_past: bool,
    /// Its times leave no run before year 5000.
    pub is_never: bool,
    /// The listing of its runs ends where the clock's window does, so that it isn't known in which years and months later runs come.
    pub is_at_window_end: bool,
}

/// The warnings of a job or a pattern, in the order of the table in docs/CRONTAB.md: those that hold, and no other.
///
/// The only error is `OutOfMemory`.
pub fn warnings_of(alloc: Global, subject: &Subject<'_, '_>) -> Result<Vec<Warning>, CronError>
    ensures ok { IfOk result (λ found. found.items ≡ Spec.warnings_of (subject_seen subject.now)) }
    ensures err { IfErr result (λ e. e ≡ CronError.OutOfMemory) }
{
    those_that_hold(alloc, subject, &ALL_WARNINGS)
}

// Of some warnings those that hold of a job or a pattern.
fn those_that_hold(
    alloc: Global,
    subject: &Subject<'_, '_>,
    warnings: &[Warning],
) -> Result<Vec<Warning>, CronError>
    ensures ok { IfOk result (λ found. found.items ≡ filter (holds (subject_seen subject.now)) warnings.now) }
    ensures err { IfErr result (λ e. e ≡ CronError.OutOfMemory) }
{
    let mut found = Vec::new(alloc);
    for warning in warnings {
        if holds(alloc, subject, *warning)? {
            found.push(*warning)?;
        }
    }
    Ok(found)
}

// Whether a warning holds of a job or a pattern.
fn holds(alloc: Global, subject: &Subject<'_, '_>, warning: Warning) -> Result<bool, CronError>
    ensures ok { IfOk result (λ yes. yes ≡ holds (subject_seen subject.now) warning) }
    ensures err { IfErr result (λ e. e ≡ CronError.OutOfMemory) }
{
    match warning {
        Warning::EitherDay => Ok(is_either_day(subject.job)),
        Warning::UnevenStep(field) => has_uneven_step(alloc, field, &subject.fields),
        Warning::StepBeyond(field) => has_step_beyond(alloc, field, &subject.fields),
        Warning::RangeDown(field) => has_range_down(alloc, subject, field),
        Warning::PassedOver(field) => Ok(has_passed_over(subject, field)),
        Warning::LargeNumber(field) => Ok(has_large_number(subject, field)),
        Warning::WholeHour => is_whole_hour(alloc, subject),
        Warning::ShortMonths => has_short_months(subject),
        Warning::Gone => Ok(subject.is_past),
        Warning::Never => Ok(!subject.is_past && subject.is_never),
        Warning::NoCommand => Ok(begins_with_hash(subject.user) || has_no_command(subject.command)),
        Warning::LooksLikeField => Ok(has_sixth_field(subject)),
        Warning::User => Ok(has_no_user(subject)),
        Warning::Percent => Ok(has_percent(subject.command)),
        Warning::Continued => Ok(is_continued(subject.command)),
        Warning::ControlByte => Ok(has_control_byte(subject)),
        Warning::NoNewline => Ok(subject.is_crontab && !subject.is_fed),
        Warning::CarriageReturn => Ok(has_carriage_return(subject.command)),
        Warning::EmptyItem => Ok(!subject.is_crontab && has_empty_items(&subject.fields)),
        Warning::OtherName(field) => Ok(has_other_name(subject, field)),
        // What another program reads isn't known from the line alone.
        Warning::Preset(_) => Ok(false),
    }
}

fn is_either_day(job: Option<&Cron>) -> bool
    ensures { result ≡ is_some_so is_either_day (option_map (λ j. meaning_of_job j.now) job.entry) }
{
    match job {
        Some(job) => meaning::is_either_day(job),
        None => false,
    }
}

fn has_whole_hours(job: Option<&Cron>) -> bool
    ensures { result ≡ is_some_so is_whole_hour (option_map (λ j. meaning_of_job j.now) job.entry) }
{
    match job {
        Some(job) => meaning::is_whole_hour(job),
        None => false,
    }
}

fn has_hours_in_range(alloc: Global, fields: &Option<Fields<'_>>) -> Result<bool, CronError>
    ensures ok { IfOk result (λ yes. yes ≡ is_some_so has_hours_in_range (option_map fields_seen fields.now)) }
    ensures err { IfErr result (λ e. e ≡ CronError.OutOfMemory) }
{
    match fields {
        Some(fields) => fields.has_hours_in_range(alloc),
        None => Ok(false),
    }
}

// Whether all minutes are named, but not all hours of all dates, and the hours aren't one range.
fn is_whole_hour(alloc: Global, subject: &Subject<'_, '_>) -> Result<bool, CronError>
    ensures ok { IfOk result (λ yes. yes ≡ holds (subject_seen subject.now) Warning.WholeHour) }
    ensures err { IfErr result (λ e. e ≡ CronError.OutOfMemory) }
{
    let is_range = has_hours_in_range(alloc, &subject.fields)?;
    Ok(has_whole_hours(subject.job) && !is_range)
}

// Whether a line that leaves a run, as far as is known, has it only in months of enough days.
fn has_short_months(subject: &Subject<'_, '_>) -> Result<bool, CronError>
    ensures ok { IfOk result (λ yes. yes ≡ holds (subject_seen subject.now) Warning.ShortMonths) }
    ensures err { IfErr result (λ e. e ≡ CronError.OutOfMemory) }
{
    if subject.is_past || subject.is_never || subject.is_at_window_end {
        return Ok(false);
    }
    match subject.job {
        Some(job) => meaning::has_short_months(job),
        None => Ok(false),
    }
}

fn has_uneven_step(
    alloc: Global,
    field: PatternField,
    fields: &Option<Fields<'_>>,
) -> Result<bool, CronError>
    ensures ok { IfOk result (λ yes. yes ≡ is_some_so (has_uneven_step field) (option_map fields_seen fields.now)) }
    ensures err { IfErr result (λ e. e ≡ CronError.OutOfMemory) }
{
    match fields {
        Some(fields) => fields.has_uneven_step(alloc, field),
        None => Ok(false),
    }
}

fn has_step_beyond(
    alloc: Global,
    field: PatternField,
    fields: &Option<Fields<'_>>,
) -> Result<bool, CronError>
    ensures ok { IfOk result (λ yes. yes ≡ is_some_so (has_step_beyond field) (option_map fields_seen fields.now)) }
    ensures err { IfErr result (λ e. e ≡ CronError.OutOfMemory) }
{
    match fields {
        Some(fields) => fields.has_step_beyond(alloc, field),
        None => Ok(false),
    }
}

// Whether a field of a pattern has a name of another field.
fn has_other_name(subject: &Subject<'_, '_>, field: PatternField) -> bool
    ensures { result ≡ holds (subject_seen subject.now) (Warning.OtherName field) }
{
    if subject.is_crontab {
        return false;
    }
    match &subject.fields {
        Some(fields) => fields.has_other_name(field),
        None => false,
    }
}

// Whether a field of a job of a crontab has a range that runs down.
fn has_range_down(
    alloc: Global,
    subject: &Subject<'_, '_>,
    field: PatternField,
) -> Result<bool, CronError>
    ensures ok { IfOk result (λ yes. yes ≡ holds (subject_seen subject.now) (Warning.RangeDown field)) }
    ensures err { IfErr result (λ e. e ≡ CronError.OutOfMemory) }
{
    if !subject.is_crontab {
        return Ok(false);
    }
    match &subject.fields {
        Some(fields) => fields.has_range_down(alloc, field),
        None => Ok(false),
    }
}

// Whether cron passes over bytes of a field of a job of a crontab, and the command isn't among them.
fn has_passed_over(subject: &Subject<'_, '_>, field: PatternField) -> bool
    ensures { result ≡ holds (subject_seen subject.now) (Warning.PassedOver field) }
{
    if !subject.is_crontab || has_command_within(subject, field) {
        return false;
    }
    match &subject.fields {
        Some(fields) => fields.has_passed_over(field),
        None => false,
    }
}

// Whether a field of a job of a crontab has a number of 2^32 or more.
fn has_large_number(subject: &Subject<'_, '_>, field: PatternField) -> bool
    ensures { result ≡ holds (subject_seen subject.now) (Warning.LargeNumber field) }
{
    if !subject.is_crontab {
        return false;
    }
    match &subject.fields {
        Some(fields) => fields.has_large_number(field),
        None => false,
    }
}

fn is_last_field(field: PatternField) -> bool
    ensures { result ≡ is_last_field field }
{
    match field {
        PatternField::Weekday => true,
        _ => false,
    }
}

// Whether the command fell into a field: it is the last one, and nothing stands after the times.
fn has_command_within(subject: &Subject<'_, '_>, field: PatternField) -> bool
    ensures { result ≡ has_command_within (subject_seen subject.now) field }
{
    match text_after_times(subject) {
        Some(text) => is_last_field(field) && text.is_empty(),
        None => false,
    }
}

fn has_empty_items(fields: &Option<Fields<'_>>) -> bool
    ensures { result ≡ is_some_so has_empty_items (option_map fields_seen fields.now) }
{
    match fields {
        Some(fields) => fields.has_empty_items(),
        None => false,
    }
}

// What stands after a job's times: the user's name where the file names users, else the command.
fn text_after_times<'s>(subject: &Subject<'s, '_>) -> Option<&'s [u8]>
    ensures { option_map (λ t. t.now) result ≡ text_after_times (subject_seen subject.now) }
{
    match subject.user {
        Some(user) => Some(user),
        None => subject.command,
    }
}

// Whether a user's name begins as a comment does.
fn begins_with_hash(user: Option<&[u8]>) -> bool
    ensures { result ≡ is_some_so (begins_with 35) (option_map (λ u. u.now) user.entry) }
{
    match user {
        Some(user) => begins_with(user, b'#'),
        None => false,
    }
}

fn has_no_command(command: Option<&[u8]>) -> bool
    ensures { result ≡ is_some_so has_no_command (option_map (λ c. c.now) command.entry) }
{
    match command {
        Some(command) => command::has_no_command(command),
        None => false,
    }
}

fn looks_like_field(text: Option<&[u8]>) -> bool
    ensures { result ≡ is_some_so looks_like_field (option_map (λ t. t.now) text.entry) }
{
    match text {
        Some(text) => command::looks_like_field(text),
        None => false,
    }
}

// Whether a further word stands after five fields, which may be a field.
fn has_sixth_field(subject: &Subject<'_, '_>) -> bool
    ensures { result ≡ has_sixth_field (subject_seen subject.now) }
{
    subject.fields.is_some() && looks_like_field(text_after_times(subject))
}

// Whether the word where the user stands is none, and no further field; or where no user stands the command begins with the name of one.
fn has_no_user(subject: &Subject<'_, '_>) -> bool
    ensures { result ≡ has_no_user (subject_seen subject.now) }
{
    match (subject.user, subject.command) {
        (Some(user), _) => {
            subject.users.is_none() && command::has_no_user_sign(user) && !has_sixth_field(subject)
        }
        (None, Some(command)) => begins_with_name(subject.users, command),
        (None, None) => false,
    }
}

// Whether a command begins with `root` and a blank, or with the name of a user who is known, and a path after it.
fn begins_with_name(users: Option<Users<'_>>, command: &[u8]) -> bool
    ensures { result ≡ begins_with_name (users_seen users.entry) command.now }
{
    match users {
        Some(users) => command::begins_with_root(command) || begins_with_user(users, command),
        None => command::begins_with_root(command),
    }
}

fn has_percent(command: Option<&[u8]>) -> bool
    ensures { result ≡ is_some_so has_percent (option_map (λ c. c.now) command.entry) }
{
    match command {
        Some(command) => command::has_percent(command),
        None => false,
    }
}

fn is_continued(command: Option<&[u8]>) -> bool
    ensures { result ≡ is_some_so is_continued (option_map (λ c. c.now) command.entry) }
{
    match command {
        Some(command) => command::is_continued(command),
        None => false,
    }
}

fn has_hidden_user(user: Option<&[u8]>) -> bool
    ensures { result ≡ is_some_so has_hidden (option_map (λ u. u.now) user.entry) }
{
    match user {
        Some(user) => has_hidden(user),
        None => false,
    }
}

fn has_hidden_command(command: Option<&[u8]>) -> bool
    ensures { result ≡ is_some_so has_hidden_within (option_map (λ c. c.now) command.entry) }
{
    match command {
        Some(command) => hidden::has_hidden_within(command),
        None => false,
    }
}

fn has_hidden_field(fields: &Option<Fields<'_>>) -> bool
    ensures { result ≡ is_some_so has_hidden_field (option_map fields_seen fields.now) }
{
    match fields {
        Some(fields) => fields.has_hidden_field(),
        None => false,
    }
}

// Whether a job of a crontab has a byte that hides others.
fn has_control_byte(subject: &Subject<'_, '_>) -> bool
    ensures { result ≡ holds (subject_seen subject.now) Warning.ControlByte }
{
    subject.is_crontab
        && (has_hidden_field(&subject.fields)
            || has_hidden_user(subject.user)
            || has_hidden_command(subject.command))
}

fn has_carriage_return(command: Option<&[u8]>) -> bool
    ensures { result ≡ is_some_so has_carriage_return (option_map (λ c. c.now) command.entry) }
{
    match command {
        Some(command) => command::has_carriage_return(command),
        None => false,
    }
}

/// Whether a user's crontab of `lines` lines has more than `crontab` takes.
pub fn are_many_lines(lines: u64) -> bool
    ensures { result ≡ are_many_lines lines }
{
    MOST_LINES < lines
}

/// Whether the line after `lines` lines of a user's crontab is the first that is too many.
pub fn is_first_too_many(lines: u64) -> bool
    ensures { result ≡ is_first_too_many lines }
{
    lines == MOST_LINES
}

/// Whether the line with this number, counted from 1, stands after the last one at which cron itself takes a job or a setting.
pub fn is_after_last(number: u64) -> bool
    ensures { result ≡ is_after_last number }
{
    LAST_LINE_TAKEN < number
}
