//! What a line of a crontab is to cron.
ghost use Rattle.std.specs.Prelude.{◌≡◌, ◌≤◌, ℕ, List, Bool, false, None, Some, length, option_map, string_bytes, IfOk};
ghost use Rattle.std.specs.Str.{bytes_eq};
ghost use Rattle.crontab.specs.declared.bytes.Kind.TheVariants as kinds;
ghost use Rattle.crontab.specs.Bytes.{front, text_after, text_before, rest_of};
ghost use Rattle.crontab.specs.Line.{named, pattern_of_nickname, nickname_of, next, text_after_fields, words_of, are_both, spaced_text, times_of_fields, texts_of, times_of, with_command, job_of_user, job_of_system, job_with_times, job_of_nickname, job_of_fields, entry_of_text, entry_of_pattern, job_of_line, is_system, are_patterns, entry_of};
ghost use Rattle.crontab.specs.Line as Spec;
ghost use Rattle.crontab.specs.Entries.{times_seen, words_seen, texts_read, read_seen, job_read, entry_seen, LiesIn, IfRead};
ghost use Rattle.crontab.specs.Place.{NamesPlace};

use crate::bytes::{Kind, begins_with, cut, rest_of, text_before, trim_end};
use crate::field::{FieldBounds, Names};
use crate::list::field_text;
use crate::place::{Span, place_of};
use crate::setting::{has, is_setting, sets_zone};
use std::alloc::{AllocError, Global};

/// The longest command that cron takes.
const COMMAND_LENGTH: usize = 998;

/// The byte that cron takes for the end of the file, if it comes first after the fields.
const END_OF_FILE: u8 = 255;

/// Minutes: 0 to 59.
pub const MINUTES: FieldBounds = FieldBounds {
    first: 0,
    last: 59,
    names: Names::None,
};

/// Hours: 0 to 23.
pub const HOURS: FieldBounds = FieldBounds {
    first: 0,
    last: 23,
    names: Names::None,
};

/// Days of the month: 1 to 31.
pub const DAYS: FieldBounds = FieldBounds {
    first: 1,
    last: 31,
    names: Names::None,
};

/// Months: 1 to 12, or their names.
pub const MONTHS: FieldBounds = FieldBounds {
    first: 1,
    last: 12,
    names: Names::Months,
};

/// Weekdays: 0 to 7, of which both 0 and 7 are Sunday, or their names.
pub const WEEKDAYS: FieldBounds = FieldBounds {
    first: 0,
    last: 7,
    names: Names::Weekdays,
};

/// How the lines of a file are read.
#[derive(Clone, Copy, Drop)]
pub enum Dialect {
    /// As a crontab of a user.
    User,
    /// As a crontab of the system, where a user's name comes before each command.
    System,
    /// Each line is a pattern for croner's parser, without a command.
    Patterns,
}

impl Dialect {
    fn is_system(self) -> bool
        ensures { result ≡ is_system self }
    {
        match self {
            Dialect::System => true,
            Dialect::User | Dialect::Patterns => false,
        }
    }

    /// Whether its lines are patterns.
    pub fn are_patterns(self) -> bool
        ensures { result ≡ are_patterns self }
    {
        match self {
            Dialect::Patterns => true,
            Dialect::User | Dialect::System => false,
        }
    }
}

/// Why cron refuses a line, or this checker does.
#[derive(Clone, Copy, Drop)]
pub enum Fault {
    /// A byte 0: cron ends the text there, and takes what follows for another line.
    Nul,
    /// The minutes are missing, or are no list that cron accepts.
    Minutes,
    /// The same for the hours.
    Hours,
    /// The same for the days of the month.
    Days,
    /// The same for the months.
    Months,
    /// The same for the weekdays.
    Weekdays,
    /// A word after `@` that is no nickname, or not in lower case.
    Nickname,
    /// No user's name, or no blank after it.
    User,
    /// A command that begins with `*`.
    Command,
    /// A command of more than 998 bytes.
    LongCommand,
}

/// When a job runs.
#[derive(Drop)]
pub enum Times {
    /// When the machine starts.
    Reboot,
    /// At no time, since a field names nothing.
    Never,
    /// At the times of a text of five fields, as croner's parser reads it.
    Named {
        /// The text.
        text: String,
        /// Whether both day fields must match, rather than either.
        both_days: bool,
    },
}

/// A job of a crontab.
pub struct Job<'l> {
    /// When it runs.
    pub times: Times,
    /// The times as they are written: from the first word to the end of the fifth, or `@` and its word.
    pub schedule: &'l [u8],
    /// The name of its user, if the file names one.
    pub user: Option<&'l [u8]>,
    /// Its command, as it is written.
    pub command: &'l [u8],
}

// By hand, so that a function that drops one calls this one: its proof doesn't go through the fields at each exit.
impl Drop for Job<'_> {
    fn drop(self) {
        let Job {
            times: _,
            schedule: _,
            user: _,
            command: _,
        } = self;
    }
}

/// What a line is.
#[derive(Drop)]
pub enum Entry<'l> {
    /// It has nothing but blanks.
    Blank,
    /// Its first byte after blanks is `#`.
    Comment,
    /// It sets a variable.
    Setting {
        /// Whether the variable is `CRON_TZ` or `TZ`.
        is_zone: bool,
    },
    /// A job.
    Job(Job<'l>),
    /// A pattern for croner's parser, without the blanks before it and the spaces after it.
    Pattern(&'l [u8]),
    /// It is refused.
    Refused {
        /// Why.
        fault: Fault,
        /// The byte of the line at which the fault begins, from 0.
        start: usize,
        /// The byte after its last one.
        end: usize,
    },
}

/// Five words, and what follows them. A missing word is empty.
#[derive(Clone, Copy)]
pub struct FieldWords<'l> {
    /// The first.
    pub minutes: &'l [u8],
    /// The second.
    pub hours: &'l [u8],
    /// The third.
    pub days: &'l [u8],
    /// The fourth.
    pub months: &'l [u8],
    /// The fifth.
    pub weekdays: &'l [u8],
    /// What follows the fifth word and the blanks after it.
    pub rest: &'l [u8],
}

/// The first word, and what follows it and the blanks after it.
pub fn word(text: &[u8]) -> (&[u8], &[u8])
    ensures word { result.0.now ≡ front kinds.Word text.now }
    ensures rest { result.1.now ≡ next text.now }
{
    let (word, after) = cut(text, Kind::Word);
    let (_, rest) = cut(after, Kind::Blank);
    (word, rest)
}

/// The five words that a text begins with, and what follows them.
pub fn words_of(text: &[u8]) -> FieldWords<'_>
    ensures { words_seen result ≡ words_of text.now }
{
    let (minutes, rest) = word(text);
    let (hours, rest) = word(rest);
    let (days, rest) = word(rest);
    let (months, rest) = word(rest);
    let (weekdays, rest) = word(rest);
    FieldWords {
        minutes,
        hours,
        days,
        months,
        weekdays,
        rest,
    }
}

// What directly follows the fifth word.
fn text_after_fields(text: &[u8]) -> &[u8]
    ensures { result.now ≡ text_after_fields text.now }
{
    let (_, rest) = word(text);
    let (_, rest) = word(rest);
    let (_, rest) = word(rest);
    let (_, rest) = word(rest);
    let (_, after) = cut(rest, Kind::Word);
    after
}

fn times_of_text(alloc: Global, text: &str) -> Result<Times, AllocError>
    ensures { IfOk result (λ times. times_seen times ≡ named text.now false) }
{
    let text = String::from_str(alloc, text)?;
    Ok(Times::Named {
        text,
        both_days: false,
    })
}

// What a nickname stands for.
fn nickname_of(alloc: Global, word: &[u8]) -> Result<Option<Times>, AllocError>
    ensures { IfOk result (λ times. option_map times_seen times ≡ nickname_of word.now) }
{
    if is_word(word, "reboot") {
        return Ok(Some(Times::Reboot));
    }
    match text_of_nickname(word) {
        Some(text) => {
            let times = times_of_text(alloc, text)?;
            Ok(Some(times))
        }
        None => Ok(None),
    }
}

fn is_word(word: &[u8], name: &str) -> bool
    ensures { result ≡ bytes_eq word.now name.now }
{
    word == name.as_bytes()
}

// The pattern of a nickname that has one.
fn text_of_nickname(word: &[u8]) -> Option<&'static str>
    ensures { option_map (λ t. t.now) result ≡ pattern_of_nickname word.now }
{
    if is_word(word, "yearly") || is_word(word, "annually") {
        Some("0 0 1 1 *")
    } else if is_word(word, "monthly") {
        Some("0 0 1 * *")
    } else if is_word(word, "weekly") {
        Some("0 0 * * 0")
    } else if is_word(word, "daily") || is_word(word, "midnight") {
        Some("0 0 * * *")
    } else if is_word(word, "hourly") {
        Some("0 * * * *")
    } else {
        None
    }
}

// Whether both day fields must match: one of them begins with a star.
pub(crate) fn are_both(words: FieldWords<'_>) -> bool
    ensures { result ≡ are_both (words_seen words.entry) }
{
    begins_with(words.days, b'*') || begins_with(words.weekdays, b'*')
}

/// The texts of five fields for croner's parser. One is empty where its field names nothing.
struct Texts {
    minutes: String,
    hours: String,
    days: String,
    months: String,
    weekdays: String,
}

// By hand, as that of `Job`.
impl Drop for Texts {
    fn drop(self) {
        let Texts {
            minutes: _,
            hours: _,
            days: _,
            months: _,
            weekdays: _,
        } = self;
    }
}

// Five texts as one, both day fields given apart.
fn times_with_days(
    alloc: Global,
    texts: &Texts,
    days: &str,
    weekdays: &str,
    both_days: bool,
) -> Result<Times, AllocError>
    ensures { IfOk result (λ times. times_seen times ≡ named (spaced_text (string_bytes texts.now.minutes) (string_bytes texts.now.hours)
        days.now (string_bytes texts.now.months) weekdays.now) both_days) }
{
    let (minutes, hours, months) = (&texts.minutes, &texts.hours, &texts.months);
    let text = format!(in alloc; "{minutes} {hours} {days} {months} {weekdays}")?;
    Ok(Times::Named { text, both_days })
}

// The times of five fields.
fn times_of_fields(alloc: Global, both: bool, texts: &Texts) -> Result<Times, AllocError>
    ensures { IfOk result (λ times. times_seen times ≡ times_of_fields both (string_bytes texts.now.minutes) (string_bytes texts.now.hours)
        (string_bytes texts.now.days) (string_bytes texts.now.months) (string_bytes texts.now.weekdays)) }
{
    if texts.minutes.is_empty() || texts.hours.is_empty() || texts.months.is_empty() {
        return Ok(Times::Never);
    }
    if texts.days.is_empty() {
        if both || texts.weekdays.is_empty() {
            return Ok(Times::Never);
        }
        return times_with_days(alloc, texts, "*", texts.weekdays.as_str(), both);
    }
    if texts.weekdays.is_empty() {
        if both {
            return Ok(Times::Never);
        }
        return times_with_days(alloc, texts, texts.days.as_str(), "*", both);
    }
    times_with_days(
        alloc,
        texts,
        texts.days.as_str(),
        texts.weekdays.as_str(),
        both,
    )
}

/// Why the reading of a line stops: it is refused, or memory runs out.
#[derive(Clone, Copy, Drop)]
enum Stop {
    Refused(Fault),
    OutOfMemory,
}

impl From<Fault> for Stop {
    ghost use Rattle.crontab.specs.declared.line.Stop.TheVariants as stops;

    ghost from_gives = { λ fault stop. stop ≡ stops.Refused fault };

    fn from(fault: Fault) -> Stop {
        Stop::Refused(fault)
    }
}

impl From<AllocError> for Stop {
    ghost use Rattle.crontab.specs.declared.line.Stop.TheVariants as stops;

    ghost from_gives = { λ error stop. stop ≡ stops.OutOfMemory };

    fn from(_error: AllocError) -> Stop {
        Stop::OutOfMemory
    }
}

// The texts of five fields, or the first that cron does not take.
fn texts_of(alloc: Global, words: FieldWords<'_>) -> Result<Texts, Stop>
    ensures { IfRead result (λ read. texts_read read ≡ texts_of (words_seen words.entry)) }
{
    let minutes = field_text(alloc, MINUTES, words.minutes)?.ok_or(Fault::Minutes)?;
    let hours = field_text(alloc, HOURS, words.hours)?.ok_or(Fault::Hours)?;
    let days = field_text(alloc, DAYS, words.days)?.ok_or(Fault::Days)?;
    let months = field_text(alloc, MONTHS, words.months)?.ok_or(Fault::Months)?;
    let weekdays = field_text(alloc, WEEKDAYS, words.weekdays)?.ok_or(Fault::Weekdays)?;
    Ok(Texts {
        minutes,
        hours,
        days,
        months,
        weekdays,
    })
}

// The times of five words, or the fault.
fn times_of(alloc: Global, words: FieldWords<'_>) -> Result<Times, Stop>
    ensures { IfRead result (λ read. read_seen read ≡ times_of (words_seen words.entry)) }
{
    let texts = texts_of(alloc, words)?;
    if begins_with(words.rest, END_OF_FILE) {
        return Err(Stop::Refused(Fault::Weekdays));
    }
    Ok(times_of_fields(alloc, are_both(words), &texts)?)
}

// A job, unless its command is too long.
fn with_command<'l>(
    times: Times,
    schedule: &'l [u8],
    user: Option<&'l [u8]>,
    command: &'l [u8],
) -> Result<Job<'l>, Fault>
    ensures { job_read result ≡ with_command (times_seen times) schedule.now (option_map (λ u. u.now) user.entry) command.now }
{
    if COMMAND_LENGTH < command.len() {
        return Err(Fault::LongCommand);
    }
    Ok(Job {
        times,
        schedule,
        user,
        command,
    })
}

// What follows the times in a crontab of a user.
fn job_of_user<'l>(times: Times, schedule: &'l [u8], rest: &'l [u8]) -> Result<Job<'l>, Fault>
    ensures { job_read result ≡ job_of_user (times_seen times) schedule.now rest.now }
{
    if begins_with(rest, b'*') {
        return Err(Fault::Command);
    }
    with_command(times, schedule, None, rest)
}

// What follows the times in a crontab of the system.
fn job_of_system<'l>(times: Times, schedule: &'l [u8], rest: &'l [u8]) -> Result<Job<'l>, Fault>
    ensures { job_read result ≡ job_of_system (times_seen times) schedule.now rest.now }
{
    let (user, after) = cut(rest, Kind::Word);
    if user.is_empty() || after.is_empty() {
        return Err(Fault::User);
    }
    with_command(times, schedule, Some(user), rest_of(after))
}

fn job_with_times<'l>(
    system: bool,
    times: Times,
    schedule: &'l [u8],
    rest: &'l [u8],
) -> Result<Job<'l>, Fault>
    ensures { job_read result ≡ job_with_times system (times_seen times) schedule.now rest.now }
{
    if system {
        job_of_system(times, schedule, rest)
    } else {
        job_of_user(times, schedule, rest)
    }
}

// A line with a nickname.
fn job_of_nickname(alloc: Global, system: bool, text: &[u8]) -> Result<Job<'_>, Stop>
    ensures { IfRead result (λ read. job_read read ≡ job_of_nickname system text.now (nickname_of (front kinds.Word (rest_of text.now)))) }
{
    let (schedule, rest) = word(text);
    let (name, _) = cut(rest_of(text), Kind::Word);
    let times = nickname_of(alloc, name)?.ok_or(Fault::Nickname)?;
    Ok(job_with_times(system, times, schedule, rest)?)
}

// A line with five fields.
fn job_of_fields(alloc: Global, system: bool, text: &[u8]) -> Result<Job<'_>, Stop>
    ensures { IfRead result (λ read. job_read read ≡ job_of_fields system text.now (times_of (words_of text.now))) }
{
    let words = words_of(text);
    let times = times_of(alloc, words)?;
    let schedule = text_before(text, text_after_fields(text));
    Ok(job_with_times(system, times, schedule, words.rest)?)
}

// The job of a line that is no setting.
fn job_of_line(alloc: Global, system: bool, text: &[u8]) -> Result<Job<'_>, Stop>
    ensures { IfRead result (λ read. job_read read ≡ job_of_line system text.now) }
{
    if begins_with(text, b'@') {
        job_of_nickname(alloc, system, text)
    } else {
        job_of_fields(alloc, system, text)
    }
}

// A refused line; `text` is that of the line from its first byte that is no blank.
fn refused_entry<'l>(line: &[u8], text: &[u8], system: bool, fault: Fault) -> Entry<'l>
    ensures seen { entry_seen result ≡ Spec.refused fault }
    ensures placed { LiesIn (length line.now) result }
    ensures exact { text.now ≡ text_after kinds.Blank line.now → NamesPlace system line.now result }
{
    let Span { start, end } = place_of(line, text, system, fault);
    Entry::Refused { fault, start, end }
}

// The entry of a line that begins with neither a blank nor `#`.
fn entry_of_text<'l>(
    alloc: Global,
    system: bool,
    line: &[u8],
    text: &'l [u8],
) -> Result<Entry<'l>, AllocError>
    ensures seen { IfOk result (λ e. entry_seen e ≡ entry_of_text system text.now) }
    ensures placed { IfOk result (LiesIn (length line.now)) }
    ensures exact { text.now ≡ text_after kinds.Blank line.now → IfOk result (NamesPlace system line.now) }
{
    if has(text, 0) {
        return Ok(refused_entry(line, text, system, Fault::Nul));
    }
    if is_setting(text) {
        return Ok(Entry::Setting {
            is_zone: sets_zone(text),
        });
    }
    match job_of_line(alloc, system, text) {
        Ok(job) => Ok(Entry::Job(job)),
        Err(Stop::Refused(fault)) => Ok(refused_entry(line, text, system, fault)),
        Err(Stop::OutOfMemory) => Err(AllocError),
    }
}

// A line of a file of patterns.
fn entry_of_pattern(text: &[u8]) -> Entry<'_>
    ensures seen { entry_seen result ≡ entry_of_pattern text.now }
    ensures placed { (n : ℕ) → LiesIn n result }
    ensures exact { (system : Bool) → (line : List ℕ) → NamesPlace system line result }
{
    let pattern = trim_end(text);
    if pattern.is_empty() {
        Entry::Blank
    } else {
        Entry::Pattern(pattern)
    }
}

/// What a line is in a dialect. The line comes without its line feed.
///
/// A refused line has the place of its fault, which is within the line. The only error is lack of memory.
pub fn entry_of(alloc: Global, dialect: Dialect, line: &[u8]) -> Result<Entry<'_>, AllocError>
    ensures seen { IfOk result (λ e. entry_seen e ≡ entry_of dialect line.now) }
    ensures placed { IfOk result (LiesIn (length line.now)) }
    ensures exact { IfOk result (NamesPlace (is_system dialect) line.now) }
{
    let (_, text) = cut(line, Kind::Blank);
    if text.is_empty() {
        Ok(Entry::Blank)
    } else if begins_with(text, b'#') {
        Ok(Entry::Comment)
    } else if dialect.are_patterns() {
        Ok(entry_of_pattern(text))
    } else {
        entry_of_text(alloc, dialect.is_system(), line, text)
    }
}
