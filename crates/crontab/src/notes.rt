//! The notes of a line: where cron reads it differently from croner's parser, given the same five fields, or refuses
//! what that parser accepts.
ghost use Rattle.std.specs.Prelude.{◌≡◌, ◌≤◌, ◌||◌, not, length, option_map, take, filter, IfOk};
ghost use Rattle.std.specs.Option.{is_some, is_none};
ghost use Rattle.std.specs.List.{list_all, list_any, prefix_len};
ghost use Rattle.crontab.specs.declared.bytes.Kind.TheVariants as kinds;
ghost use Rattle.crontab.specs.Bytes.{is_digit, front, text_after, rest_of};
ghost use Rattle.crontab.specs.Entries.{words_seen};
ghost use Rattle.crontab.specs.Field.{name_of, part_of};
ghost use Rattle.crontab.specs.Line.{nickname_of};
ghost use Rattle.crontab.specs.Line.{words_of as words_in};
ghost use Rattle.crontab.specs.List.{parts_of};
ghost use Rattle.crontab.specs.Notes.{is_followed, is_large, is_named, reads, is_numbered, is_named_last, is_last_weekday, is_weekday_word, passes, any_run, is_weekday_byte, looks_like_weekdays, has_other_name, has_passed_over, has_large_number, is_whole_star, is_star_among, any_star_among, has_uneven_step, any_uneven_step, is_star_day, are_words_noted, is_job_noted, field_at, has_modifier, is_fault_noted, takes, is_refused_field_noted, takes_day, takes_all, has_seconds, lowered, is_of_fields, is_of_nickname, is_refusal_noted, is_text_noted, note_name, notes_of};

use crate::bytes::{Kind, begins_with, cut, is_digit, is_of, rest_of};
use crate::field::{
    FieldBounds, Names, SteppedRange, all_digits, digits, is_name, name_of, part_of,
};
use crate::line::{
    DAYS, Fault, FieldWords, HOURS, MINUTES, MONTHS, WEEKDAYS, are_both, word, words_of,
};
use crate::list::{is_uneven, parts_of};
use crate::setting::has;
use std::alloc::{AllocError, Global};

/// How many numbers 32 bits hold.
const NUMBERS: u64 = 4_294_967_296;

/// How many days the longest month has, months a year, and days a week.
const DAYS_OF_MONTH: u64 = 31;

const MONTHS_OF_YEAR: u64 = 12;

const DAYS_OF_WEEK: u64 = 7;

/// How many letters the name of a weekday has.
const NAME_LENGTH: usize = 3;

/// What is said of a line besides its meaning or its refusal.
#[derive(Clone, Copy, Drop)]
pub enum Note {
    /// A day field begins with `*`, and neither day field is `*` alone: both must match.
    StarDay,
    /// A `*` is one of several parts.
    StarAmongParts,
    /// A step of days, months or weekdays that is shorter from the last value to the first of the next month, year or
    /// week.
    UnevenStep,
    /// A part between commas is empty.
    EmptyPart,
    /// The name of a month or of a weekday where the field has no such names.
    OtherName,
    /// `L`, `W`, `?` or `+` in a day field.
    Modifier,
    /// A nickname that isn't in lower case.
    CapitalNickname,
    /// A field of seconds comes before five that cron accepts.
    Seconds,
}

impl Note {
    /// All of them, in the order in which they are reported.
    pub const ALL: [Note; 8] = [
        Note::StarDay,
        Note::StarAmongParts,
        Note::UnevenStep,
        Note::EmptyPart,
        Note::OtherName,
        Note::Modifier,
        Note::CapitalNickname,
        Note::Seconds,
    ];

    /// The name by which it is known, as `star-day`.
    pub fn name(self) -> &'static str
        ensures { result.now ≡ note_name self }
    {
        match self {
            Note::StarDay => "star-day",
            Note::StarAmongParts => "star-among-parts",
            Note::UnevenStep => "uneven-step",
            Note::EmptyPart => "empty-part",
            Note::OtherName => "other-name",
            Note::Modifier => "modifier",
            Note::CapitalNickname => "capital-nickname",
            Note::Seconds => "seconds",
        }
    }
}

// What is looked for in each piece of a field, between commas, or in each of its words of letters and digits.
#[derive(Clone, Copy)]
enum Sign {
    // A piece with bytes after its part.
    Followed,
    // A word that is a number of 2^32 or more.
    Large,
    // A piece without a byte.
    Empty,
    // A word that is a name of another field.
    OtherName,
    // A piece whose step is a name.
    NamedStep,
    // A word that is a modifier in a field of days.
    DayModifier,
    // A word that is a modifier in a field of weekdays.
    WeekdayModifier,
    // A word that is neither a number, nor a name of the field, nor such a modifier.
    NoWeekday,
}

// ---- signs

fn is_followed(bounds: FieldBounds, piece: &[u8]) -> bool
    ensures { result ≡ is_followed (part_of bounds piece.now) }
{
    match part_of(bounds, piece) {
        Some((_, after)) => !after.is_empty(),
        None => false,
    }
}

fn is_large(word: &[u8]) -> bool
    ensures { result ≡ is_large word.now }
{
    all_digits(word) && NUMBERS <= digits(word)
}

fn is_named(word: &[u8]) -> bool
    ensures { result ≡ is_named word.now }
{
    name_of(Names::Months, word).is_some() || name_of(Names::Weekdays, word).is_some()
}

fn digit_count(word: &[u8]) -> usize
    ensures len { result ≡ prefix_len is_digit word.now }
    ensures within { result ≤ length word.now }
{
    word.iter().take_while(|byte| is_digit(**byte)).count()
}

// Whether a word is digits, one at least, and after them these letters.
fn is_numbered(word: &[u8], letters: &str) -> bool
    ensures { result ≡ is_numbered (lowered letters.now) word.now }
{
    let count = digit_count(word);
    let (_, after) = word.split_at(count);
    0 < count && is_name(after, letters)
}

// Whether a word is a weekday's name and an L.
fn is_named_last(word: &[u8]) -> bool
    ensures { result ≡ is_named_last word.now }
{
    if word.len() < NAME_LENGTH {
        return false;
    }
    let (name, after) = word.split_at(NAME_LENGTH);
    is_name(after, "l") && name_of(Names::Weekdays, name).is_some()
}

fn is_named_step(piece: &[u8]) -> bool
    ensures { result ≡ is_named (front kinds.Alphanumeric (rest_of (text_after (kinds.But 47) piece.now))) }
{
    let (_, slash) = cut(piece, Kind::But(b'/'));
    let (step, _) = cut(rest_of(slash), Kind::Alphanumeric);
    is_named(step)
}

// Whether a word is a modifier of a field of weekdays.
fn is_last_weekday(word: &[u8]) -> bool
    ensures { result ≡ is_last_weekday word.now }
{
    is_name(word, "l") || is_numbered(word, "l") || is_named_last(word)
}

// Whether a word is digits, or a name of the field, or such a modifier.
fn is_weekday_word(bounds: FieldBounds, word: &[u8]) -> bool
    ensures { result ≡ is_weekday_word bounds word.now }
{
    all_digits(word) || name_of(bounds.names, word).is_some() || is_last_weekday(word)
}

fn passes(sign: Sign, bounds: FieldBounds, run: &[u8]) -> bool
    ensures { result ≡ passes sign bounds run.now }
{
    match sign {
        Sign::Followed => is_followed(bounds, run),
        Sign::Large => is_large(run),
        Sign::Empty => run.is_empty(),
        Sign::OtherName => is_named(run) && name_of(bounds.names, run).is_none(),
        Sign::NamedStep => is_named_step(run),
        Sign::DayModifier => is_name(run, "l") || is_name(run, "lw") || is_numbered(run, "w"),
        Sign::WeekdayModifier => is_last_weekday(run),
        Sign::NoWeekday => !is_weekday_word(bounds, run),
    }
}

// Whether one of the runs of bytes of a kind passes.
fn any_run(sign: Sign, bounds: FieldBounds, kind: Kind, text: &[u8]) -> bool
    ensures { result ≡ any_run sign bounds kind text.now }
{
    text.split(|byte| !is_of(kind, *byte))
        .any(|run| passes(sign, bounds, run))
}

// ---- what cron takes of a field, and leaves out of it

/// Whether a part of a field is followed by bytes other than a comma, which cron passes over.
pub fn has_passed_over(bounds: FieldBounds, field: &[u8]) -> bool
    ensures { result ≡ has_passed_over bounds field.now }
{
    any_run(Sign::Followed, bounds, Kind::But(b','), field)
}

/// Whether a word of a field is a number of 2^32 or more, which cron reduces modulo 2^32. `false` where cron passes over
/// bytes of the field.
pub fn has_large_number(bounds: FieldBounds, field: &[u8]) -> bool
    ensures { result ≡ has_large_number bounds field.now }
{
    !has_passed_over(bounds, field) && any_run(Sign::Large, bounds, Kind::Alphanumeric, field)
}

// ---- what a word may have been meant as

fn is_weekday_byte(byte: u8) -> bool
    ensures { result ≡ is_weekday_byte byte }
{
    is_of(Kind::Alphanumeric, byte)
        || byte == b'*'
        || byte == b','
        || byte == b'-'
        || byte == b'/'
        || byte == b'?'
        || byte == b'#'
        || byte == b'+'
}

fn all_weekday_bytes(word: &[u8]) -> bool
    ensures { result ≡ list_all is_weekday_byte word.now }
{
    word.iter().all(|byte| is_weekday_byte(*byte))
}

/// Whether a word may be a field of weekdays. It then has only letters, digits and the signs of such a field, and what
/// stands between the signs is a number, the name of a weekday or a modifier.
pub fn looks_like_weekdays(word: &[u8]) -> bool
    ensures { result ≡ looks_like_weekdays word.now }
{
    all_weekday_bytes(word) && !any_run(Sign::NoWeekday, WEEKDAYS, Kind::Alphanumeric, word)
}

/// Whether a word of a field is the name of a month or of a weekday that this field doesn't have.
pub fn has_other_name(bounds: FieldBounds, field: &[u8]) -> bool
    ensures { result ≡ has_other_name bounds field.now }
{
    any_run(Sign::OtherName, bounds, Kind::Alphanumeric, field)
}

// ---- what cron takes and reads otherwise

fn is_whole_star(part: &SteppedRange) -> bool
    ensures { result ≡ is_whole_star part.now }
{
    part.is_star && part.step == 1
}

fn any_whole_star(parts: &[SteppedRange]) -> bool
    ensures { result ≡ list_any is_whole_star parts.now }
{
    parts.iter().any(|part| is_whole_star(part))
}

fn is_star_among(alloc: Global, bounds: FieldBounds, field: &[u8]) -> Result<bool, AllocError>
    ensures { IfOk result (λ b. b ≡ is_star_among bounds field.now) }
{
    match parts_of(alloc, bounds, field)? {
        Some(parts) => Ok(1 < parts.len() && any_whole_star(parts.as_slice())),
        None => Ok(false),
    }
}

fn any_star_among(alloc: Global, words: FieldWords<'_>) -> Result<bool, AllocError>
    ensures { IfOk result (λ b. b ≡ any_star_among (words_seen words.entry)) }
{
    let minutes = is_star_among(alloc, MINUTES, words.minutes)?;
    let hours = is_star_among(alloc, HOURS, words.hours)?;
    let days = is_star_among(alloc, DAYS, words.days)?;
    let months = is_star_among(alloc, MONTHS, words.months)?;
    let weekdays = is_star_among(alloc, WEEKDAYS, words.weekdays)?;
    Ok(minutes || hours || days || months || weekdays)
}

fn has_uneven_step(
    alloc: Global,
    turn: u64,
    bounds: FieldBounds,
    field: &[u8],
) -> Result<bool, AllocError>
    ensures { IfOk result (λ b. b ≡ has_uneven_step turn bounds field.now) }
{
    match parts_of(alloc, bounds, field)? {
        Some(parts) => Ok(is_uneven(turn, parts.as_slice())),
        None => Ok(false),
    }
}

fn any_uneven_step(alloc: Global, words: FieldWords<'_>) -> Result<bool, AllocError>
    ensures { IfOk result (λ b. b ≡ any_uneven_step (words_seen words.entry)) }
{
    let days = has_uneven_step(alloc, DAYS_OF_MONTH, DAYS, words.days)?;
    let months = has_uneven_step(alloc, MONTHS_OF_YEAR, MONTHS, words.months)?;
    let weekdays = has_uneven_step(alloc, DAYS_OF_WEEK, WEEKDAYS, words.weekdays)?;
    Ok(days || months || weekdays)
}

fn is_star_day(words: FieldWords<'_>) -> bool
    ensures { result ≡ is_star_day (words_seen words.entry) }
{
    are_both(words) && !(words.days == "*".as_bytes() || words.weekdays == "*".as_bytes())
}

fn are_words_noted(alloc: Global, note: Note, words: FieldWords<'_>) -> Result<bool, AllocError>
    ensures { IfOk result (λ b. b ≡ are_words_noted note (words_seen words.entry)) }
{
    match note {
        Note::StarDay => Ok(is_star_day(words)),
        Note::StarAmongParts => any_star_among(alloc, words),
        Note::UnevenStep => any_uneven_step(alloc, words),
        _ => Ok(false),
    }
}

fn is_job_noted(
    alloc: Global,
    note: Note,
    text: &[u8],
    words: FieldWords<'_>,
) -> Result<bool, AllocError>
    ensures { IfOk result (λ b. b ≡ is_job_noted note text.now (words_seen words.entry)) }
{
    if begins_with(text, b'@') {
        return Ok(false);
    }
    are_words_noted(alloc, note, words)
}

// ---- what cron refuses and croner's parser takes

// The word of a field that is at fault, and the values that it may have.
fn field_at<'l>(fault: Fault, words: FieldWords<'l>) -> Option<(FieldBounds, &'l [u8])>
    ensures { option_map (λ f. (f.0, f.1.now)) result ≡ field_at fault (words_seen words.entry) }
{
    match fault {
        Fault::Minutes => Some((MINUTES, words.minutes)),
        Fault::Hours => Some((HOURS, words.hours)),
        Fault::Days => Some((DAYS, words.days)),
        Fault::Months => Some((MONTHS, words.months)),
        Fault::Weekdays => Some((WEEKDAYS, words.weekdays)),
        _ => None,
    }
}

fn has_modifier(fault: Fault, bounds: FieldBounds, field: &[u8]) -> bool
    ensures { result ≡ has_modifier fault bounds field.now }
{
    match fault {
        Fault::Days => has(field, b'?')
            || any_run(Sign::DayModifier, bounds, Kind::Alphanumeric, field),
        Fault::Weekdays => has(field, b'?')
            || begins_with(field, b'+')
            || any_run(Sign::WeekdayModifier, bounds, Kind::Alphanumeric, field),
        _ => false,
    }
}

fn is_fault_noted(note: Note, fault: Fault, bounds: FieldBounds, field: &[u8]) -> bool
    ensures { result ≡ is_fault_noted note fault bounds field.now }
{
    match note {
        Note::EmptyPart => !field.is_empty()
            && any_run(Sign::Empty, bounds, Kind::But(b','), field),
        Note::OtherName => has_other_name(bounds, field)
            || any_run(Sign::NamedStep, bounds, Kind::But(b','), field),
        Note::Modifier => has_modifier(fault, bounds, field),
        _ => false,
    }
}

/// Whether cron takes a field.
///
/// The only error is lack of memory.
pub fn takes(alloc: Global, bounds: FieldBounds, field: &[u8]) -> Result<bool, AllocError>
    ensures { IfOk result (λ b. b ≡ takes bounds field.now) }
{
    match parts_of(alloc, bounds, field)? {
        Some(_) => Ok(true),
        None => Ok(false),
    }
}

fn is_refused_field_noted(
    alloc: Global,
    note: Note,
    fault: Fault,
    words: FieldWords<'_>,
) -> Result<bool, AllocError>
    ensures { IfOk result (λ b. b ≡ is_refused_field_noted note fault (field_at fault (words_seen words.entry))) }
{
    match field_at(fault, words) {
        Some((bounds, field)) => {
            let is_taken = takes(alloc, bounds, field)?;
            Ok(!is_taken && is_fault_noted(note, fault, bounds, field))
        }
        None => Ok(false),
    }
}

// Whether cron takes a day field, or it has a modifier.
fn takes_day(
    alloc: Global,
    fault: Fault,
    bounds: FieldBounds,
    field: &[u8],
) -> Result<bool, AllocError>
    ensures { IfOk result (λ b. b ≡ takes_day fault bounds field.now) }
{
    let is_taken = takes(alloc, bounds, field)?;
    Ok(is_taken || has_modifier(fault, bounds, field))
}

fn takes_all(alloc: Global, words: FieldWords<'_>) -> Result<bool, AllocError>
    ensures { IfOk result (λ b. b ≡ takes_all (words_seen words.entry)) }
{
    let minutes = takes(alloc, MINUTES, words.minutes)?;
    let hours = takes(alloc, HOURS, words.hours)?;
    let days = takes_day(alloc, Fault::Days, DAYS, words.days)?;
    let months = takes(alloc, MONTHS, words.months)?;
    let weekdays = takes_day(alloc, Fault::Weekdays, WEEKDAYS, words.weekdays)?;
    Ok(minutes && hours && days && months && weekdays)
}

fn has_seconds(alloc: Global, text: &[u8]) -> Result<bool, AllocError>
    ensures { IfOk result (λ b. b ≡ has_seconds text.now) }
{
    let (first, rest) = word(text);
    let is_first = takes(alloc, MINUTES, first)?;
    let are_after = takes_all(alloc, words_of(rest))?;
    Ok(is_first && are_after)
}

/// Whether a word is a nickname, in capitals or small.
pub fn is_nickname(name: &[u8]) -> bool
    ensures { result ≡ is_some (nickname_of (lowered name.now)) }
{
    is_name(name, "reboot")
        || is_name(name, "yearly")
        || is_name(name, "annually")
        || is_name(name, "monthly")
        || is_name(name, "weekly")
        || is_name(name, "daily")
        || is_name(name, "midnight")
        || is_name(name, "hourly")
}

fn is_of_fields(fault: Fault) -> bool
    ensures { result ≡ is_of_fields fault }
{
    match fault {
        Fault::Command
        | Fault::Minutes
        | Fault::Hours
        | Fault::Days
        | Fault::Months
        | Fault::Weekdays => true,
        _ => false,
    }
}

fn is_refusal_noted(
    alloc: Global,
    note: Note,
    fault: Fault,
    text: &[u8],
    words: FieldWords<'_>,
) -> Result<bool, AllocError>
    ensures { IfOk result (λ b. b ≡ is_refusal_noted note fault text.now (words_seen words.entry)) }
{
    match note {
        Note::CapitalNickname => {
            let (name, _) = cut(rest_of(text), Kind::Word);
            Ok(matches!(fault, Fault::Nickname) && is_nickname(name))
        }
        Note::Seconds if is_of_fields(fault) => has_seconds(alloc, text),
        Note::Seconds => Ok(false),
        _ => is_refused_field_noted(alloc, note, fault, words),
    }
}

// ---- the line

// Whether a line has a note, by its bytes from the first that is no blank, and by their words.
fn is_noted(
    alloc: Global,
    note: Note,
    fault: Option<Fault>,
    text: &[u8],
    words: FieldWords<'_>,
) -> Result<bool, AllocError>
    ensures { IfOk result (λ b. b ≡ is_text_noted note fault text.now (words_seen words.entry)) }
{
    match fault {
        None => is_job_noted(alloc, note, text, words),
        Some(fault) => is_refusal_noted(alloc, note, fault, text, words),
    }
}

/// The notes of a line of a crontab, in the order in which they are reported. The line is a job, or cron refuses it
/// for this fault; it comes without its line feed.
///
/// The only error is lack of memory.
pub fn notes_of(alloc: Global, fault: Option<Fault>, line: &[u8]) -> Result<Vec<Note>, AllocError>
    ensures { IfOk result (λ found. found.items ≡ notes_of fault line.now) }
{
    let (_, text) = cut(line, Kind::Blank);
    let found = those_noted(alloc, fault, text, words_of(text), &Note::ALL)?;
    Ok(found)
}

// Those of some notes that a line has, by its bytes from the first that is no blank, and by their words.
fn those_noted(
    alloc: Global,
    fault: Option<Fault>,
    text: &[u8],
    words: FieldWords<'_>,
    notes: &[Note],
) -> Result<Vec<Note>, AllocError>
    ensures { IfOk result (λ found. found.items ≡ filter (λ note. is_text_noted note fault text.now (words_seen words.entry)) notes.now) }
{
    let mut found = Vec::new(alloc);
    for note in notes {
        if is_noted(alloc, *note, fault, text, words)? {
            found.push(*note)?;
        }
    }
    Ok(found)
}

/// What a note says: what cron does, and what to write.
pub fn text(note: Note) -> &'static str {
    match note {
        Note::StarDay =>
            "both day fields must match, since one begins with *; where either may, write that one as a range, as 1-31/2 for */2",
        Note::StarAmongParts =>
            "a * among other parts names each value, so that they add nothing: write it alone if it stands first, else the whole range, as 1-31; if not each value is meant, leave it out",
        Note::UnevenStep =>
            "the step is counted anew from each month's, year's or week's first value, so that the last one is shorter: */2 in days is the 31st, and then the 1st",
        Note::EmptyPart =>
            "cron takes no empty part: write one comma between two parts, and no blank beside it",
        Note::OtherName =>
            "cron knows names of months among months alone, those of weekdays among weekdays, and none as a step: write the number",
        Note::Modifier =>
            "cron has no L, W, ? and +: write * for ?, leave + out, and let the command test for a last or a nearest day",
        Note::CapitalNickname => "cron knows a nickname in small letters alone: write it so",
        Note::Seconds =>
            "cron has no field of seconds: leave out the first field, and write what cron takes in the five after it, as * for ?",
    }
}
