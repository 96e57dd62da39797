//! The word of a zone: what is wrong with one that is none, and what is said of a rule that is easily taken for another.
ghost use Rattle.std.specs.Prelude.{◌≡◌, ◌<◌, IfOk, option_map, string_bytes, pos, unsigned_abs};
ghost use Rattle.std.specs.List.{list_all};
ghost use Rattle.jiff.specs.ZoneView.{plain_zone};
ghost use Rattle.croner_base.specs.ZoneTable.{ahead_at};
ghost use Rattle.croncheck_runs.specs.Length.{length_text};
ghost use Rattle.croncheck_moments.specs.Zone.{is_rule, is_front, is_date, split_at, split_view, without_front, without_colon, names_rule, hours_at, hours_in_quotes, hours_of, fault_text, fault_of_word, fault_of_set_zone, fault_of_setting, fault_of_colon, fault_of_name, fault_of_dates, fault_of_date, refusal_text, is_utc_name, is_no_letter, utc_and_hours, without_sign, behind_text, ahead_text, note_text, note_of};

use croncheck_runs::length::Length;
use croner_base::excerpt::Excerpt;
use jiff::Timestamp;
use jiff::tz::TimeZone;
use std::alloc::{AllocError, Global};
use std::fmt;

/// Two dates that a rule may have.
const DATES: &str = "M3.5.0,M10.5.0/3";

/// How many bytes `UTC` and `GMT` have.
const UTC_LENGTH: usize = 3;

/// A text as a message repeats it.
#[derive(Clone, Copy, Drop)]
pub struct Quote<'w> {
    pub text: &'w str,
}

impl fmt::Display for Quote<'_> {
    ghost use Rattle.std.specs.Prelude.{Some};
    ghost use Rattle.croncheck_moments.specs.Zone.{quote_text};

    ghost output = { λ q. Some (quote_text q.text.now) };

    fn fmt<W: fmt::Write>(&self, f: &mut fmt::Formatter<W>) -> fmt::Result {
        let text = Excerpt::of(self.text);
        write!(f, "{text}")
    }
}

/// What is wrong with the word of a zone that is neither a rule nor a name of the database.
#[derive(Clone, Copy, Drop)]
pub enum ZoneFault<'w> {
    /// It doesn't look like a rule.
    Name,
    /// It begins with `TZ=`, and this zone stands after it.
    Setting(Quote<'w>),
    /// It begins with a colon, and this zone stands after it.
    Colon(Quote<'w>),
    /// It begins as a rule does, but has this in place of the hours.
    Hours(Quote<'w>),
    /// It names summer time, but lacks the dates of its changes: this is the whole word.
    NoDates(&'w str),
    /// This is a rule without summer time, and dates follow.
    NoSummer(&'w str),
    /// It has dates, but not two.
    NotTwoDates,
    /// What stands in front of the dates is wrong.
    Front(Quote<'w>),
    /// This date is wrong.
    Date(Quote<'w>),
    /// The time after a date is wrong.
    Time(Quote<'w>),
}

/// What is told of the word of an option that asks for a zone, as `--zone`, if the word is neither a rule nor a name of the database: the
/// option, the word, what is wrong with it, and what to write. The only error is lack of memory.
pub fn refusal_of(alloc: Global, option: &str, word: &str) -> Result<String, AllocError>
    ensures { IfOk result (λ text. string_bytes text ≡ refusal_text option.now word.now) }
{
    let fault = fault_of(alloc, word)?;
    let word = Quote { text: word };
    format!(in alloc; "{option}: {word}{fault}")
}

// What is wrong with the word of a zone.
fn fault_of<'w>(alloc: Global, word: &'w str) -> Result<ZoneFault<'w>, AllocError>
    ensures { IfOk result (λ fault. fault_text fault ≡ fault_of_word word.now) }
{
    if let Some(rest) = without_front(word, "TZ=") {
        return Ok(fault_of_setting(rest));
    }
    if let Some(rest) = without_front(word, ":") {
        return Ok(fault_of_colon(rest));
    }
    match split(word, ',') {
        Some((front, dates)) => fault_of_dates(alloc, front, dates),
        None => fault_of_name(alloc, word),
    }
}

// What is wrong with a word that begins with `TZ=`, after which this stands.
fn fault_of_setting<'w>(rest: &'w str) -> ZoneFault<'w>
    ensures { fault_text result ≡ fault_of_setting rest.now }
{
    fault_of_set_zone(without_colon(rest))
}

// The same, where this zone stands there.
fn fault_of_set_zone<'w>(zone: &'w str) -> ZoneFault<'w>
    ensures { fault_text result ≡ fault_of_set_zone zone.now }
{
    if zone.is_empty() {
        ZoneFault::Name
    } else {
        ZoneFault::Setting(Quote { text: zone })
    }
}

// What is wrong with a word that begins with a colon, after which this zone stands.
fn fault_of_colon<'w>(zone: &'w str) -> ZoneFault<'w>
    ensures { fault_text result ≡ fault_of_colon zone.now }
{
    if zone.is_empty() {
        ZoneFault::Name
    } else {
        ZoneFault::Colon(Quote { text: zone })
    }
}

// A text without a colon in front.
fn without_colon(text: &str) -> &str
    ensures { result.now ≡ without_colon text.now }
{
    match without_front(text, ":") {
        Some(rest) => rest,
        None => text,
    }
}

// What is wrong with a word without a comma.
fn fault_of_name<'w>(alloc: Global, word: &'w str) -> Result<ZoneFault<'w>, AllocError>
    ensures { IfOk result (λ fault. fault_text fault ≡ fault_of_name word.now) }
{
    if is_front(alloc, word)? {
        return Ok(ZoneFault::NoDates(word));
    }
    match hours_of(alloc, word)? {
        Some(hours) => Ok(ZoneFault::Hours(Quote { text: hours })),
        None => Ok(ZoneFault::Name),
    }
}

// What stands in place of the hours in a word that begins with the name of a rule and a sign.
fn hours_of<'w>(alloc: Global, word: &'w str) -> Result<Option<&'w str>, AllocError>
    ensures { IfOk result (λ found. option_map (λ hours. hours.now) found ≡ hours_of word.now) }
{
    if let Some((front, rest)) = split(word, '>') {
        return hours_in_quotes(alloc, front, rest);
    }
    match hours_at(alloc, word, '-')? {
        Some(hours) => Ok(Some(hours)),
        None => hours_at(alloc, word, '+'),
    }
}

// The same for a word whose name ends with `>`, given what stands before the `>` and after it.
fn hours_in_quotes<'w>(
    alloc: Global,
    front: &str,
    rest: &'w str,
) -> Result<Option<&'w str>, AllocError>
    ensures { IfOk result (λ found. option_map (λ hours. hours.now) found ≡ hours_in_quotes front.now rest.now) }
{
    let rule = format!(in alloc; "{front}>0")?;
    if !is_rule(rule.as_str()) {
        return Ok(None);
    }
    match without_front(rest, "-") {
        Some(hours) => Ok(Some(hours)),
        None => Ok(without_front(rest, "+")),
    }
}

// What stands after the first such sign of a word, if the name of a rule stands before it.
fn hours_at<'w>(alloc: Global, word: &'w str, sign: char) -> Result<Option<&'w str>, AllocError>
    requires { sign < 128 }
    ensures { IfOk result (λ found. option_map (λ hours. hours.now) found ≡ hours_at sign word.now) }
{
    let Some((name, hours)) = split(word, sign) else {
        return Ok(None);
    };
    if names_rule(alloc, name)? {
        Ok(Some(hours))
    } else {
        Ok(None)
    }
}

// Whether a rule follows from this name with hours alone.
fn names_rule(alloc: Global, name: &str) -> Result<bool, AllocError>
    ensures { IfOk result (λ b. b ≡ names_rule name.now) }
{
    let rule = format!(in alloc; "{name}0")?;
    Ok(!is_rule(name) && is_rule(rule.as_str()))
}

// What is wrong with a word that has dates.
fn fault_of_dates<'w>(
    alloc: Global,
    front: &'w str,
    dates: &'w str,
) -> Result<ZoneFault<'w>, AllocError>
    ensures { IfOk result (λ fault. fault_text fault ≡ fault_of_dates front.now dates.now) }
{
    if is_rule(front) {
        return Ok(ZoneFault::NoSummer(front));
    }
    if !is_front(alloc, front)? {
        return Ok(ZoneFault::Front(Quote { text: front }));
    }
    let Some((first, second)) = split(dates, ',') else {
        return Ok(ZoneFault::NotTwoDates);
    };
    if split(second, ',').is_some() {
        return Ok(ZoneFault::NotTwoDates);
    }
    if is_date(alloc, first)? {
        fault_of_date(alloc, second)
    } else {
        fault_of_date(alloc, first)
    }
}

// What is wrong with a date and its time, if it has one.
fn fault_of_date<'w>(alloc: Global, text: &'w str) -> Result<ZoneFault<'w>, AllocError>
    ensures { IfOk result (λ fault. fault_text fault ≡ fault_of_date text.now) }
{
    let Some((date, time)) = split(text, '/') else {
        return Ok(ZoneFault::Date(Quote { text }));
    };
    if is_date(alloc, date)? {
        Ok(ZoneFault::Time(Quote { text: time }))
    } else {
        Ok(ZoneFault::Date(Quote { text: date }))
    }
}

// Whether a rule may have this in front of its dates.
fn is_front(alloc: Global, text: &str) -> Result<bool, AllocError>
    ensures { IfOk result (λ b. b ≡ is_front text.now) }
{
    let rule = format!(in alloc; "{text},{DATES}")?;
    Ok(is_rule(rule.as_str()))
}

// Whether a rule may have this date.
fn is_date(alloc: Global, text: &str) -> Result<bool, AllocError>
    ensures { IfOk result (λ b. b ≡ is_date text.now) }
{
    let rule = format!(in alloc; "AAA0BBB,{text},{text}")?;
    Ok(is_rule(rule.as_str()))
}

fn is_rule(text: &str) -> bool
    ensures { result ≡ is_rule text.now }
{
    TimeZone::posix(text).is_ok()
}

// What stands after the front of a text, if it begins with that.
#[tactic(auto, using(crate::proofs::ZoneWords::strip_prefix))]
fn without_front<'w>(text: &'w str, front: &str) -> Option<&'w str>
    ensures { option_map (λ rest. rest.now) result ≡ without_front front.now text.now }
{
    text.strip_prefix(front)
}

// What stands before the first such byte of a text, and what after it.
#[tactic(auto, using(crate::proofs::ZoneWords::split_once))]
fn split(text: &str, at: char) -> Option<(&str, &str)>
    requires { at < 128 }
    ensures { split_view result ≡ split_at at text.now }
{
    text.split_once(at)
}

/// What stands after the word in a message: what is wrong with it, and what to write.
impl fmt::Display for ZoneFault<'_> {
    ghost use Rattle.std.specs.Prelude.{Some};
    ghost use Rattle.croncheck_moments.specs.Zone.{fault_text};

    ghost output = { λ fault. Some (fault_text fault) };

    fn fmt<W: fmt::Write>(&self, f: &mut fmt::Formatter<W>) -> fmt::Result {
        match *self {
            ZoneFault::Name => f.write_str(
                " is neither a zone name (such as Europe/Paris) nor a POSIX rule (such as CET-1CEST,M3.5.0,M10.5.0/3)",
            ),
            ZoneFault::Setting(zone) => {
                write!(f, " begins with TZ=: write the zone alone, here {zone}")
            }
            ZoneFault::Colon(zone) => {
                write!(f, " begins with a colon: write the zone alone, here {zone}")
            }
            ZoneFault::Hours(hours) => write!(
                f,
                " is a rule with {hours} after the sign: write hours from 0 to 24 there, as CET-1, an hour ahead of UTC, or EST+5, five hours behind it"
            ),
            ZoneFault::NoDates(word) => write!(
                f,
                " is a rule that lacks the dates of its summer time: write them after it, as {word},{DATES}"
            ),
            ZoneFault::NoSummer(front) => write!(
                f,
                " is a rule without summer time, which no comma and no date follows: write {front} alone"
            ),
            ZoneFault::NotTwoDates => write!(
                f,
                " is a rule that hasn't two dates: write the first day of summer time and the first day after it, as {DATES}"
            ),
            ZoneFault::Front(front) => write!(
                f,
                " begins with {front}, and no rule does: write a name, hours from 0 to 24 and the name of summer time there, as CET-1CEST, an hour ahead of UTC, or EST+5EDT, five hours behind it"
            ),
            ZoneFault::Date(date) => write!(
                f,
                " is a rule with the date {date}: write as M10.5.0 (a month from 1 to 12, a week from 1 to 5, which is the last, and a weekday from 0, Sunday, to 6), or as J60 (a day from 1 to 365)"
            ),
            ZoneFault::Time(time) => write!(
                f,
                " is a rule with the time {time} after a date: write hours from -167 to 167, as /3 or /2:30"
            ),
        }
    }
}

/// What is said of a rule with the name `GMT` or `UTC` whose clock isn't that of UTC: which way it is off, since POSIX counts the hours
/// behind UTC, and how the other way is written. `None` for any other word. The only error is lack of memory.
pub fn note_of(alloc: Global, word: &str, zone: &TimeZone<'_>) -> Result<Option<String>, AllocError>
    ensures { IfOk result (λ note. option_map (λ text. string_bytes text) note ≡ note_of word.now (ahead_at (plain_zone zone.now) (pos 0))) }
{
    let ahead = zone.to_offset(Timestamp::UNIX_EPOCH).seconds();
    note_by(alloc, word, ahead)
}

// The same, given how many seconds the clock is ahead of UTC, or behind it if the number is negative.
fn note_by(alloc: Global, word: &str, ahead: i32) -> Result<Option<String>, AllocError>
    ensures { IfOk result (λ note. option_map (λ text. string_bytes text) note ≡ note_of word.now ahead) }
{
    if ahead == 0 {
        return Ok(None);
    }
    match utc_and_hours(word) {
        Some((name, hours)) => Ok(Some(note_text(alloc, name, hours, ahead)?)),
        None => Ok(None),
    }
}

// The name of UTC and what stands after it, in a rule without summer time.
fn utc_and_hours(word: &str) -> Option<(&str, &str)>
    ensures { split_view result ≡ utc_and_hours word.now }
{
    let Some((name, hours)) = word.split_at_checked(UTC_LENGTH) else {
        return None;
    };
    if is_utc_name(name) && has_no_letter(hours.as_bytes()) {
        Some((name, hours))
    } else {
        None
    }
}

fn is_utc_name(name: &str) -> bool
    ensures { result ≡ is_utc_name name.now }
{
    name.eq_ignore_ascii_case("gmt") || name.eq_ignore_ascii_case("utc")
}

fn has_no_letter(bytes: &[u8]) -> bool
    ensures { result ≡ list_all is_no_letter bytes.now }
{
    bytes.iter().all(|byte| !byte.is_ascii_alphabetic())
}

// What is said of a rule of this name and these hours, whose clock is `ahead` seconds ahead of UTC, or behind it if the number is negative.
fn note_text(alloc: Global, name: &str, hours: &str, ahead: i32) -> Result<String, AllocError>
    ensures { IfOk result (λ text. string_bytes text ≡ note_text name.now hours.now ahead) }
{
    let length = length_of(ahead);
    let digits = without_sign(hours);
    if ahead < 0 {
        behind_text(alloc, name, hours, digits, length)
    } else {
        ahead_text(alloc, name, hours, digits, length)
    }
}

fn length_of(ahead: i32) -> Length
    ensures { result.seconds ≡ unsigned_abs ahead }
{
    Length {
        seconds: u64::from(ahead.unsigned_abs()),
    }
}

fn behind_text(
    alloc: Global,
    name: &str,
    hours: &str,
    digits: &str,
    length: Length,
) -> Result<String, AllocError>
    ensures { IfOk result (λ text. string_bytes text ≡ behind_text name.now hours.now digits.now (length_text length.seconds)) }
{
    format!(in alloc;
        "--zone {name}{hours}: this clock is {length} behind UTC, as POSIX has it; {length} ahead of UTC is {name}-{digits}"
    )
}

fn ahead_text(
    alloc: Global,
    name: &str,
    hours: &str,
    digits: &str,
    length: Length,
) -> Result<String, AllocError>
    ensures { IfOk result (λ text. string_bytes text ≡ ahead_text name.now hours.now digits.now (length_text length.seconds)) }
{
    format!(in alloc;
        "--zone {name}{hours}: this clock is {length} ahead of UTC, as POSIX has it; {length} behind UTC is {name}+{digits}"
    )
}

// A text without the sign in front of it.
fn without_sign(text: &str) -> &str
    ensures { result.now ≡ without_sign text.now }
{
    match without_front(text, "+") {
        Some(rest) => rest,
        None => match without_front(text, "-") {
            Some(rest) => rest,
            None => text,
        },
    }
}
