//! What a job is called in a plan.
ghost use Rattle.std.specs.Prelude.{◌≡◌, ◌≤◌, filter, length, option_map, unwrap_or, IfOk};
ghost use Rattle.std.specs.List.{list_all, list_any, prefix_len};
ghost use Rattle.crontab.specs.Bytes.{is_digit};
ghost use Rattle.crontab.specs.Entries.{entry_seen, job_seen};
ghost use Rattle.croncheck_report.specs.Allowed.{list_in};
ghost use Rattle.croncheck_planner.specs.Titles.{heading_seen, no_heading, heading_below, title_below, begins_sign, is_long, is_number_byte, begins_as_number, begins_as_part, begins_as_hours, begins_as_fields, text_after_at, is_nickname_word, is_password_word, tells_in_front, tells_after_blank, is_apart, sets_in_front, tells_here, tells_anywhere, is_hash, is_of_field, is_lone, is_at, is_field, begins_as_job, names_fields, reads_as_line, title_text, without_hashes, comment_text, heading, title_of_path, title_of_command, title_of_job, title_of_line, is_stem_byte, name_in, without_last, folder_of, stem_of, title_by_stem, title_beside, title_of};

use crate::plan::program::{
    has_equals, is_name_byte, last_part, length_after_slash, or_text, path_of, program_of,
};
use croncheck_report::allowed::comment::list_in;
use crontab::bytes::{Kind, begins_with, cut, is_digit, is_of, rest_of, trim_end};
use crontab::field::{FieldBounds, part_of};
use crontab::line::{Entry, Job, MONTHS, WEEKDAYS, word};
use crontab::notes::is_nickname;
use crontab::setting::is_setting;
use std::alloc::{AllocError, Global};

/// The most signs of a comment that is a title.
const MOST_SIGNS: usize = 60;

/// What stands directly above a line.
#[derive(Drop)]
pub struct Heading {
    /// The title that a comment there gives; empty where none does.
    pub title: Vec<u8>,
    /// Whether a comment stands there.
    pub is_comment: bool,
}

impl Heading {
    /// What stands above the first line of a file: nothing.
    pub(crate) fn none(alloc: Global) -> Heading
        ensures { heading_seen result ≡ no_heading }
    {
        Heading {
            title: Vec::new(alloc),
            is_comment: false,
        }
    }
}

/// What stands above the line after this one, above which `above` stands: a comment with its title, or nothing where this line is no
/// comment. `None` where that stays as it is: at a comment without a text, and one that allows something.
///
/// A comment gives a title where it is the only one there, has at most 60 signs, and doesn't read as a line that was taken out.
///
/// The only error is lack of memory.
pub(crate) fn heading_of(
    alloc: Global,
    above: &Heading,
    entry: &Entry<'_>,
    line: &[u8],
) -> Result<Option<Heading>, AllocError>
    ensures { IfOk result (λ found. unwrap_or (option_map heading_seen found) (heading_seen above.now) ≡ heading (heading_seen above.now) (entry_seen entry.now) line.now) }
{
    match entry {
        Entry::Comment => heading_of_comment(alloc, above, line),
        Entry::Blank
        | Entry::Setting { .. }
        | Entry::Job(_)
        | Entry::Pattern(_)
        | Entry::Refused { .. } => Ok(Some(Heading::none(alloc))),
    }
}

fn heading_of_comment(
    alloc: Global,
    above: &Heading,
    line: &[u8],
) -> Result<Option<Heading>, AllocError>
    ensures { IfOk result (λ found. unwrap_or (option_map heading_seen found) (heading_seen above.now) ≡ heading_below (list_in line.now) (heading_seen above.now) line.now) }
{
    if list_in(line).is_some() {
        return Ok(None);
    }
    if comment_text(line).is_empty() {
        return Ok(None);
    }
    let mut title = Vec::new(alloc);
    title.extend_from_slice(title_below(above.is_comment, line))?;
    Ok(Some(Heading {
        title,
        is_comment: true,
    }))
}

// The title that a comment gives, with a comment above it or not.
fn title_below(is_comment: bool, line: &[u8]) -> &[u8]
    ensures { result.now ≡ title_below is_comment line.now }
{
    if is_comment {
        &[]
    } else {
        title_text(comment_text(line))
    }
}

// A text that neither reads as a line nor names the fields of one, and isn't long; else nothing. A line that was taken out may hold a
// password.
#[tactic(auto, unfolding(crate::specs::Titles::title_text))]
fn title_text(text: &[u8]) -> &[u8]
    ensures { result.now ≡ title_text text.now }
{
    if reads_as_line(text) || names_fields(text) || is_long(text) {
        &[]
    } else {
        text
    }
}

fn is_long(text: &[u8]) -> bool
    ensures { result ≡ is_long text.now }
{
    sign_count(text) > MOST_SIGNS
}

// How many characters a text has; a byte that is no UTF-8 counts as one, unless it could continue one.
fn sign_count(text: &[u8]) -> usize
    ensures { result ≡ length (filter begins_sign text.now) }
{
    text.iter().filter(|byte| begins_sign(**byte)).count()
}

fn begins_sign(byte: u8) -> bool
    ensures { result ≡ begins_sign byte }
{
    byte < 128 || 192 <= byte
}

// Whether a text may be a line that was taken out: it reads as a setting, begins as a job does, or tells of one anywhere.
#[tactic(auto, unfolding(crate::specs::Titles::reads_as_line))]
fn reads_as_line(text: &[u8]) -> bool
    ensures { result ≡ reads_as_line text.now }
{
    is_setting(text) || begins_as_job(text) || tells_in_front(text) || tells_anywhere(text)
}

// Whether the fields of a job, a nickname, a password of `-p` or a variable that is set stands anywhere in a text, but in its front.
#[tactic(auto, using(crate::proofs::TakenOut::tells_step))]
fn tells_anywhere(text: &[u8]) -> bool
    ensures { result ≡ tells_anywhere text.now }
{
    for k in 0..text.len() {
        if tells_here(text.split_at(k).1) {
            return true;
        }
    }
    false
}

fn tells_here(text: &[u8]) -> bool
    ensures { result ≡ tells_here text.now }
{
    tells_after_blank(text) || sets_in_front(text)
}

fn tells_after_blank(text: &[u8]) -> bool
    ensures { result ≡ tells_after_blank text.now }
{
    match text {
        [first, rest @ ..] => is_of(Kind::Blank, *first) && tells_in_front(rest),
        [] => false,
    }
}

// Whether the fields of a job, a nickname, or `-p` and more stands in front of a text.
#[tactic(auto, unfolding(crate::specs::Titles::tells_in_front))]
fn tells_in_front(text: &[u8]) -> bool
    ensures { result ≡ tells_in_front text.now }
{
    let (first, _) = cut(text, Kind::Word);
    is_password_word(first) || is_nickname_word(first) || begins_as_fields(text)
}

// Whether a word is `-p` and more, as mysql takes a password.
fn is_password_word(word: &[u8]) -> bool
    ensures { result ≡ is_password_word word.now }
{
    begins_with(word, b'-')
        && begins_with(rest_of(word), b'p')
        && !rest_of(rest_of(word)).is_empty()
}

// Whether a word is a nickname, whatever stands in front of its `@`: one of cron's, in capitals or small, or `every` of other programs.
fn is_nickname_word(word: &[u8]) -> bool
    ensures { result ≡ is_nickname_word word.now }
{
    let name = text_after_at(word);
    is_nickname(name) || name == "every".as_bytes()
}

// What follows the first `@` of a word.
fn text_after_at(word: &[u8]) -> &[u8]
    ensures { result.now ≡ text_after_at word.now }
{
    rest_of(cut(word, Kind::But(b'@')).1)
}

// Whether the five fields of a job stand in front of a text. Other words may end with the minutes, as `OFF:0` does.
fn begins_as_fields(text: &[u8]) -> bool
    ensures { result ≡ begins_as_fields text.now }
{
    has_number_byte(cut(text, Kind::Word).0) && begins_as_hours(word(text).1)
}

// Whether the hours, days of the month, months and weekdays of a job do.
fn begins_as_hours(text: &[u8]) -> bool
    ensures { result ≡ begins_as_hours text.now }
{
    let (hours, rest) = word(text);
    let (days, rest) = word(rest);
    let (months, rest) = word(rest);
    let (weekdays, _) = word(rest);
    begins_as_number(hours)
        && begins_as_number(days)
        && begins_as_part(MONTHS, months)
        && begins_as_part(WEEKDAYS, weekdays)
}

// Whether a word begins with a digit or a star, or with a part of a field with these bounds: names stand there, too.
fn begins_as_part(bounds: FieldBounds, word: &[u8]) -> bool
    ensures { result ≡ begins_as_part bounds word.now }
{
    begins_as_number(word) || part_of(bounds, word).is_some()
}

fn begins_as_number(word: &[u8]) -> bool
    ensures { result ≡ begins_as_number word.now }
{
    match word {
        [first, ..] => is_number_byte(*first),
        [] => false,
    }
}

fn has_number_byte(word: &[u8]) -> bool
    ensures { result ≡ list_any is_number_byte word.now }
{
    word.iter().any(|byte| is_number_byte(*byte))
}

fn is_number_byte(byte: u8) -> bool
    ensures { result ≡ is_number_byte byte }
{
    is_digit(byte) || byte == b'*'
}

// Whether the last byte of a name stands in front of a text, and `=` behind it; or behind blanks after it, with a value.
fn sets_in_front(text: &[u8]) -> bool
    ensures { result ≡ sets_in_front text.now }
{
    match text {
        [first, rest @ ..] => {
            is_name_byte(*first) && (begins_with(rest, b'=') || is_apart(cut(rest, Kind::Blank).1))
        }
        [] => false,
    }
}

// Whether a lone `=` stands in front of a text, with a value behind it, and blanks between.
fn is_apart(text: &[u8]) -> bool
    ensures { result ≡ is_apart text.now }
{
    begins_with(text, b'=')
        && !begins_with(rest_of(text), b'=')
        && !cut(rest_of(text), Kind::Blank).1.is_empty()
}

// Whether a text begins as the comment does that names the fields in what `crontab -e` begins a file with.
fn names_fields(text: &[u8]) -> bool
    ensures { result ≡ names_fields text.now }
{
    let (minute, rest) = word(text);
    is_lone(minute, b'm') && is_lone(word(rest).0, b'h')
}

// Whether a text begins with the sign of a nickname, or with the minutes of a job.
fn begins_as_job(text: &[u8]) -> bool
    ensures { result ≡ begins_as_job text.now }
{
    is_at(text) || is_field(word(text).0)
}

fn is_at(text: &[u8]) -> bool
    ensures { result ≡ is_at text.now }
{
    match text {
        [first, ..] => *first == b'@',
        [] => false,
    }
}

// Whether a word is a star, or has a digit and nothing but what fields are made of.
fn is_field(word: &[u8]) -> bool
    ensures { result ≡ is_field word.now }
{
    is_made_for_field(word) && (is_lone(word, b'*') || has_digit(word))
}

fn is_made_for_field(word: &[u8]) -> bool
    ensures { result ≡ list_all is_of_field word.now }
{
    word.iter().all(|byte| is_of_field(*byte))
}

fn is_lone(word: &[u8], byte: u8) -> bool
    ensures { result ≡ is_lone byte word.now }
{
    match word {
        [only] => *only == byte,
        [] | [_, _, ..] => false,
    }
}

fn has_digit(word: &[u8]) -> bool
    ensures { result ≡ list_any is_digit word.now }
{
    word.iter().any(|byte| is_digit(*byte))
}

fn is_of_field(byte: u8) -> bool
    ensures { result ≡ is_of_field byte }
{
    is_digit(byte) || byte == b'*' || byte == b',' || byte == b'-' || byte == b'/'
}

// The text of a comment: without the hashes in front, and the blanks around it.
fn comment_text(line: &[u8]) -> &[u8]
    ensures { result.now ≡ comment_text line.now }
{
    let (_, comment) = cut(line, Kind::Blank);
    let text = without_hashes(comment);
    let (_, text) = cut(text, Kind::Blank);
    trim_end(text)
}

// A text without the hashes in front.
fn without_hashes(text: &[u8]) -> &[u8]
    ensures { result.now ≡ without_hashes text.now }
{
    text.split_at(hashes(text)).1
}

fn hashes(text: &[u8]) -> usize
    ensures count { result ≡ prefix_len is_hash text.now }
    ensures within { result ≤ length text.now }
{
    text.iter().take_while(|byte| is_hash(**byte)).count()
}

fn is_hash(byte: u8) -> bool
    ensures { result ≡ is_hash byte }
{
    byte == b'#'
}

/// The title of the job of a line in a file: the title `above` the line, if there is one; else the name of its file, where that is in a
/// folder cron.d; else what [`title_of_line`] says.
pub(crate) fn title_of<'l>(file: &'l [u8], above: &'l [u8], entry: &Entry<'l>) -> &'l [u8]
    ensures { result.now ≡ title_of file.now above.now (entry_seen entry.now) }
{
    or_text(above, or_text(stem_of(file), title_of_line(entry)))
}

/// The same where its file has several jobs, if that is another title: then the program stands behind the name of the file. The only
/// error is lack of memory.
pub(crate) fn title_beside(
    alloc: Global,
    file: &[u8],
    above: &[u8],
    entry: &Entry<'_>,
) -> Result<Option<Vec<u8>>, AllocError>
    ensures { IfOk result (λ title. option_map (λ t. t.items) title ≡ title_beside file.now above.now (entry_seen entry.now)) }
{
    match above {
        [] => title_by_stem(alloc, stem_of(file), title_of_line(entry)),
        [_, ..] => Ok(None),
    }
}

// A title behind the name of a file, if there is one.
fn title_by_stem(alloc: Global, stem: &[u8], title: &[u8]) -> Result<Option<Vec<u8>>, AllocError>
    ensures { IfOk result (λ found. option_map (λ t. t.items) found ≡ title_by_stem stem.now title.now) }
{
    if stem.is_empty() {
        return Ok(None);
    }
    let mut found = Vec::new(alloc);
    found.extend_from_slice(stem)?;
    found.extend_from_slice(": ".as_bytes())?;
    found.extend_from_slice(title)?;
    Ok(Some(found))
}

// The name of a file in a folder cron.d, if cron takes it; else nothing.
fn stem_of(path: &[u8]) -> &[u8]
    ensures { result.now ≡ stem_of path.now }
{
    let name = name_in(path);
    if name_in(folder_of(path)) == "cron.d".as_bytes() && is_stem(name) {
        name
    } else {
        &[]
    }
}

fn is_stem(name: &[u8]) -> bool
    ensures { result ≡ list_all is_stem_byte name.now }
{
    name.iter().all(|byte| is_stem_byte(*byte))
}

fn is_stem_byte(byte: u8) -> bool
    ensures { result ≡ is_stem_byte byte }
{
    is_of(Kind::Alphanumeric, byte) || byte == b'_' || byte == b'-'
}

// What stands after the last slash of a path.
fn name_in(path: &[u8]) -> &[u8]
    ensures { result.now ≡ name_in path.now }
{
    path.split_at(path.len() - length_after_slash(path)).1
}

// What stands before that slash.
fn folder_of(path: &[u8]) -> &[u8]
    ensures { result.now ≡ folder_of path.now }
{
    without_last(path.split_at(path.len() - length_after_slash(path)).0)
}

fn without_last(text: &[u8]) -> &[u8]
    ensures { result.now ≡ without_last text.now }
{
    text.split_at(text.len().saturating_sub(1)).0
}

/// The title of a line's job by its command: the last part of the path of the command's program. If there is no command, or that path has
/// a `=`, since a variable may be set to a password, it is the job's times. A pattern is its own title.
fn title_of_line<'l>(entry: &Entry<'l>) -> &'l [u8]
    ensures { result.now ≡ title_of_line (entry_seen entry.now) }
{
    match entry {
        Entry::Job(job) => title_of_job(job),
        Entry::Pattern(pattern) => pattern,
        Entry::Blank | Entry::Comment | Entry::Setting { .. } | Entry::Refused { .. } => &[],
    }
}

fn title_of_job<'l>(job: &Job<'l>) -> &'l [u8]
    ensures { result.now ≡ title_of_job (job_seen job.now) }
{
    let title = title_of_command(job.command);
    if title.is_empty() {
        job.schedule
    } else {
        title
    }
}

// The title of a job by its command.
fn title_of_command(command: &[u8]) -> &[u8]
    ensures { result.now ≡ title_of_command command.now }
{
    let (_, text) = cut(command, Kind::Blank);
    title_of_path(path_of(program_of(text)))
}

// The last part of the path of a command's program; nothing where it may set a variable, as `A=b` does, since that may be a password.
fn title_of_path(path: &[u8]) -> &[u8]
    ensures { result.now ≡ title_of_path path.now }
{
    if has_equals(path) {
        &[]
    } else {
        last_part(path)
    }
}
