//! The program that a command runs, where others stand before it, and its name.
ghost use Rattle.std.specs.Prelude.{◌≡◌, ◌≤◌, length, option_map};
ghost use Rattle.std.specs.List.{list_all, list_any, prefix_len, suffix_len};
ghost use Rattle.std.specs.Str.{bytes_eq};
ghost use Rattle.croncheck_planner.specs.declared.plan.program.Place.TheVariants as places;
ghost use Rattle.croncheck_planner.specs.Programs.{or_text, is_test, is_move, is_guard, is_opening, is_file_reader, is_shell, is_reader, is_of_shell, is_name_byte, is_equals, is_assignment, is_mark, place_after, ends_command, is_end, is_of_sign, text_after_sign, text_after_command, after_guard, step, program_of, is_of_word, word_of, is_option, operand_along, operand_of, is_version_byte, is_runner, is_path_byte, is_path, file_or, is_no_slash, last_part, path_of};

use crontab::bytes::{Kind, begins_with, cut, is_digit, is_of, rest_of};
use crontab::line::word;

// ---- where a program stands

/// A command from its program on: what stands behind words such as `if` and `{`, behind the setting of a variable, and behind a command
/// that goes to a folder, waits or asks whether the program is to run, such as `test -x x &&`.
#[tactic(auto, using(crate::proofs::Commands::program_step))]
pub(crate) fn program_of(command: &[u8]) -> &[u8]
    ensures { result.now ≡ program_of command.now }
{
    let mut text = command;
    for k in 0..command.len() {
        match step(text) {
            Some(rest) => text = rest,
            None => return text,
        }
    }
    text
}

// What stands behind what leads to a program; `None` where that is the program.
fn step(text: &[u8]) -> Option<&[u8]>
    ensures { option_map (λ t. t.now) result ≡ step text.now }
{
    let (first, _) = cut(text, Kind::Word);
    if is_opening(first) || is_assignment(first) {
        Some(word(text).1)
    } else if is_guard(first) {
        after_guard(text)
    } else {
        None
    }
}

// Whether a word is a command that leads to another one.
fn is_guard(word: &[u8]) -> bool
    ensures { result ≡ is_guard word.now }
{
    is_test(word) || is_move(word)
}

// Whether a word is a command that asks whether another one is to run.
fn is_test(word: &[u8]) -> bool
    ensures { result ≡ is_test word.now }
{
    is_word(word, "test")
        || is_word(word, "[")
        || is_word(word, "[[")
        || is_word(word, "which")
        || is_word(word, "command")
}

// Whether a word is a command that goes to a folder, waits or ends.
fn is_move(word: &[u8]) -> bool
    ensures { result ≡ is_move word.now }
{
    is_word(word, "cd") || is_word(word, "sleep") || is_word(word, "exit")
}

// Whether a word is one behind which a command stands.
fn is_opening(word: &[u8]) -> bool
    ensures { result ≡ is_opening word.now }
{
    is_word(word, "if")
        || is_word(word, "then")
        || is_word(word, "{")
        || is_word(word, "(")
        || is_word(word, "!")
}

fn is_word(text: &[u8], word: &str) -> bool
    ensures { result ≡ bytes_eq text.now word.now }
{
    text == word.as_bytes()
}

// Whether a word sets a variable, as `A=b`, to what ends with the word.
fn is_assignment(word: &[u8]) -> bool
    ensures { result ≡ is_assignment word.now }
{
    has_equals(word)
        && !begins_with(word, b'=')
        && is_name(cut(word, Kind::But(b'=')).0)
        && !has_shell(word)
}

fn is_name(word: &[u8]) -> bool
    ensures { result ≡ list_all is_name_byte word.now }
{
    word.iter().all(|byte| is_name_byte(*byte))
}

/// Whether a byte is of a name: a letter, a digit or `_`.
pub(crate) fn is_name_byte(byte: u8) -> bool
    ensures { result ≡ is_name_byte byte }
{
    is_of(Kind::Alphanumeric, byte) || byte == b'_'
}

/// Whether a word has a `=`.
pub(crate) fn has_equals(word: &[u8]) -> bool
    ensures { result ≡ list_any is_equals word.now }
{
    word.iter().any(|byte| is_equals(*byte))
}

fn is_equals(byte: u8) -> bool
    ensures { result ≡ is_equals byte }
{
    byte == b'='
}

fn has_shell(word: &[u8]) -> bool
    ensures { result ≡ list_any is_of_shell word.now }
{
    word.iter().any(|byte| is_of_shell(*byte))
}

// Whether a shell doesn't take a byte as it stands.
fn is_of_shell(byte: u8) -> bool
    ensures { result ≡ is_of_shell byte }
{
    byte == b'"'
        || byte == b'\''
        || byte == b'\\'
        || byte == b'`'
        || byte == b'$'
        || byte == b'('
        || byte == b')'
        || byte == b'{'
        || byte == b'}'
}

// ---- where a command ends

// What follows a command that leads to another one, if something does.
fn after_guard(text: &[u8]) -> Option<&[u8]>
    ensures { option_map (λ t. t.now) result ≡ after_guard text.now }
{
    let rest = text_after_command(text);
    if rest.is_empty() { None } else { Some(rest) }
}

/// Where a byte of a command stands for a shell.
#[derive(Clone, Copy, Drop)]
enum Place {
    /// In no quotes.
    Open,
    /// In quotes of this kind.
    Quoted(u8),
    /// Behind a backslash, in quotes of this kind or in none.
    Taken(Option<u8>),
}

// What follows the first `&&`, `||` or `;` of a text that stands in no quotes; nothing where it has none.
#[tactic(auto, using(crate::proofs::Commands::command_step))]
fn text_after_command(text: &[u8]) -> &[u8]
    ensures { result.now ≡ text_after_command places.Open text.now }
{
    let mut place = Place::Open;
    for k in 0..text.len() {
        if is_end(place, text.split_at(k).1) {
            return text_after_sign(text.split_at(k).1);
        }
        place = place_after(place, text[k]);
    }
    &[]
}

// Whether a command ends in front of a text at such a place.
fn is_end(place: Place, text: &[u8]) -> bool
    ensures { result ≡ is_end place text.now }
{
    match place {
        Place::Open => ends_command(text),
        Place::Quoted(_) | Place::Taken(_) => false,
    }
}

// Where the byte after this one stands.
fn place_after(place: Place, byte: u8) -> Place
    ensures { result ≡ place_after place byte }
{
    match place {
        Place::Open => {
            if byte == b'\\' {
                Place::Taken(None)
            } else if is_mark(byte) {
                Place::Quoted(byte)
            } else {
                Place::Open
            }
        }
        Place::Quoted(quote) => {
            if byte == b'\\' && quote != b'\'' {
                Place::Taken(Some(quote))
            } else if byte == quote {
                Place::Open
            } else {
                Place::Quoted(quote)
            }
        }
        Place::Taken(None) => Place::Open,
        Place::Taken(Some(quote)) => Place::Quoted(quote),
    }
}

// Whether a byte is a quote of the shell.
fn is_mark(byte: u8) -> bool
    ensures { result ≡ is_mark byte }
{
    byte == b'"' || byte == b'\'' || byte == b'`'
}

// Whether `&&`, `||` or `;` stands in front.
fn ends_command(text: &[u8]) -> bool
    ensures { result ≡ ends_command text.now }
{
    begins_with(text, b';')
        || begins_with(text, b'&') && begins_with(rest_of(text), b'&')
        || begins_with(text, b'|') && begins_with(rest_of(text), b'|')
}

// What follows such signs, and the blanks behind them.
fn text_after_sign(text: &[u8]) -> &[u8]
    ensures { result.now ≡ text_after_sign text.now }
{
    text.split_at(sign_length(text)).1
}

fn sign_length(text: &[u8]) -> usize
    ensures count { result ≡ prefix_len is_of_sign text.now }
    ensures within { result ≤ length text.now }
{
    text.iter().take_while(|byte| is_of_sign(**byte)).count()
}

fn is_of_sign(byte: u8) -> bool
    ensures { result ≡ is_of_sign byte }
{
    is_of(Kind::Blank, byte) || byte == b';' || byte == b'&' || byte == b'|'
}

// ---- what a program is called

/// The path of a text's program; of one that runs a file or a folder, such as `php`, `sh` or `run-parts`, that of this, if it is written as
/// one.
pub(crate) fn path_of(text: &[u8]) -> &[u8]
    ensures { result.now ≡ path_of text.now }
{
    let program = word_of(text);
    if is_runner(last_part(program)) {
        file_or(operand_of(text), program)
    } else {
        program
    }
}

// The word with which a text begins: it ends where a shell ends it, or cron the command.
fn word_of(text: &[u8]) -> &[u8]
    ensures { result.now ≡ word_of text.now }
{
    text.split_at(word_length(text)).0
}

fn word_length(text: &[u8]) -> usize
    ensures count { result ≡ prefix_len is_of_word text.now }
    ensures within { result ≤ length text.now }
{
    text.iter().take_while(|byte| is_of_word(**byte)).count()
}

fn is_of_word(byte: u8) -> bool
    ensures { result ≡ is_of_word byte }
{
    !(is_of(Kind::Blank, byte)
        || byte == b';'
        || byte == b'&'
        || byte == b'|'
        || byte == b'<'
        || byte == b'>'
        || byte == b'('
        || byte == b')'
        || byte == b'%')
}

// Whether a name is that of a program that runs a file or a folder, with a version behind it or not, as `python3.11`.
fn is_runner(name: &[u8]) -> bool
    ensures { result ≡ is_runner name.now }
{
    is_reader(name.split_at(name.len() - version_length(name)).0)
}

fn is_reader(name: &[u8]) -> bool
    ensures { result ≡ is_reader name.now }
{
    is_file_reader(name) || is_shell(name)
}

fn is_file_reader(name: &[u8]) -> bool
    ensures { result ≡ is_file_reader name.now }
{
    is_word(name, "run-parts")
        || is_word(name, "php")
        || is_word(name, "python")
        || is_word(name, "perl")
}

fn is_shell(name: &[u8]) -> bool
    ensures { result ≡ is_shell name.now }
{
    is_word(name, "sh") || is_word(name, "bash") || is_word(name, "dash")
}

fn version_length(name: &[u8]) -> usize
    ensures count { result ≡ suffix_len is_version_byte name.now }
    ensures within { result ≤ length name.now }
{
    name.iter()
        .rev()
        .take_while(|byte| is_version_byte(**byte))
        .count()
}

fn is_version_byte(byte: u8) -> bool
    ensures { result ≡ is_version_byte byte }
{
    is_digit(byte) || byte == b'.'
}

// The first word behind a text's first one that is no option.
#[tactic(auto, using(crate::proofs::Commands::operand_step))]
fn operand_of(text: &[u8]) -> &[u8]
    ensures { result.now ≡ operand_of text.now }
{
    let mut rest = word(text).1;
    for k in 0..text.len() {
        if !is_option(cut(rest, Kind::Word).0) {
            return word_of(rest);
        }
        rest = word(rest).1;
    }
    word_of(rest)
}

// Whether a word is an option, and has no quote.
fn is_option(word: &[u8]) -> bool
    ensures { result ≡ is_option word.now }
{
    begins_with(word, b'-') && !has_shell(word)
}

// The word that says what a program runs, where that may be a path; else the program's own.
fn file_or<'t>(file: &'t [u8], program: &'t [u8]) -> &'t [u8]
    ensures { result.now ≡ file_or file.now program.now }
{
    if is_path(file) { file } else { program }
}

// Whether a word may be the path of a file: it has a slash or a dot, and nothing that a shell doesn't take as it stands, nor a `=`.
fn is_path(word: &[u8]) -> bool
    ensures { result ≡ is_path word.now }
{
    has_path_byte(word) && !(has_shell(word) || has_equals(word))
}

fn has_path_byte(word: &[u8]) -> bool
    ensures { result ≡ list_any is_path_byte word.now }
{
    word.iter().any(|byte| is_path_byte(*byte))
}

fn is_path_byte(byte: u8) -> bool
    ensures { result ≡ is_path_byte byte }
{
    byte == b'/' || byte == b'.'
}

/// The last part of a path, in front of which a slash stands, if it has one. One that ends with a slash is its own.
pub(crate) fn last_part(path: &[u8]) -> &[u8]
    ensures { result.now ≡ last_part path.now }
{
    or_text(path.split_at(path.len() - length_after_slash(path)).1, path)
}

/// How many bytes stand after the last slash of a path; all where it has none.
pub(crate) fn length_after_slash(path: &[u8]) -> usize
    ensures count { result ≡ suffix_len is_no_slash path.now }
    ensures within { result ≤ length path.now }
{
    path.iter()
        .rev()
        .take_while(|byte| is_no_slash(**byte))
        .count()
}

fn is_no_slash(byte: u8) -> bool
    ensures { result ≡ is_no_slash byte }
{
    byte != b'/'
}

/// A text, or another where it is empty.
pub(crate) fn or_text<'t>(text: &'t [u8], other: &'t [u8]) -> &'t [u8]
    ensures { result.now ≡ or_text text.now other.now }
{
    if text.is_empty() { other } else { text }
}
