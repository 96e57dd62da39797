//! The words of a call.
ghost use Rattle.std.specs.Prelude.{◌≡◌, ◌≤◌, IfOk};
ghost use Rattle.std.specs.List.{list_all};
ghost use Rattle.croncheck_files.specs.Names.{asked_seen, dialect_of};
ghost use Rattle.croncheck_command.specs.Words.{IsInRange, AreInRange, IsNamedWhen, TellsRuns, is_of_utc};
ghost use Rattle.crontab.specs.Line.{are_patterns};

mod options;
mod planning;
mod when;

use clap::ArgMatches;
use clap::error::ErrorKind;
use croncheck_files::names::{
    Asked, Places, STANDARD_INPUT, asked_file_at, asked_files, last_place_before,
};
use croncheck_output::escaped::push_shown;
use croncheck_report::allowed::{ALLOWABLE, nearest_name};
use croncheck_report::settings::Tongue;
use croncheck_typed::line::may_be_zone;
use croner::parser::{CronParser, Seconds, Year};
use croner_presets::Preset;
use cronplan_forms::PlanAsked;
use options::{option_meant_by, program, verb_of, verb_with, verbs_with};
use planning::{output, plan_asked, title};
use std::alloc::{AllocError, Global};
pub use when::When;
use when::{FROM, UNTIL, when_of};

/// The last line of what is told if the words of a call are misused.
pub const USAGE: &str =
    "usage: croncheck [COMMAND] [OPTIONS] [FILE|PATTERN]... (croncheck --help lists the commands)";

/// What `--version` tells after the program's name: this project's version, the crate whose patterns it reads, and the licence.
const VERSION: &str = "0.5.0, patterns of croner 4.0.3
MIT licence, in the file LICENSE";

/// The version of this program.
pub fn version() -> &'static str {
    VERSION.split(',').next().unwrap_or(VERSION)
}

/// The most runs of a line that are asked for.
const MOST_RUNS: u32 = 1_000;

/// The least and the greatest width of lines.
pub const LEAST_WIDTH: usize = 20;

pub const MOST_WIDTH: usize = 1_000;

/// How many runs of a line are searched if none is told: the first one, for the days of its month that `either-day` tells.
const CHECKED_RUNS: u32 = 1;

/// The word of a call for the zone of a machine.
pub const LOCAL: &str = "local";

/// UTC as a rule.
const UTC: &str = "UTC0";

/// The findings that can't be allowed.
const NOT_ALLOWABLE: [&str; 3] = ["no-newline", "many-lines", "file-name"];

/// The place of standard input if no file is named: after all words.
const AFTER_ALL: usize = usize::MAX;

/// What is told if standard input is given a name, but isn't read.
const NAMES_NOTHING: &str =
    "error: --stdin-name is the name of standard input, which isn't read here: write - among the files\n";

/// What is told where something is named beside a machine.
const BESIDE_ROOT: &str =
    "error: --root stands in place of files, and of --system, --user, --patterns, --stdin-name and --users\n";

/// What the words of a call ask for.
#[derive(Drop)]
pub struct Call<'w> {
    pub verb: Verb,
    /// `local`, a POSIX rule, or the name of a zone. UTC with [`Verb::Describe`], and where none is given and GitHub's patterns alone are asked
    /// of.
    pub zone: &'w str,
    /// The zone whose clock is shown too, if there is one; it is written as `zone` is. Not with [`Verb::Check`], [`Verb::Describe`], or the
    /// calendar of a plan.
    pub show_zone: Option<&'w str>,
    /// Where runs are listed from.
    pub from: When,
    /// Up to where runs are listed: one run with [`Verb::Check`] and none with [`Verb::Describe`], which both tell of no runs.
    pub span: Span,
    /// How many runs up to `from` are told too, from 1 to 1000, if any are. Only with [`Verb::Show`] and [`Verb::Next`].
    pub previous: Option<u32>,
    /// How often a job starts is told too. Only with [`Verb::Show`] and [`Verb::Next`].
    pub tells_often: bool,
    /// The parser of patterns.
    pub parser: CronParser,
    /// The program whose reading of patterns is told too. Not with [`Verb::Plan`].
    pub preset: Option<Preset>,
    pub language: Tongue,
    /// The form of what [`Verb::Check`] and [`Verb::Show`] tell. [`Verb::Show`] has only texts and JSON.
    pub format: Format,
    /// How many columns a line has on a terminal, if the words say that.
    pub width: Option<usize>,
    pub color: Color,
    /// The status is 1 also where a line or the name of a file has a warning. Only with [`Verb::Check`] and [`Verb::Show`].
    pub is_strict: bool,
    /// Each job is compared with those before it. Only with [`Verb::Check`] and [`Verb::Show`].
    pub compares_jobs: bool,
    /// The names of warnings that are allowed. Only with [`Verb::Check`] and [`Verb::Show`].
    pub allowed: Vec<&'w str>,
    /// The file of the users, if one is named. Only with [`Verb::Check`], [`Verb::Show`] and [`Verb::Plan`].
    pub users: Option<&'w str>,
    /// The folder below which the files of a machine stand, if a machine is checked; then no file is named. Only with [`Verb::Check`],
    /// [`Verb::Show`] and [`Verb::Plan`].
    pub root: Option<&'w str>,
    /// The folders among the files are entered, and so are those in them. Only with [`Verb::Check`], [`Verb::Show`] and [`Verb::Plan`].
    pub is_recursive: bool,
    /// The files, in order: standard input if none is named and no machine is checked. Empty with [`Verb::Next`] and [`Verb::Describe`].
    pub files: Vec<Asked<'w>>,
    /// The patterns. Empty unless with [`Verb::Next`] or [`Verb::Describe`].
    pub patterns: Vec<&'w str>,
    /// What is asked of a plan, with [`Verb::Plan`].
    pub plan: PlanAsked,
    /// The name of the file that a plan is written to, if it is asked for as a file and a name is given.
    pub output: Option<&'w str>,
    /// What the page or the calendar of a plan is called, if a name is given.
    pub title: Option<&'w str>,
}

/// What is asked.
#[derive(Clone, Copy, Drop)]
pub enum Verb {
    /// What is wrong in files, and what to beware of.
    Check,
    /// What each line of files means, when it runs, and what is found of it.
    Show,
    /// The starts of all jobs of files in one list, in order of time.
    Plan,
    /// When patterns run that are words of the call.
    Next,
    /// What patterns mean that are words of the call.
    Describe,
}

/// The form in which findings and reports are told.
#[derive(Clone, Copy, Drop)]
pub enum Format {
    /// Texts for a person.
    Text,
    /// A line for each finding, as compilers write them.
    Gcc,
    /// A command of a GitHub workflow for each finding.
    Github,
    /// One object of SARIF with all findings.
    Sarif,
    /// An object for each line.
    Json,
}

/// When texts have colours.
#[derive(Clone, Copy, Drop)]
pub enum Color {
    /// On a terminal, unless the environment's `NO_COLOR` says otherwise.
    Auto,
    Always,
    Never,
}

/// Up to where runs are listed.
#[derive(Clone, Copy, Drop)]
pub enum Span {
    /// This many runs, from 0 to 1000.
    Count(u32),
    Until(When),
}

/// Why there is nothing to check.
#[derive(Drop)]
pub enum NoCall {
    /// The words ask for this text: help, or the version.
    Asked(String),
    /// A word of the call can't be used: this is what is told of it.
    Misused(String),
    OutOfMemory,
}

impl From<AllocError> for NoCall {
    fn from(_error: AllocError) -> NoCall {
        NoCall::OutOfMemory
    }
}

/// Reads the words of a call, the first of which is the program's name. The error says why there is nothing to check.
///
/// A call without a verb is one of [`Verb::Check`].
pub fn read_call<'w>(alloc: Global, words: &'w [String]) -> Result<Call<'w>, NoCall>
    ensures span { IfOk result (λ call. IsInRange call.span) }
    ensures from { IfOk result (λ call. IsNamedWhen call.from) }
    ensures told { IfOk result (λ call. TellsRuns call.verb call.span) }
    ensures previous { IfOk result (λ call. AreInRange call.previous) }
{
    let program = program(alloc)?;
    match program.try_get_matches_from(words) {
        Ok(matches) => call_with_verb(alloc, &matches),
        Err(error) => Err(told_of_error(alloc, &error)?),
    }
}

// What matches of the program ask for: those of a verb, or of `check`, which stands for none.
fn call_with_verb<'w>(alloc: Global, matches: &ArgMatches<'w>) -> Result<Call<'w>, NoCall>
    ensures span { IfOk result (λ call. IsInRange call.span) }
    ensures from { IfOk result (λ call. IsNamedWhen call.from) }
    ensures told { IfOk result (λ call. TellsRuns call.verb call.span) }
    ensures previous { IfOk result (λ call. AreInRange call.previous) }
{
    if let Some((name, matched)) = matches.subcommand() {
        return call_of(alloc, verb_of(name).unwrap_or(Verb::Check), matched);
    }
    let call = call_of(alloc, Verb::Check, matches)?;
    match first_verb(call.files.as_slice()) {
        Some(name) => Err(told_of_misplaced_verb(alloc, name)),
        None => Ok(call),
    }
}

// The first of some files, where it has the name of a verb, which stands after an option then.
fn first_verb<'w>(files: &[Asked<'w>]) -> Option<&'w str> {
    match files.first() {
        Some(file) if verb_of(file.word).is_some() => Some(file.word),
        _ => None,
    }
}

// What is told of a verb after an option.
fn told_of_misplaced_verb(alloc: Global, name: &str) -> NoCall {
    told_by_text(format!(in alloc;
        "error: the command '{name}' stands in front of the options; a file of that name is ./{name}\n"
    ))
}

// What is told where there are no matches.
fn told_of_error(alloc: Global, error: &clap::Error) -> Result<NoCall, AllocError> {
    let text = format!(in alloc; "{error}")?;
    match error.kind() {
        ErrorKind::DisplayHelp | ErrorKind::DisplayVersion => Ok(NoCall::Asked(text)),
        ErrorKind::OutOfMemory => Ok(NoCall::OutOfMemory),
        ErrorKind::UnknownArgument => told_of_unknown_option(alloc, text.as_str()),
        _ => Ok(NoCall::Misused(head_of_message(alloc, text.as_str())?)),
    }
}

// What is told of an option that a verb doesn't have, in place of what this message says: the verbs that have it.
fn told_of_unknown_option(alloc: Global, message: &str) -> Result<NoCall, AllocError> {
    let option = message.split('\'').nth(1).unwrap_or("");
    let verb = verb_with(option);
    match verbs_with(option) {
        Some(verbs) => Ok(told_by_text(format!(in alloc;
            "error: {option} is an option of {verbs}: write such a command in front, as croncheck {verb} {option}\n"
        ))),
        None => told_of_other_option(alloc, option, message),
    }
}

// What is told of an option that no verb has: the one that does it, if other programs name that so.
fn told_of_other_option(alloc: Global, option: &str, message: &str) -> Result<NoCall, AllocError> {
    match option_meant_by(option) {
        Some(other) => Ok(told_by_text(format!(in alloc;
            "error: there is no option {option}: write {other}\n"
        ))),
        None => Ok(NoCall::Misused(head_of_message(alloc, message)?)),
    }
}

// The paragraphs of a message up to the one on the usage, as they are shown. That a word may be a value after `--` is left out: here it
// would be a file or a pattern.
fn head_of_message(alloc: Global, message: &str) -> Result<String, AllocError> {
    let end = message.find("\n\nUsage:").unwrap_or(message.len());
    let end = message.find("\n\nFor more").unwrap_or(end).min(end);
    let end = message.find("\n\n  tip: to pass").unwrap_or(end).min(end);
    let mut text = String::new(alloc);
    for line in message.get(..end).unwrap_or(message).lines() {
        push_shown(&mut text, line.as_bytes())?;
        text.push('\n')?;
    }
    Ok(text)
}

// What the matches of a verb ask for.
fn call_of<'w>(alloc: Global, verb: Verb, matches: &ArgMatches<'w>) -> Result<Call<'w>, NoCall>
    ensures span { IfOk result (λ call. IsInRange call.span) }
    ensures from { IfOk result (λ call. IsNamedWhen call.from) }
    ensures told { IfOk result (λ call. TellsRuns call.verb call.span) }
    ensures previous { IfOk result (λ call. AreInRange call.previous) }
{
    let from = when_of(alloc, FROM, matches.get_str("from").unwrap_or("now"))?;
    let span = span_of(alloc, verb, matches)?;
    let previous = previous_of(alloc, matches)?;
    let named = named_words(alloc, verb, matches)?;
    let plan = plan_asked(alloc, verb, matches)?;
    Ok(Call {
        verb,
        zone: zone(verb, matches, named.files.as_slice()),
        show_zone: matches.get_str("show-zone"),
        from,
        span,
        previous,
        tells_often: matches.get_flag("often"),
        parser: parser(matches),
        preset: preset(matches),
        language: language(matches),
        format: format_of(matches),
        width: named.width,
        color: color_asked(matches),
        is_strict: matches.get_flag("strict"),
        compares_jobs: matches.get_flag("same-job"),
        allowed: named.allowed,
        users: matches.get_str("users"),
        root: matches.get_str("root"),
        is_recursive: matches.get_flag("recursive"),
        files: named.files,
        patterns: named.patterns,
        plan,
        output: output(matches),
        title: title(matches),
    })
}

// The files and the patterns that the words name, the warnings that they allow, and the width of lines.
#[derive(Drop)]
struct NamedWords<'w> {
    files: Vec<Asked<'w>>,
    width: Option<usize>,
    allowed: Vec<&'w str>,
    patterns: Vec<&'w str>,
}

fn named_words<'w>(
    alloc: Global,
    verb: Verb,
    matches: &ArgMatches<'w>,
) -> Result<NamedWords<'w>, NoCall> {
    let files = files(alloc, verb, matches)?;
    let width = width(alloc, matches)?;
    let allowed = allowed_names(alloc, matches)?;
    let patterns = patterns(alloc, matches)?;
    if let Some(zone) = zone_among(patterns.as_slice()) {
        return Err(told_of_zone(alloc, zone));
    }
    Ok(NamedWords {
        files,
        width,
        allowed,
        patterns,
    })
}

// The names of warnings that are allowed.
fn allowed_names<'w>(alloc: Global, matches: &ArgMatches<'w>) -> Result<Vec<&'w str>, NoCall> {
    let mut names = Vec::new(alloc);
    if let Some(given) = matches.get_strs("allow") {
        for name in given {
            if !ALLOWABLE.contains(name) {
                return Err(told_of_name_not_allowed(alloc, name));
            }
        }
        names.extend_from_slice(given)?;
    }
    Ok(names)
}

// What is told of a name that no warning has which may be allowed.
fn told_of_name_not_allowed(alloc: Global, name: &str) -> NoCall {
    told_by_text(not_allowed_text(alloc, name))
}

fn not_allowed_text(alloc: Global, name: &str) -> Result<String, AllocError> {
    if NOT_ALLOWABLE.contains(&name) {
        return format!(in alloc;
            "error: --allow: {name} can't be allowed, since cron ignores the whole file or the line because of it: fix the file\n"
        );
    }
    let nearest = nearest_name(alloc, name.as_bytes())?;
    let mut text = String::from_str(alloc, "error: invalid value '")?;
    push_shown(&mut text, name.as_bytes())?;
    write!(
        &mut text,
        "' for '--allow <NAME,..>': no warning that may be allowed has this name; the nearest is {nearest}\n"
    )?;
    Ok(text)
}

// The patterns.
fn patterns<'w>(alloc: Global, matches: &ArgMatches<'w>) -> Result<Vec<&'w str>, AllocError> {
    let mut patterns = Vec::new(alloc);
    if let Some(given) = matches.get_strs("pattern") {
        patterns.extend_from_slice(given)?;
    }
    Ok(patterns)
}

// The first of some patterns that is the name of a zone.
fn zone_among<'w>(patterns: &[&'w str]) -> Option<&'w str> {
    patterns.iter().copied().find(|word| may_be_zone(word))
}

/// What is told of a word that is the name of a zone, and stands where a pattern or a file does.
pub fn told_of_zone(alloc: Global, zone: &str) -> NoCall {
    told_by_text(format!(in alloc;
        "error: '{zone}' is neither a pattern nor a file: for the zone of that name, write --zone {zone}\n"
    ))
}

// The files of a verb, if it has files.
fn files<'w>(
    alloc: Global,
    verb: Verb,
    matches: &ArgMatches<'w>,
) -> Result<Vec<Asked<'w>>, NoCall> {
    match verb {
        Verb::Check | Verb::Show | Verb::Plan => {
            named_files(alloc, matches, matches.get_strs("file").unwrap_or(&[]))
        }
        Verb::Next | Verb::Describe => Ok(Vec::new(alloc)),
    }
}

// The files of these words: standard input where there are none.
fn named_files<'w>(
    alloc: Global,
    matches: &ArgMatches<'w>,
    words: &[&'w str],
) -> Result<Vec<Asked<'w>>, NoCall> {
    let options = Places {
        user: places(matches, "user"),
        system: places(matches, "system"),
        patterns: places(matches, "patterns"),
    };
    if let Some(refusal) = told_of_misplaced_option(alloc, matches, options, words) {
        return Err(refusal);
    }
    let stdin_name = matches.get_str("stdin-name").unwrap_or(STANDARD_INPUT);
    let mut files = asked_files(alloc, options, stdin_name, words, places(matches, "file"))?;
    if words.is_empty() && matches.get_str("root").is_none() {
        files.reserve(1)?;
        files.push_reserved(asked_file_at(options, stdin_name, AFTER_ALL, STANDARD_INPUT));
    }
    Ok(files)
}

// Where the uses or the values of an argument stand among the words, from 1.
fn places<'m>(matches: &'m ArgMatches<'_>, id: &str) -> &'m [usize] {
    matches.indices_of(id).unwrap_or(&[])
}

// What is told of an option that would concern no file, if files are named.
fn told_of_misplaced_option(
    alloc: Global,
    matches: &ArgMatches<'_>,
    options: Places<'_>,
    words: &[&str],
) -> Option<NoCall> {
    if let Some(_) = matches.get_str("root") {
        return told_beside_root(alloc, matches, options, words);
    }
    if words.is_empty() {
        return None;
    }
    let last = last_place_before(AFTER_ALL, places(matches, "file"));
    if last < last_place_before(AFTER_ALL, options.user) {
        return Some(told_of_option_after_files(alloc, "--user"));
    }
    if last < last_place_before(AFTER_ALL, options.system) {
        return Some(told_of_option_after_files(alloc, "--system"));
    }
    if last < last_place_before(AFTER_ALL, options.patterns) {
        return Some(told_of_option_after_files(alloc, "--patterns"));
    }
    let has_name = matches.get_str("stdin-name").is_some();
    if has_name && !words.contains(&STANDARD_INPUT) {
        return Some(told_by_text(String::from_str(alloc, NAMES_NOTHING)));
    }
    None
}

// What is told of a file, or of an option that is of files, beside the folder of a machine.
fn told_beside_root(
    alloc: Global,
    matches: &ArgMatches<'_>,
    options: Places<'_>,
    words: &[&str],
) -> Option<NoCall> {
    let has_kind = !(options.user.is_empty()
        && options.system.is_empty()
        && options.patterns.is_empty());
    let has_name = matches.get_str("stdin-name").is_some() || matches.get_str("users").is_some();
    if words.is_empty() && !has_kind && !has_name {
        return None;
    }
    Some(told_by_text(String::from_str(alloc, BESIDE_ROOT)))
}

// What is told of an option that stands after all files.
fn told_of_option_after_files(alloc: Global, option: &str) -> NoCall {
    told_by_text(format!(in alloc;
        "error: {option} holds for the files after it, and none follows: write it in front of the files\n"
    ))
}

fn told_by_text(text: Result<String, AllocError>) -> NoCall {
    match text {
        Ok(text) => NoCall::Misused(text),
        Err(_) => NoCall::OutOfMemory,
    }
}

// Up to where the runs are listed that a verb tells or looks at.
fn span_of(alloc: Global, verb: Verb, matches: &ArgMatches<'_>) -> Result<Span, NoCall>
    ensures range { IfOk result IsInRange }
    ensures told { IfOk result (TellsRuns verb) }
{
    match verb {
        Verb::Check => Ok(Span::Count(CHECKED_RUNS)),
        Verb::Describe => Ok(Span::Count(0)),
        Verb::Show | Verb::Plan | Verb::Next => read_span(alloc, matches),
    }
}

// Up to where runs are listed.
fn read_span(alloc: Global, matches: &ArgMatches<'_>) -> Result<Span, NoCall>
    ensures { IfOk result IsInRange }
{
    match matches.get_str("until") {
        Some(word) => {
            let until = when_of(alloc, UNTIL, word)?;
            Ok(Span::Until(until))
        }
        None => read_count(alloc, matches.get_str("runs").unwrap_or("3")),
    }
}

// A count of runs.
fn read_count(alloc: Global, word: &str) -> Result<Span, NoCall>
    ensures { IfOk result IsInRange }
{
    match word.parse::<u32>() {
        Ok(count) if count <= MOST_RUNS => Ok(Span::Count(count)),
        _ => Err(told_of_misuse(alloc, "--runs <N>", word, "write a number from 0 to 1000")),
    }
}

// How many runs before the start are told, if a word says that.
fn previous_of(alloc: Global, matches: &ArgMatches<'_>) -> Result<Option<u32>, NoCall>
    ensures { IfOk result AreInRange }
{
    match matches.get_str("previous") {
        Some(word) => match word.parse::<u32>() {
            Ok(count) if 1 <= count && count <= MOST_RUNS => Ok(Some(count)),
            _ => Err(told_of_misuse(
                alloc,
                "--previous <N>",
                word,
                "write a number from 1 to 1000",
            )),
        },
        None => Ok(None),
    }
}

// What is told of the word of an option that doesn't have the option's form.
fn told_of_misuse(alloc: Global, option: &str, word: &str, form: &str) -> NoCall {
    told_by_text(misuse(alloc, option, word, form))
}

fn misuse(alloc: Global, option: &str, word: &str, form: &str) -> Result<String, AllocError> {
    let mut text = String::from_str(alloc, "error: invalid value '")?;
    push_shown(&mut text, word.as_bytes())?;
    write!(&mut text, "' for '{option}': {form}\n")?;
    Ok(text)
}

fn format_of(matches: &ArgMatches<'_>) -> Format {
    if matches.get_flag("json") {
        return Format::Json;
    }
    match matches.get_str("format") {
        Some("gcc") => Format::Gcc,
        Some("github") => Format::Github,
        Some("sarif") => Format::Sarif,
        Some("json") => Format::Json,
        _ => Format::Text,
    }
}

// How wide lines are, if a word says that.
fn width(alloc: Global, matches: &ArgMatches<'_>) -> Result<Option<usize>, NoCall> {
    match matches.get_str("width") {
        Some(word) => match word.parse::<usize>() {
            Ok(width) if LEAST_WIDTH <= width && width <= MOST_WIDTH => Ok(Some(width)),
            _ => Err(told_of_misuse(alloc, "--width <N>", word, "write a number from 20 to 1000")),
        },
        None => Ok(None),
    }
}

fn color_asked(matches: &ArgMatches<'_>) -> Color {
    match matches.get_str("color") {
        Some("always") => Color::Always,
        Some("never") => Color::Never,
        _ => Color::Auto,
    }
}

fn language(matches: &ArgMatches<'_>) -> Tongue {
    match matches.get_str("language") {
        Some("sv") => Tongue::Swedish,
        _ => Tongue::English,
    }
}

// The zone that is given; else that of what is asked.
fn zone<'w>(verb: Verb, matches: &ArgMatches<'w>, files: &[Asked<'w>]) -> &'w str {
    match matches.get_str("zone") {
        Some(word) => word,
        None if is_of_utc(verb, is_for_github(matches), are_all_patterns(files)) => UTC,
        None => LOCAL,
    }
}

fn is_for_github(matches: &ArgMatches<'_>) -> bool {
    matches.get_str("for") == Some("github")
}

// Whether what is asked is of UTC: no description depends on a clock, and GitHub runs its patterns by that one. A crontab that is read
// beside them is of the machine's zone.
fn is_of_utc(verb: Verb, is_for_github: bool, are_all_patterns: bool) -> bool
    ensures { result ≡ is_of_utc verb is_for_github are_all_patterns }
{
    match verb {
        Verb::Describe => true,
        Verb::Next => is_for_github,
        Verb::Check | Verb::Show => is_for_github && are_all_patterns,
        Verb::Plan => false,
    }
}

// Whether all of some files are of patterns.
fn are_all_patterns(files: &[Asked<'_>]) -> bool
    ensures { result ≡ list_all (λ file. are_patterns (dialect_of (asked_seen file))) files.now }
{
    files.iter().all(|file| file.dialect().are_patterns())
}

// The preset that is asked for by its name.
fn preset(matches: &ArgMatches<'_>) -> Option<Preset> {
    Preset::of_name(matches.get_str("for")?)
}

fn parser(matches: &ArgMatches<'_>) -> CronParser {
    if let Some(preset) = preset(matches) {
        return preset.parser();
    }
    CronParser::builder()
        .alternative_weekdays(matches.get_flag("alternative-weekdays"))
        .dom_and_dow(matches.get_flag("dom-and-dow"))
        .sloppy_ranges(matches.get_flag("sloppy-ranges"))
        .seconds(seconds(matches.get_str("seconds")))
        .year(year(matches.get_str("year")))
        .build()
}

fn seconds(word: Option<&str>) -> Seconds {
    match word {
        Some("required") => Seconds::Required,
        Some("disallowed") => Seconds::Disallowed,
        _ => Seconds::Optional,
    }
}

fn year(word: Option<&str>) -> Year {
    match word {
        Some("required") => Year::Required,
        Some("disallowed") => Year::Disallowed,
        _ => Year::Optional,
    }
}
