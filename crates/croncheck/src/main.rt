//! `croncheck`: what each line of a crontab is to cron, what it means, and when it runs.
#![tactic(auto)]

mod begin;
mod below;
mod counted;
mod crons;
mod dates;
mod lines;
mod machine;
mod meant;
mod planning;
mod regular;
mod replaced;
mod saved;
mod sorted;
mod telling;
mod zone_names;
mod zones;

use begin::{last_second, moment_of};
use croncheck_changes::changes::Changes;
use croncheck_command::problem::Problem;
use croncheck_command::words::{
    Call, Color, LEAST_WIDTH, LOCAL, MOST_WIDTH, NoCall, Span, USAGE, Verb, When, read_call,
};
use croncheck_files::root::{Root, root_at};
use croncheck_moments::moment::{
    Moment, date_at, last_of_month, last_of_week, plan_from, second_of, start_from,
};
use croncheck_moments::zone::note_of;
use croncheck_output::escaped::shown_text;
use croncheck_output::look::Look;
use croncheck_reading::progress::TermsByKind;
use croncheck_report::settings::{Settings, SettingsByKind};
use croncheck_report::shared::Shared;
use croncheck_runs::clock::{Clock, NoClock};
use croncheck_runs::past::PastClock;
use croncheck_runs::previous::Previous;
use croncheck_runs::runs::Listing;
use croncheck_warnings::users::Users;
use crontab::line::Dialect;
use dates::{MOST_DATES, latest_date};
use jiff::Timestamp;
use jiff::tz::TimeZone;
use machine::{Machine, announce, announce_missing};
use meant::{Meant, has_no_file, meant_by, told_beside_line};
use regular::bytes_of;
use sorted::Sorted;
use std::alloc::AllocError;
use std::io::{ErrorKind, IsTerminal};
use std::process::ExitCode;
use std::{env, fs, io};
use telling::{sorted_on, tell_sorted};
use zone_names::name_beside_count;
use zones::ZoneSource;

const MISUSED: u8 = 2;

/// The command that shows lines.
const SHOW: &str = "show";

/// The folder in which this machine's files stand.
const THIS_MACHINE: &str = "/";

/// What is said of the file of a machine's users where it is no file.
const NO_USERS: &str = "a pipe, a socket or a device, and not read";

/// How wide lines are on a terminal of which nothing is said.
const USUAL_WIDTH: usize = 80;

fn main(rt: HostRuntime) -> ExitCode {
    let status = match words(&rt) {
        Ok(words) => status_of_words(&rt, words),
        Err(error) if error.kind() == ErrorKind::InvalidData => tell_misuse(
            &rt,
            "error: a word of the call is not UTF-8\n",
        ),
        Err(error) => tell_problem(&rt, &Problem::Words(error)),
    };
    ExitCode::from(status)
}

fn words(rt: &HostRuntime) -> io::Result<Vec<String>> {
    let mut words = Vec::new(rt.alloc());
    for word in env::args(rt)? {
        words.push(word)?;
    }
    Ok(words)
}

// The status of a call with these words, which are read as they are meant.
fn status_of_words(rt: &HostRuntime, mut words: Vec<String>) -> u8 {
    match meant_by(rt, words.as_slice()) {
        Ok(Meant::AsWritten) => status(rt, words.as_slice()),
        Ok(Meant::Shown) => match put_verb(rt, &mut words) {
            Ok(()) => status(rt, words.as_slice()),
            Err(_) => tell_problem(rt, &Problem::OutOfMemory),
        },
        Ok(Meant::Misused(text)) => tell_misuse(rt, text.as_str()),
        Err(_) => tell_problem(rt, &Problem::OutOfMemory),
    }
}

// Puts the command that shows lines in front of words without one.
fn put_verb(rt: &HostRuntime, words: &mut Vec<String>) -> Result<(), AllocError> {
    let verb = String::from_str(rt.alloc(), SHOW)?;
    words.insert(words.len().min(1), verb)?;
    Ok(())
}

fn tell_misuse(rt: &HostRuntime, text: &str) -> u8 {
    let _ = eprint!(rt; "{text}{USAGE}\n");
    MISUSED
}

// Nothing is said where the reader of the output has left, as head(1) does.
fn tell_problem(rt: &HostRuntime, problem: &Problem) -> u8 {
    if !is_of_left_reader(problem) {
        let _ = eprintln!(rt; "croncheck: {problem}");
    }
    problem.status()
}

fn is_of_left_reader(problem: &Problem) -> bool {
    match problem {
        Problem::Unwritten(error) => error.kind() == ErrorKind::BrokenPipe,
        _ => false,
    }
}

fn status(rt: &HostRuntime, words: &[String]) -> u8 {
    match read_call(rt.alloc(), words) {
        Ok(call) => status_of_call(rt, &call),
        Err(refusal) => tell_no_call(rt, refusal),
    }
}

fn status_of_call(rt: &HostRuntime, call: &Call<'_>) -> u8 {
    if let Some(refusal) = told_beside_line(rt, call.files.as_slice()) {
        return tell_no_call(rt, refusal);
    }
    match check_in_zone(rt, call) {
        Ok(status) => status,
        Err(problem) => tell_problem(rt, &problem),
    }
}

// Tells why there is nothing to check.
fn tell_no_call(rt: &HostRuntime, refusal: NoCall) -> u8 {
    match refusal {
        NoCall::Asked(text) => match print!(rt; "{text}") {
            Ok(()) => 0,
            Err(error) => tell_problem(rt, &Problem::Unwritten(error)),
        },
        NoCall::Misused(text) => tell_misuse(rt, text.as_str()),
        NoCall::OutOfMemory => tell_problem(rt, &Problem::OutOfMemory),
    }
}

// Checks in the zone that the words name. Where none of the files is there, none is read.
fn check_in_zone(rt: &HostRuntime, call: &Call<'_>) -> Result<u8, Problem> {
    if has_no_file(rt, call.files.as_slice()) {
        return check_in(rt, call, TimeZone::UTC, None);
    }
    let source = source_of_zone(rt, call)?;
    let zone = source.zone(rt, "--zone", call.zone)?;
    note_zone(rt, call.zone, &zone)?;
    check(rt, call, zone)
}

// What has to be read for the zone of a call.
fn source_of_zone(rt: &HostRuntime, call: &Call<'_>) -> Result<ZoneSource, Problem> {
    if call.zone == LOCAL && call.root.is_some() {
        let root = root_of(rt, call.root)?;
        ZoneSource::of_machine(rt, root.clock.as_str())
    } else {
        ZoneSource::of_word(rt, call.zone)
    }
}

// Says of a rule which way it is off UTC, where that is easily taken for the other.
fn note_zone(rt: &HostRuntime, word: &str, zone: &TimeZone<'_>) -> Result<(), Problem> {
    match note_of(rt.alloc(), word, zone) {
        Ok(Some(note)) => {
            let _ = eprintln!(rt; "croncheck: {note}");
            Ok(())
        }
        Ok(None) => Ok(()),
        Err(_) => Err(Problem::OutOfMemory),
    }
}

// The files of the machine that is checked, whose folder has to be one, and else those of this machine.
fn root_of(rt: &HostRuntime, root: Option<&str>) -> Result<Root, Problem> {
    let folder = match root {
        Some(folder) => {
            if let Err(error) = fs::read_dir(rt, folder) {
                return Err(problem_of_no_root(rt, folder, &error));
            }
            folder
        }
        None => THIS_MACHINE,
    };
    match root_at(rt.alloc(), folder) {
        Ok(root) => Ok(root),
        Err(_) => Err(Problem::OutOfMemory),
    }
}

// What is wrong with the folder of a machine that can't be read.
fn problem_of_no_root(rt: &HostRuntime, folder: &str, error: &io::Error) -> Problem {
    match no_root_text(rt, folder, error) {
        Ok(text) => Problem::NoRoot(text),
        Err(_) => Problem::OutOfMemory,
    }
}

fn no_root_text(rt: &HostRuntime, folder: &str, error: &io::Error) -> Result<String, AllocError> {
    let folder = shown_text(rt.alloc(), folder.as_bytes())?;
    format!(in rt.alloc(); "the folder of --root, {folder}: {error}")
}

// Checks with the clock of the zone that is to be shown too, if there is one.
fn check(rt: &HostRuntime, call: &Call<'_>, zone: TimeZone<'_>) -> Result<u8, Problem> {
    let Some(word) = call.show_zone else {
        return check_in(rt, call, zone, None);
    };
    let source = ZoneSource::of_word(rt, word)?;
    let other = source.zone(rt, "--show-zone", word)?;
    check_in(rt, call, zone, Some(other))
}

fn is_now(when: When) -> bool {
    match when {
        When::Moment(Moment::Now) => true,
        When::Moment(Moment::Second(_) | Moment::Civil(_) | Moment::Date(_))
        | When::Tomorrow
        | When::Clock { .. }
        | When::Later(_) => false,
    }
}

// The zone of the call, and the one that is shown beside it, if any.
#[derive(Clone, Copy)]
struct ShownZones<'z> {
    zone: TimeZone<'z>,
    other: Option<TimeZone<'z>>,
}

// The second of the moment from which runs are listed, the one after which they are looked at, and how many or up to when.
#[derive(Clone, Copy)]
struct Start {
    first: i64,
    second: i64,
    listing: Listing,
}

fn check_in<'z>(
    rt: &HostRuntime,
    call: &Call<'_>,
    zone: TimeZone<'z>,
    other: Option<TimeZone<'z>>,
) -> Result<u8, Problem> {
    let start = start_of(rt, call, &zone)?;
    if let Some(latest) = latest_date(&call.plan, &zone, start.first, start.listing) {
        let _ = eprintln!(rt;
            "croncheck: --week, --month and --html show at most {MOST_DATES} dates. Write --until {latest}"
        );
        return Ok(MISUSED);
    }
    check_from(rt, call, ShownZones { zone, other }, start)
}

// Where the call begins and ends.
fn start_of(rt: &HostRuntime, call: &Call<'_>, zone: &TimeZone<'_>) -> Result<Start, Problem> {
    let now = Timestamp::now(rt).map_err(Problem::Now)?.as_second();
    let Some(from) = from_of(call, zone, now) else {
        return Err(Problem::SkippedFrom);
    };
    let Some(first) = second_of(from, zone, now) else {
        return Err(Problem::SkippedFrom);
    };
    let listing = listing_from(call, zone, now, first)?;
    Ok(Start {
        first,
        second: start_of_runs(call.verb, from, first),
        listing,
    })
}

// What is listed from a second on.
fn listing_from(
    call: &Call<'_>,
    zone: &TimeZone<'_>,
    now: i64,
    first: i64,
) -> Result<Listing, Problem> {
    match call.span {
        Span::Count(count) => Ok(listing_of(call, count, zone, first)),
        Span::Until(when) => match last_second(when, zone, now, first) {
            Some(last) if last < first => Err(Problem::UntilBeforeFrom),
            Some(last) => Ok(Listing::Until(last)),
            None => Err(Problem::SkippedUntil),
        },
    }
}

// The second after which runs are looked at from a moment on, given the moment's own second.
fn start_of_runs(verb: Verb, from: Moment, first: i64) -> i64 {
    match verb {
        Verb::Plan => plan_from(from, first),
        Verb::Check | Verb::Show | Verb::Next | Verb::Describe => start_from(from, first),
    }
}

// Checks with the clock of the zone, and its changes, from a start on.
fn check_from(
    rt: &HostRuntime,
    call: &Call<'_>,
    zones: ShownZones<'_>,
    start: Start,
) -> Result<u8, Problem> {
    let clock = Clock::of(rt.alloc(), &zones.zone, start.second).map_err(Problem::Clock)?;
    match Changes::of(rt.alloc(), &clock, start.second) {
        Ok(changes) => check_with_past(rt, call, zones, start, &changes),
        Err(_) => Err(Problem::OutOfMemory),
    }
}

// Checks with the clock of the runs before the start too, where the call asks for them.
fn check_with_past(
    rt: &HostRuntime,
    call: &Call<'_>,
    zones: ShownZones<'_>,
    start: Start,
    changes: &Changes<'_>,
) -> Result<u8, Problem> {
    let past = past_of(rt, call, &zones.zone, start.second)?;
    let previous = previous_in(call, &past);
    let clocks = Clocks {
        zones,
        listing: start.listing,
        changes,
        previous: previous.as_ref(),
    };
    check_on_machine(rt, call, clocks)
}

// What is known of the clocks of a call, and how many runs are listed or up to when.
#[derive(Clone, Copy)]
struct Clocks<'t> {
    zones: ShownZones<'t>,
    listing: Listing,
    changes: &'t Changes<'t>,
    previous: Option<&'t Previous<'t>>,
}

// Checks with the files of the machine, and its users.
fn check_on_machine(rt: &HostRuntime, call: &Call<'_>, clocks: Clocks<'_>) -> Result<u8, Problem> {
    let root = root_of(rt, call.root)?;
    let users = users_text(rt, call, &root).map_err(Problem::Users)?;
    let machine = Machine::new(rt, &root, call, known_users(&users));
    check_sorted(rt, call, clocks, &machine)
}

// Checks what the call names.
fn check_sorted(
    rt: &HostRuntime,
    call: &Call<'_>,
    clocks: Clocks<'_>,
    machine: &Machine<'_>,
) -> Result<u8, Problem> {
    let sorted = sorted_on(rt, call, machine)?;
    let Ok(name) = name_beside_count(rt, call, machine, &sorted, &clocks.zones.zone) else {
        return Err(Problem::OutOfMemory);
    };
    check_by_settings(rt, call, clocks, shown_name(&name), machine, &sorted)
}

fn shown_name(name: &Option<String>) -> Option<&str> {
    match name {
        Some(name) => Some(name.as_str()),
        None => None,
    }
}

// Checks by the settings that the call asks for. The last line counts the files if the zone has a name for that.
fn check_by_settings<'z>(
    rt: &HostRuntime,
    call: &Call<'_>,
    clocks: Clocks<'z>,
    name: Option<&'z str>,
    machine: &Machine<'_>,
    sorted: &Sorted<'_>,
) -> Result<u8, Problem> {
    let settings = settings_of(call, clocks, look_of(rt, call), machine.users());
    let shared = shared_by(clocks.zones, name, settings.of(Dialect::User));
    let kinds = TermsByKind::new(rt.alloc(), &settings, &shared);
    tell_sorted(rt, call, &kinds, machine, sorted)
}

// What all reports share, whose clocks are those of the zones. The name is that of the zone in the last line.
fn shared_by<'z>(
    zones: ShownZones<'z>,
    name: Option<&'z str>,
    settings: &Settings<'_>,
) -> Shared<'z> {
    let shared = shared_of(zones, settings);
    match name {
        Some(name) => shared.with_zone_name(name),
        None => shared,
    }
}

// The same without a name.
fn shared_of<'z>(zones: ShownZones<'z>, settings: &Settings<'_>) -> Shared<'z> {
    let shared = Shared::of(zones.zone, settings);
    match zones.other {
        Some(other) => shared.with_other_zone(other),
        None => shared,
    }
}

// Where runs are listed from, if the clock shows that. If no word says it and the grid of a month is asked for, that is the beginning of the month.
fn from_of(call: &Call<'_>, zone: &TimeZone<'_>, now: i64) -> Option<Moment> {
    if !call.plan.questions.month || !is_now(call.from) || is_until(call.span) {
        return moment_of(call.from, zone, now);
    }
    match date_at(zone, now) {
        Some(date) => Some(Moment::Date(date.first_of_month())),
        None => Some(Moment::Now),
    }
}

fn is_until(span: Span) -> bool {
    match span {
        Span::Until(_) => true,
        Span::Count(_) => false,
    }
}

// What is listed if the words don't say it: a number of runs; or if a plan is asked something, all up to the end of the month for the grid
// of a month, and else seven days of the zone's clock, the rest of today among them.
fn listing_of(call: &Call<'_>, count: u32, zone: &TimeZone<'_>, first: i64) -> Listing {
    if call.plan.questions.is_none() && call.plan.file.is_none() {
        return Listing::Count(count);
    }
    let last = if call.plan.questions.month {
        last_of_month(zone, first)
    } else {
        last_of_week(zone, first)
    };
    match last {
        Some(last) => Listing::Until(last),
        None => Listing::Count(count),
    }
}

// The clock of the runs before the start, where the call asks for them.
fn past_of(
    rt: &HostRuntime,
    call: &Call<'_>,
    zone: &TimeZone<'_>,
    start: i64,
) -> Result<Option<PastClock>, Problem> {
    if call.previous.is_none() {
        return Ok(None);
    }
    match PastClock::of(rt.alloc(), zone, start) {
        Ok(Some(past)) => Ok(Some(past)),
        Ok(None) => Err(Problem::Clock(NoClock::Outside)),
        Err(_) => Err(Problem::OutOfMemory),
    }
}

// What is asked of these runs.
fn previous_in<'p>(call: &Call<'_>, past: &'p Option<PastClock>) -> Option<Previous<'p>> {
    match (call.previous, past) {
        (Some(count), Some(past)) => past.previous(count),
        _ => None,
    }
}

// What reports are made by.
fn settings_of<'t>(
    call: &'t Call<'t>,
    clocks: Clocks<'t>,
    look: Look,
    users: Option<Users<'t>>,
) -> SettingsByKind<'t> {
    SettingsByKind::new(Settings {
        dialect: Dialect::User,
        parser: call.parser,
        preset: call.preset,
        language: call.language,
        changes: clocks.changes,
        listing: clocks.listing,
        is_from_now: is_now(call.from),
        previous: clocks.previous,
        tells_often: call.tells_often,
        is_strict: call.is_strict,
        compares_jobs: call.compares_jobs,
        look,
        allowed: call.allowed.as_slice(),
        users,
    })
}

// How texts are shown on standard output.
fn look_of(rt: &HostRuntime, call: &Call<'_>) -> Look {
    let is_terminal = rt.stdout().is_terminal();
    let width = if is_terminal {
        Some(call.width.unwrap_or(terminal_width(rt)))
    } else {
        None
    };
    let has_color = match call.color {
        Color::Auto => is_terminal && !has_no_color(rt),
        Color::Always => true,
        Color::Never => false,
    };
    Look { width, has_color }
}

// How wide the lines of a terminal are, as the environment says.
fn terminal_width(rt: &HostRuntime) -> usize {
    match env::var(rt, "COLUMNS") {
        Ok(word) => word
            .as_str()
            .parse::<usize>()
            .unwrap_or(USUAL_WIDTH)
            .max(LEAST_WIDTH)
            .min(MOST_WIDTH),
        Err(_) => USUAL_WIDTH,
    }
}

// Whether the environment asks for no colours.
fn has_no_color(rt: &HostRuntime) -> bool {
    match env::var(rt, "NO_COLOR") {
        Ok(word) => !word.is_empty(),
        Err(_) => false,
    }
}

// The text of the file of the users, if one is named, or the machine has one that is checked.
fn users_text(rt: &HostRuntime, call: &Call<'_>, root: &Root) -> io::Result<Option<Vec<u8>>> {
    match (call.users, call.root) {
        (Some(name), _) => Ok(Some(fs::read(rt, name)?)),
        (None, Some(_)) => text_if_there(rt, root.users.as_str()),
        (None, None) => Ok(None),
    }
}

// The text of the file of a machine's users, if it is there and is one.
fn text_if_there(rt: &HostRuntime, path: &str) -> io::Result<Option<Vec<u8>>> {
    match bytes_of(rt, path) {
        Ok(Some(text)) => Ok(Some(text)),
        Ok(None) => {
            announce(rt, path, NO_USERS)?;
            Ok(None)
        }
        Err(error) if error.kind() == ErrorKind::NotFound => {
            announce_missing(rt, path)?;
            Ok(None)
        }
        Err(error) => Err(error),
    }
}

// The users of a text, if there is one.
fn known_users(text: &Option<Vec<u8>>) -> Option<Users<'_>> {
    match text {
        Some(text) => Some(Users {
            text: text.as_slice(),
        }),
        None => None,
    }
}
