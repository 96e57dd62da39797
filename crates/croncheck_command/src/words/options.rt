//! The verbs of a call and their options, as they are read and shown by `--help`.

use super::planning::with_planning;
use super::{VERSION, Verb};
use clap::{Arg, ArgAction, Command};
use std::alloc::{AllocError, Global};

const NAME: &str = "croncheck";

const ABOUT: &str =
    "Check crontabs as Debian's cron reads them, and show when their jobs and patterns run";

/// What stands below the options, in the short help and in the long one.
const AFTER_CHECK: &str = "Examples:
  croncheck /etc/crontab /etc/cron.d
  croncheck '*/5 * * * *'
  croncheck next '0 9 * * MON-FRI' --zone Europe/Paris";

const AFTER_CHECK_LONG: &str =
    "Without a command, check is meant. A command comes before its options. Write a
FILE that has the name of a command with its folder, such as ./show.

DATETIME is YYYY-MM-DDTHH:MM:SS on the zone's clock, and DATE is YYYY-MM-DD.
SECONDS are counted from 1970-01-01T00:00:00 UTC. You may also write
YYYY-MM-DDTHH:MM, YYYY-MM-DDTHH:MM:SSZ, HH:MM for the next such time, tomorrow,
and +7d for 7 days later.

Examples:
  croncheck /etc/crontab /etc/cron.d
  croncheck '*/5 * * * *'
  croncheck next '0 9 * * MON-FRI' --zone Europe/Paris

Status:
  0  every job was read
  1  a line is refused, or cron ignores a whole file; with --strict also where
     a line has a warning
  2  wrong usage
  3  a file, the zone or the output failed, or no file was read";

const AFTER_SHOW: &str = "Examples:
  croncheck show /etc/crontab --zone Europe/Paris --runs 5
  croncheck show '0 0 */2 * MON' --until +30d

croncheck --help lists the forms of DATETIME, and the status.";

const AFTER_PLAN: &str = "Examples:
  croncheck plan /etc/crontab /etc/cron.d --week --quiet 8h
  croncheck plan --root / --html --output plan.html

croncheck --help lists the forms of DATETIME, and the status.";

const AFTER_NEXT: &str = "Example:
  croncheck next '30 9 * * MON-FRI' --zone Europe/Paris --runs 5";

const AFTER_NEXT_LONG: &str =
    "A PATTERN is one word of the shell: quote it. It has five to seven fields:
seconds if there are six or seven, minutes, hours, days of the month, months,
weekdays, and years if there are seven.

Example:
  croncheck next '30 9 * * MON-FRI' --zone Europe/Paris --runs 5

Status:
  0  every pattern was read
  1  a pattern is refused, also by the program of --for
  2  wrong usage
  3  the zone or the output failed

croncheck --help lists the forms of DATETIME.";

const AFTER_DESCRIBE: &str =
    "A PATTERN is one word of the shell: quote it. It has five to seven fields:
seconds if there are six or seven, minutes, hours, days of the month, months,
weekdays, and years if there are seven.

Example:
  croncheck describe '30 9 * * MON-FRI'

Status:
  0  every pattern was read
  1  a pattern is refused, also by the program of --for
  2  wrong usage
  3  the output failed";

const ABOUT_CHECK: &str = "Check crontabs: show what cron refuses and what to beware of";

const ABOUT_SHOW: &str = "Explain each line of crontabs, and list its next runs";

const ABOUT_PLAN: &str = "List the starts of all jobs of all files, in order of time";

const ABOUT_NEXT: &str = "Explain patterns, and list their next runs";

const ABOUT_DESCRIBE: &str = "Explain patterns";

const PRESET_OF_PATTERNS: &str =
    "Read patterns as this program does, as far as there are settings for
it, and show what it still reads otherwise";

const PRESET_OF_FILES: &str = "With --patterns: read them as this program does, as far as there are
settings for it, and show what it still reads otherwise";

const RUNS_FROM: &str = "Show what runs after this second; a DATE includes its first second";

const PLAN_FROM: &str = "Plan what starts at this second or later; now and @SECONDS leave
their own second out";

/// The verb of a name, if it is one.
pub(super) fn verb_of(name: &str) -> Option<Verb> {
    match name {
        "check" => Some(Verb::Check),
        "show" => Some(Verb::Show),
        "plan" => Some(Verb::Plan),
        "next" => Some(Verb::Next),
        "describe" => Some(Verb::Describe),
        _ => None,
    }
}

/// The verbs that have this option, if not all verbs have it. `None` for any other word.
pub(super) fn verbs_with(option: &str) -> Option<&'static str> {
    match option {
        "--zone" | "--from" => Some("check, show, plan and next"),
        "--runs" | "--until" => Some("show, plan and next"),
        "--show-zone" => Some("show, plan and next"),
        "--previous" | "--often" => Some("show and next"),
        "--commands"
        | "--week"
        | "--quiet"
        | "--busy"
        | "--together"
        | "--month"
        | "--ics"
        | "--html"
        | "--output"
        | "--lasts"
        | "--title"
        | "--most-a-day" => Some("plan"),
        "--json" => Some("check, show, plan and next"),
        "--strict" | "--same-job" | "--allow" | "--ignore" => Some("check and show"),
        "--system"
        | "--user"
        | "--patterns"
        | "--stdin-name"
        | "--users"
        | "--root"
        | "--recursive" => Some("check, show and plan"),
        "--for" | "--language" => Some("check, show, next and describe"),
        _ => None,
    }
}

/// The option that does what an option of this name does in other programs, as it is written. `None` for any other word.
pub(super) fn option_meant_by(option: &str) -> Option<&'static str> {
    match option {
        "-z" | "--timezone" | "--time-zone" => Some("--zone NAME"),
        "-c" | "--count" | "--num" | "--number" | "--limit" => Some("--runs N, or -n N"),
        "--start" | "--after" | "--since" => Some("--from DATETIME"),
        "--end" | "--before" | "--to" => Some("--until DATETIME"),
        "--last" | "--prev" => Some("--previous N"),
        "-o" => Some("--output FILE"),
        _ => None,
    }
}

/// A verb that has such an option.
pub(super) fn verb_with(option: &str) -> &'static str {
    match option {
        "--commands"
        | "--week"
        | "--quiet"
        | "--busy"
        | "--together"
        | "--month"
        | "--ics"
        | "--html"
        | "--output"
        | "--lasts"
        | "--title"
        | "--most-a-day" => "plan",
        _ => "show",
    }
}

/// The program with its verbs. What stands without one is read as that of `check`.
pub(super) fn program<'w>(alloc: Global) -> Result<Command<'w>, AllocError> {
    let program = Command::new(alloc, NAME)
        .version(VERSION)
        .about(ABOUT)
        .after_help(AFTER_CHECK)
        .after_long_help(AFTER_CHECK_LONG)
        .args_conflicts_with_subcommands(true);
    let program = program.bin_name(NAME)?;
    let program = with_checking(alloc, program)?;
    let program = with_verb(program, check(alloc))?;
    let program = with_verb(program, show(alloc))?;
    let program = with_verb(program, plan(alloc))?;
    let program = with_verb(program, next(alloc))?;
    with_verb(program, describe(alloc))
}

// With one more verb. No other function lets a command go.
fn with_verb<'w>(
    program: Command<'w>,
    verb: Result<Command<'w>, AllocError>,
) -> Result<Command<'w>, AllocError> {
    match verb {
        Ok(verb) => program.subcommand(verb),
        Err(error) => Err(error),
    }
}

/// With one more argument. No other function lets a command go.
pub(super) fn add<'w>(
    command: Command<'w>,
    arg: Result<Arg<'w>, AllocError>,
) -> Result<Command<'w>, AllocError> {
    match arg {
        Ok(arg) => command.arg(arg),
        Err(error) => Err(error),
    }
}

// ---- the verbs

fn check<'w>(alloc: Global) -> Result<Command<'w>, AllocError> {
    let command = Command::new(alloc, "check")
        .about(ABOUT_CHECK)
        .after_help(AFTER_CHECK)
        .after_long_help(AFTER_CHECK_LONG);
    with_checking(alloc, command)
}

// With what `check` takes.
fn with_checking<'w>(alloc: Global, command: Command<'w>) -> Result<Command<'w>, AllocError> {
    let command = add(command, zone(alloc))?;
    let command = command.arg(from(alloc, RUNS_FROM).hide_short_help(true))?;
    let command = with_format(alloc, command)?;
    let command = with_output(
        alloc,
        command,
        "Write JSON, as --format json does: one object for each line with a\nfinding, and one for each file",
    )?;
    let command = with_kinds(alloc, command)?;
    let command = with_language(alloc, command)?;
    let command = add(command, setting(preset(alloc, PRESET_OF_FILES)?))?;
    let command = with_settings_of_files(alloc, command)?;
    let command = with_look(alloc, command)?;
    with_files(alloc, command)
}

// With the forms in which findings are told.
fn with_format<'w>(alloc: Global, command: Command<'w>) -> Result<Command<'w>, AllocError> {
    let format = value(alloc, "format", "FORM")
        .short('f')
        .value_parser(["text", "gcc", "github", "sarif", "json"].as_slice())
        .default_value("text")
        .help(
            "Write findings as texts, as a line each for compilers or GitHub\nworkflows, as one object of SARIF, or as JSON",
        )
        .conflicts_with("json");
    add(command, format)
}

fn show<'w>(alloc: Global) -> Result<Command<'w>, AllocError> {
    let command = Command::new(alloc, "show")
        .about(ABOUT_SHOW)
        .after_help(AFTER_SHOW);
    let command = with_clock(alloc, command, RUNS_FROM)?;
    let command = with_span(
        alloc,
        command,
        "Show this many runs of each line, 0 to 1000",
    )?;
    let command = with_previous(alloc, command)?;
    let command = with_often(alloc, command)?;
    let command = with_show_zone(alloc, command)?;
    let command = with_output(
        alloc,
        command,
        "Write a JSON object for each line, and one for each file",
    )?;
    let command = with_kinds(alloc, command)?;
    let command = with_language(alloc, command)?;
    let command = add(command, setting(preset(alloc, PRESET_OF_FILES)?))?;
    let command = with_settings_of_files(alloc, command)?;
    let command = with_look(alloc, command)?;
    with_files(alloc, command)
}

fn plan<'w>(alloc: Global) -> Result<Command<'w>, AllocError> {
    let command = Command::new(alloc, "plan")
        .about(ABOUT_PLAN)
        .after_help(AFTER_PLAN);
    let command = with_clock(alloc, command, PLAN_FROM)?;
    let command = with_span(
        alloc,
        command,
        "List this many seconds at which jobs start, 0 to 1000",
    )?;
    let command = with_show_zone(alloc, command)?;
    let command = with_planning(alloc, command)?;
    let command = with_kinds(alloc, command)?;
    let command = with_settings_of_files(alloc, command)?;
    let command = with_look(alloc, command)?;
    with_files(alloc, command)
}

fn next<'w>(alloc: Global) -> Result<Command<'w>, AllocError> {
    let command = Command::new(alloc, "next")
        .about(ABOUT_NEXT)
        .after_help(AFTER_NEXT)
        .after_long_help(AFTER_NEXT_LONG);
    let command = with_clock(alloc, command, RUNS_FROM)?;
    let command = with_span(
        alloc,
        command,
        "Show this many runs of each pattern, 0 to 1000",
    )?;
    let command = with_previous(alloc, command)?;
    let command = with_often(alloc, command)?;
    let command = with_show_zone(alloc, command)?;
    let command = command.arg(flag(alloc, "json").help(
        "Write a JSON object for each pattern, and one for its end",
    ))?;
    let command = with_language(alloc, command)?;
    let command = with_settings(alloc, command)?;
    let command = with_look(alloc, command)?;
    with_patterns(alloc, command)
}

fn describe<'w>(alloc: Global) -> Result<Command<'w>, AllocError> {
    let command = Command::new(alloc, "describe")
        .about(ABOUT_DESCRIBE)
        .after_help(AFTER_DESCRIBE);
    let command = with_language(alloc, command)?;
    let command = with_settings(alloc, command)?;
    let command = with_look(alloc, command)?;
    with_patterns(alloc, command)
}

// ---- their words

fn with_files<'w>(alloc: Global, command: Command<'w>) -> Result<Command<'w>, AllocError> {
    command.arg(
        Arg::new(alloc, "file")
            .value_name("FILE")
            .num_args(0..)
            .help(
                "Read these files, and the files of these folders. With no FILE, or for\n-, read standard input. A word with blanks that is no file is read as\na line of a crontab",
            ),
    )
}

fn with_patterns<'w>(alloc: Global, command: Command<'w>) -> Result<Command<'w>, AllocError> {
    command.arg(
        Arg::new(alloc, "pattern")
            .value_name("PATTERN")
            .num_args(1..)
            .required(true)
            .help("Explain these patterns"),
    )
}

// With the zone, and where runs begin.
fn with_clock<'w>(
    alloc: Global,
    command: Command<'w>,
    help: &'w str,
) -> Result<Command<'w>, AllocError> {
    let command = add(command, zone(alloc))?;
    command.arg(from(alloc, help))
}

fn from<'w>(alloc: Global, help: &'w str) -> Arg<'w> {
    value(alloc, "from", "DATETIME|DATE|@SECONDS|now")
        .default_value("now")
        .help(help)
}

fn zone<'w>(alloc: Global) -> Result<Arg<'w>, AllocError> {
    value(alloc, "zone", "NAME|RULE|local")
        .help(
            "Use this zone: a name such as Europe/Paris, a POSIX rule such as\nCET-1CEST,M3.5.0,M10.5.0/3, or local, the machine's own. Without it\nthe zone is local; with --for github it is UTC, unless crontabs are\nread too",
        )
        .alias("tz")
}

fn with_span<'w>(
    alloc: Global,
    command: Command<'w>,
    runs: &'w str,
) -> Result<Command<'w>, AllocError> {
    let command = command.arg(
        value(alloc, "runs", "N")
            .short('n')
            .default_value("3")
            .help(runs),
    )?;
    add(
        command,
        value(alloc, "until", "DATETIME|DATE|@SECONDS|now")
            .help("Show all runs up to this second, a DATE to its end, in place of --runs")
            .conflicts_with("runs"),
    )
}

fn with_previous<'w>(alloc: Global, command: Command<'w>) -> Result<Command<'w>, AllocError> {
    command.arg(value(alloc, "previous", "N").help(
        "Show this many runs up to the start too, the latest first, 1 to 1000",
    ))
}

fn with_often<'w>(alloc: Global, command: Command<'w>) -> Result<Command<'w>, AllocError> {
    command.arg(
        flag(alloc, "often").hide_short_help(true).help(
            "Show how often it starts, up to --until or else in 7 days",
        ),
    )
}

fn with_show_zone<'w>(alloc: Global, command: Command<'w>) -> Result<Command<'w>, AllocError> {
    command.arg(
        value(alloc, "show-zone", "NAME|RULE|local")
            .hide_short_help(true)
            .help("Show the time of this second zone beside each run"),
    )
}

fn with_output<'w>(
    alloc: Global,
    command: Command<'w>,
    json: &'w str,
) -> Result<Command<'w>, AllocError> {
    let command = command
        .arg(flag(alloc, "json").help(json))?
        .arg(flag(alloc, "strict").help(
            "End with status 1 for a warning too, as for a refused line",
        ))?
        .arg(
            flag(alloc, "same-job").hide_short_help(true).help(
                "Warn of a job that is the same as an earlier one. This takes memory in\nproportion to the jobs",
            ),
        )?;
    add(command, allow(alloc))
}

// The names of warnings that are allowed.
fn allow<'w>(alloc: Global) -> Result<Arg<'w>, AllocError> {
    Arg::new(alloc, "allow")
        .long("allow")
        .value_name("NAME,..")
        .action(ArgAction::Append)
        .value_delimiter(',')
        .help(
            "Leave out the warnings of these names. For one line only, write the\ncomment '# croncheck: allow NAME,..' above it",
        )
        .alias("ignore")
}

fn with_kinds<'w>(alloc: Global, command: Command<'w>) -> Result<Command<'w>, AllocError> {
    command
        .arg(kind(alloc, "system").help(
            "Read the files after it with a user before each command. Without an\noption, etc/crontab and the files of a folder cron.d are read so",
        ))?
        .arg(
            kind(alloc, "user").hide_short_help(true).help(
                "Read the files after it without a user before the commands, whatever\ntheir names",
            ),
        )?
        .arg(kind(alloc, "patterns").help(
            "Read the files after it with a pattern of five to seven fields in each\nline, and no command",
        ))?
        .arg(
            value(alloc, "stdin-name", "NAME")
                .hide_short_help(true)
                .help("Show standard input under this name, and read it as a file of this\nname"),
        )?
        .arg(
            value(alloc, "users", "FILE").hide_short_help(true).help(
                "Refuse a job of a user that is not in this file, as cron does; it is\nwritten as /etc/passwd is",
            ),
        )?
        .arg(flag(alloc, "recursive").help(
            "Enter folders: read their folders cron.d, and the files crontab,\ncrontab.*, *.cron and *.crontab. Skip .git and node_modules",
        ))?
        .arg(value(alloc, "root", "DIR").help(
            "Read the crontabs, the users and the zone of the machine whose files\nare below DIR, in place of files",
        ))
}

// An option that holds for the files after it, so that each use of it has its place.
fn kind<'w>(alloc: Global, id: &'w str) -> Arg<'w> {
    Arg::new(alloc, id)
        .long(id)
        .action(ArgAction::Append)
        .num_args(0..=0)
        .default_missing_value("true")
}

fn with_language<'w>(alloc: Global, command: Command<'w>) -> Result<Command<'w>, AllocError> {
    command.arg(
        value(alloc, "language", "LANGUAGE")
            .value_parser(["en", "sv"].as_slice())
            .default_value("en")
            .hide_short_help(true)
            .help("Describe schedules in this language"),
    )
}

// With how texts are shown.
fn with_look<'w>(alloc: Global, command: Command<'w>) -> Result<Command<'w>, AllocError> {
    command
        .arg(
            value(alloc, "width", "N").hide_short_help(true).help(
                "Fold lines on a terminal at this width, 20 to 1000. Without it COLUMNS\nsets the width, else it is 80",
            ),
        )?
        .arg(
            value(alloc, "color", "WHEN")
                .value_parser(["auto", "always", "never"].as_slice())
                .default_value("auto")
                .hide_short_help(true)
                .help("Use colours; auto uses them on a terminal, unless NO_COLOR is set"),
        )
}

// ---- the settings of the parser of patterns

// With the settings of patterns that are words of the call.
fn with_settings<'w>(alloc: Global, command: Command<'w>) -> Result<Command<'w>, AllocError> {
    let command = add(command, preset(alloc, PRESET_OF_PATTERNS))?;
    command
        .arg(
            flag(alloc, "alternative-weekdays")
                .hide_short_help(true)
                .help("Count weekdays as 1 to 7 from Sunday"),
        )?
        .arg(
            flag(alloc, "dom-and-dow")
                .hide_short_help(true)
                .help("Run only on days that match both day fields"),
        )?
        .arg(
            flag(alloc, "sloppy-ranges")
                .hide_short_help(true)
                .help("Accept a step after a number, such as 5/10"),
        )?
        .arg(use_of_field(
            alloc,
            "seconds",
            "Set whether a pattern begins with a field of seconds",
        ))?
        .arg(use_of_field(
            alloc,
            "year",
            "Set whether a pattern ends with a field of years",
        ))
}

// The program for which patterns are written; its settings stand in place of the others.
fn preset<'w>(alloc: Global, help: &'w str) -> Result<Arg<'w>, AllocError> {
    value(alloc, "for", "PROGRAM")
        .value_parser(["kubernetes", "github", "quartz", "spring"].as_slice())
        .help(help)
        .conflicts_with("alternative-weekdays")?
        .conflicts_with("dom-and-dow")?
        .conflicts_with("sloppy-ranges")?
        .conflicts_with("seconds")?
        .conflicts_with("year")
}

// With the same of files of patterns.
fn with_settings_of_files<'w>(
    alloc: Global,
    command: Command<'w>,
) -> Result<Command<'w>, AllocError> {
    let weekdays = flag(alloc, "alternative-weekdays").help(
        "With --patterns: count weekdays as 1 to 7 from Sunday",
    );
    let command = add(command, setting(weekdays))?;
    let days = flag(alloc, "dom-and-dow").help(
        "With --patterns: run only on days that match both day fields",
    );
    let command = add(command, setting(days))?;
    let ranges = flag(alloc, "sloppy-ranges").help(
        "With --patterns: accept a step after a number, such as 5/10",
    );
    let command = add(command, setting(ranges))?;
    let seconds = use_of_field(
        alloc,
        "seconds",
        "With --patterns: set whether one begins with a field of seconds",
    );
    let command = add(command, setting(seconds))?;
    let year = use_of_field(
        alloc,
        "year",
        "With --patterns: set whether one ends with a field of years",
    );
    add(command, setting(year))
}

/// An option with a value.
pub(super) fn value<'w>(alloc: Global, id: &'w str, name: &'w str) -> Arg<'w> {
    Arg::new(alloc, id)
        .long(id)
        .value_name(name)
        .action(ArgAction::Set)
}

/// An option without a value.
pub(super) fn flag<'w>(alloc: Global, id: &'w str) -> Arg<'w> {
    Arg::new(alloc, id).long(id).action(ArgAction::SetTrue)
}

// A setting of files of patterns, which the short help leaves out.
fn setting(arg: Arg<'_>) -> Result<Arg<'_>, AllocError> {
    arg.hide_short_help(true).requires_arg("patterns")
}

fn use_of_field<'w>(alloc: Global, id: &'w str, help: &'w str) -> Arg<'w> {
    value(alloc, id, "USE")
        .value_parser(["optional", "required", "disallowed"].as_slice())
        .default_value("optional")
        .hide_short_help(true)
        .help(help)
}
