//! What the words of a call ask of a plan, and the options for it.

use super::options::{add, flag, value};
use super::{NoCall, Verb, told_by_text, told_of_misuse};
use clap::{Arg, ArgMatches, Command};
use cronplan_forms::{FileAsked, PlanAsked, Questions, Signs};
use jiff_fmt::friendly::parse_unsigned_duration;
use std::alloc::{AllocError, Global};

/// The most starts that a job may have on a day for answers to be about it, if no word says it.
const MOST_A_DAY: u64 = 12;

/// The option for that.
const MOST_A_DAY_OPTION: &str = "--most-a-day <N|all>";

/// The headings of the options that ask for something in place of the list.
const ANSWERS: &str = "In place of the list";

const FILES: &str = "As a file in place of the list";

/// The word for jobs that start however often.
const ALL: &str = "all";

/// The most moments that are asked for.
const MOST_MOMENTS: usize = 1_000;

/// What is told where the name of a file is given, and no form.
const OUTPUT_OF_NOTHING: &str =
    "error: --output needs a form of the file: write --html, --ics or --json with it\n";

/// What is asked of a plan, with [`Verb::Plan`]; nothing with another verb. The signs of a picture are
/// digits.
pub(super) fn plan_asked(
    alloc: Global,
    verb: Verb,
    matches: &ArgMatches<'_>,
) -> Result<PlanAsked, NoCall> {
    let week = if matches.get_flag("week") {
        Some(Signs::Digits)
    } else {
        None
    };
    let questions = Questions {
        week,
        quiet: length(alloc, matches, "quiet", "--quiet <LENGTH>")?,
        busy: busy_count(alloc, matches)?,
        together: matches.get_flag("together"),
        month: matches.get_flag("month"),
    };
    let asked = PlanAsked {
        has_commands: matches.get_flag("commands"),
        questions,
        most_a_day: most_a_day(alloc, matches)?,
        file: file_asked(alloc, verb, matches)?,
    };
    match matches.get_str("most-a-day") {
        Some(word) if asked.questions.is_none() && asked.file.is_none() => {
            Err(told_of_misuse(
                alloc,
                MOST_A_DAY_OPTION,
                word,
                "a list has all starts: it goes with the other forms, as --week",
            ))
        }
        Some(_) | None => Ok(asked),
    }
}

// The file that is asked for: another verb has an option --json of its own.
fn file_asked(
    alloc: Global,
    verb: Verb,
    matches: &ArgMatches<'_>,
) -> Result<Option<FileAsked>, NoCall> {
    match verb {
        Verb::Plan => file_of_plan(alloc, matches),
        Verb::Check | Verb::Show | Verb::Next | Verb::Describe => Ok(None),
    }
}

fn file_of_plan(alloc: Global, matches: &ArgMatches<'_>) -> Result<Option<FileAsked>, NoCall> {
    if matches.get_flag("html") {
        return Ok(Some(FileAsked::Page));
    }
    if matches.get_flag("json") {
        return Ok(Some(FileAsked::Json));
    }
    if matches.get_flag("ics") {
        let lasts = length(alloc, matches, "lasts", "--lasts <LENGTH>")?;
        return Ok(Some(FileAsked::Calendar(lasts)));
    }
    no_file(alloc, matches)
}

// No file is asked for: then a word that is of a file is refused.
fn no_file(alloc: Global, matches: &ArgMatches<'_>) -> Result<Option<FileAsked>, NoCall> {
    match (output(matches), title(matches)) {
        (Some(_), _) => Err(told_by_text(String::from_str(alloc, OUTPUT_OF_NOTHING))),
        (None, Some(text)) => Err(told_of_misuse(
            alloc,
            "--title <TEXT>",
            text,
            "it goes with --html or --ics",
        )),
        (None, None) => Ok(None),
    }
}

/// The name of the file that a plan is written to, if one is given.
pub(super) fn output<'w>(matches: &ArgMatches<'w>) -> Option<&'w str> {
    matches.get_str("output")
}

/// What the page or the calendar of a plan is called, if a name is given.
pub(super) fn title<'w>(matches: &ArgMatches<'w>) -> Option<&'w str> {
    matches.get_str("title")
}

// The seconds of a length that the word of an option says.
fn length(
    alloc: Global,
    matches: &ArgMatches<'_>,
    id: &str,
    option: &str,
) -> Result<Option<u64>, NoCall> {
    match matches.get_str(id) {
        Some(word) => match parse_unsigned_duration(word.as_bytes()) {
            Ok(length) => Ok(Some(length.as_secs())),
            Err(_) => Err(told_of_misuse(
                alloc,
                option,
                word,
                "write a length as 45m, 8h or 1h 30m",
            )),
        },
        None => Ok(None),
    }
}

// How many of the fullest moments are asked for.
fn busy_count(alloc: Global, matches: &ArgMatches<'_>) -> Result<Option<usize>, NoCall> {
    match matches.get_str("busy") {
        Some(word) => match word.parse::<usize>() {
            Ok(count) if 1 <= count && count <= MOST_MOMENTS => Ok(Some(count)),
            _ => Err(told_of_misuse(alloc, "--busy <N>", word, "write a number from 1 to 1000")),
        },
        None => Ok(None),
    }
}

// The most starts that a job may have on a day for the answers to be about it.
fn most_a_day(alloc: Global, matches: &ArgMatches<'_>) -> Result<Option<u64>, NoCall> {
    match matches.get_str("most-a-day") {
        Some(ALL) => Ok(None),
        Some(word) => match word.parse::<u64>() {
            Ok(most) => Ok(Some(most)),
            Err(_) => Err(told_of_misuse(alloc, MOST_A_DAY_OPTION, word, "write a number, or all")),
        },
        None => Ok(Some(MOST_A_DAY)),
    }
}

/// With what `plan` takes beside the files and the clock.
pub(super) fn with_planning<'w>(
    alloc: Global,
    command: Command<'w>,
) -> Result<Command<'w>, AllocError> {
    let command = command.arg(
        flag(alloc, "commands").hide_short_help(true).help(
            "Show the beginning of each command after the title of its job.\nCommands may hold passwords",
        ),
    )?;
    with_questions(alloc, command)
}

// With what is asked in place of the list.
fn with_questions<'w>(alloc: Global, command: Command<'w>) -> Result<Command<'w>, AllocError> {
    let command = add(
        command,
        flag(alloc, "week")
            .help_heading(ANSWERS)
            .help(
                "Draw a picture, a row a day and a sign an hour, up to --until or else\nof seven days",
            )
            .conflicts_with("runs"),
    )?;
    let command = add(
        command,
        flag(alloc, "month")
            .help_heading(ANSWERS)
            .help(
                "Draw a calendar's grid of titles, up to --until or else to the end of\nthe month",
            )
            .conflicts_with("runs"),
    )?;
    let command = add(
        command,
        value(alloc, "quiet", "LENGTH")
            .help_heading(ANSWERS)
            .help("List when nothing starts for this long, such as 45m or 8h, the longest\nfirst")
            .conflicts_with("runs"),
    )?;
    let command = add(
        command,
        value(alloc, "busy", "N")
            .help_heading(ANSWERS)
            .hide_short_help(true)
            .help(
                "List the moments with most starts, 1 to 1000 of them, and the starts\nof each hour",
            )
            .conflicts_with("runs"),
    )?;
    let command = add(
        command,
        flag(alloc, "together")
            .help_heading(ANSWERS)
            .hide_short_help(true)
            .help("List which jobs start at the same moment, how often, and when first")
            .conflicts_with("runs"),
    )?;
    let command = with_files(alloc, command)?;
    command.arg(
        value(alloc, "most-a-day", "N|all")
            .help_heading(ANSWERS)
            .hide_short_help(true)
            .help(
                "Leave out jobs that start more often on a day, and name them, also in\na file; without it the number is 12",
            ),
    )
}

// With what is asked of a plan as a file.
fn with_files<'w>(alloc: Global, command: Command<'w>) -> Result<Command<'w>, AllocError> {
    let command = add(command, calendar(alloc))?;
    let command = add(command, page(alloc))?;
    let command = add(command, json(alloc))?;
    let command = add(command, event_length(alloc))?;
    let command = add(command, name(alloc))?;
    command.arg(
        value(alloc, "output", "FILE").help_heading(FILES).help(
            "Write the page, calendar or object to this file, whole or not at all",
        ),
    )
}

fn event_length<'w>(alloc: Global) -> Result<Arg<'w>, AllocError> {
    let arg = value(alloc, "lasts", "LENGTH")
        .help_heading(FILES)
        .hide_short_help(true)
        .help(
            "Let each event of the calendar last this long, such as 30m; without it\nevents have no end",
        )
        .requires_arg("ics")?;
    option_alone(arg)?
        .conflicts_with("html")?
        .conflicts_with("json")
}

fn name<'w>(alloc: Global) -> Result<Arg<'w>, AllocError> {
    value(alloc, "title", "TEXT")
        .help_heading(FILES)
        .hide_short_help(true)
        .help("Use this title for the page or calendar, in place of 'What cron\nstarts'")
        .conflicts_with("json")
}

fn calendar<'w>(alloc: Global) -> Result<Arg<'w>, AllocError> {
    let arg = flag(alloc, "ics").help_heading(FILES).help(
        "Write a calendar (RFC 5545) with an event for each start, 2000 at most",
    );
    option_alone(arg)?.conflicts_with("show-zone")
}

fn page<'w>(alloc: Global) -> Result<Arg<'w>, AllocError> {
    let arg = flag(alloc, "html").help_heading(FILES).help(
        "Write a page that shows all of this, one file without a script",
    );
    option_alone(arg)?.conflicts_with("ics")
}

fn json<'w>(alloc: Global) -> Result<Arg<'w>, AllocError> {
    let arg = flag(alloc, "json")
        .help_heading(FILES)
        .hide_short_help(true)
        .help(
            "Write one JSON object with the jobs, the moments, the quiet windows and\nthe counts",
        );
    option_alone(arg)?
        .conflicts_with("ics")?
        .conflicts_with("html")
}

// An option that stands with none of the answers that are texts.
fn option_alone<'w>(arg: Arg<'w>) -> Result<Arg<'w>, AllocError> {
    arg.conflicts_with("runs")?
        .conflicts_with("week")?
        .conflicts_with("month")?
        .conflicts_with("quiet")?
        .conflicts_with("busy")?
        .conflicts_with("together")
}
