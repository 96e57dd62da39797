//! What is told of the files, the lines and the patterns of a call.

use crate::counted::Counted;
use crate::crons::announce_other_cron;
use crate::lines::{tell_line, tell_pattern};
use crate::machine::Machine;
use crate::planning::plan;
use crate::sorted::{Sorted, asked_of, sorted_files, sorted_words};
use croncheck_command::problem::Problem;
use croncheck_command::words::{Call, Format, Verb, version};
use croncheck_files::names::{Asked, STANDARD_INPUT};
use croncheck_forms::annotator::{Annotator, Style};
use croncheck_forms::json_checker::JsonChecker;
use croncheck_forms::json_reporter::JsonReporter;
use croncheck_forms::sarif::Sarif;
use croncheck_forms::sarif::rules::RULES;
use croncheck_output::output::Output;
use croncheck_reading::files::tell_files;
use croncheck_reading::form::Form;
use croncheck_reading::progress::{Terms, TermsByKind};
use croncheck_reading::sink::Sink;
use croncheck_shown::checker::Checker;
use croncheck_shown::patterns::Answer;
use croncheck_shown::reporter::Reporter;
use crontab::line::Dialect;
use std::io;
use std::io::BufWriter;

/// The status where nothing was read.
const UNREAD: u8 = 3;

/// What a call names: the crontabs of the machine that is checked, or what its words name. Standard error says what of that isn't read. The error
/// says why there is no answer.
pub fn sorted_on<'w>(
    rt: &HostRuntime,
    call: &Call<'w>,
    machine: &Machine<'_>,
) -> Result<Sorted<'w>, Problem> {
    match call.root {
        Some(folder) => crontabs_of(rt, folder, machine),
        None => sorted_words(rt, call).map_err(Problem::Folder),
    }
}

// The crontabs of the machine that is checked, whose files stand below a folder.
fn crontabs_of<'w>(
    rt: &HostRuntime,
    folder: &str,
    machine: &Machine<'_>,
) -> Result<Sorted<'w>, Problem> {
    let Ok(()) = announce_other_cron(rt, folder) else {
        return Err(Problem::OutOfMemory);
    };
    let files = machine.crontabs().map_err(Problem::Root)?;
    match sorted_files(rt, files.as_slice()) {
        Ok(sorted) => Ok(sorted),
        Err(_) => Err(Problem::OutOfMemory),
    }
}

/// Tells of what a call names, and answers the status of the call. The error says why there is no answer.
pub fn tell_sorted(
    rt: &HostRuntime,
    call: &Call<'_>,
    kinds: &TermsByKind<'_, '_>,
    machine: &Machine<'_>,
    sorted: &Sorted<'_>,
) -> Result<u8, Problem> {
    let of_lines = tell_lines(rt, kinds, sorted.lines.as_slice()).map_err(Problem::Unwritten)?;
    let before = if sorted.has_yaml {
        of_lines.max(1)
    } else {
        of_lines
    };
    if sorted.files.is_empty() && (sorted.has_yaml || !sorted.lines.is_empty()) {
        return Ok(before);
    }
    let Ok(files) = asked_of(rt, sorted.files.as_slice()) else {
        return Err(Problem::OutOfMemory);
    };
    let status = tell(rt, call, kinds, machine, files.as_slice())?;
    Ok(before.max(status))
}

// Tells of lines that are words of the call.
fn tell_lines(
    rt: &HostRuntime,
    kinds: &TermsByKind<'_, '_>,
    lines: &[Asked<'_>],
) -> io::Result<u8> {
    let mut output = Output::new(BufWriter::new(rt.alloc(), rt.stdout())?);
    let mut status = 0;
    for line in lines {
        let terms = kinds.of(line.dialect());
        status = tell_line(&terms, line.word, &mut output)?.max(status);
    }
    output.flush()?;
    Ok(status)
}

// The files of a call, and the machine that has them.
#[derive(Clone, Copy)]
pub(crate) struct Named<'f> {
    pub(crate) machine: &'f Machine<'f>,
    pub(crate) files: &'f [Asked<'f>],
}

// Tells of the files or the patterns in the form that the call asks for.
fn tell(
    rt: &HostRuntime,
    call: &Call<'_>,
    kinds: &TermsByKind<'_, '_>,
    machine: &Machine<'_>,
    files: &[Asked<'_>],
) -> Result<u8, Problem> {
    let sources = Named { machine, files };
    let status = match call.verb {
        Verb::Check => check_in_format(rt, call, kinds, sources),
        Verb::Show => show_in_format(rt, call, kinds, sources),
        Verb::Plan => return plan(rt, call, kinds, sources),
        Verb::Next => answer_in_format(rt, call, kinds, sources),
        Verb::Describe => answer(rt, call, kinds.of(Dialect::Patterns), Answer::Description),
    };
    status.map_err(Problem::Unwritten)
}

// Answers when patterns run: as texts, unless JSON is asked for.
fn answer_in_format(
    rt: &HostRuntime,
    call: &Call<'_>,
    kinds: &TermsByKind<'_, '_>,
    sources: Named<'_>,
) -> io::Result<u8> {
    match call.format {
        Format::Json => tell_in(rt, kinds, sources, JsonReporter),
        Format::Text | Format::Gcc | Format::Github | Format::Sarif => answer(
            rt,
            call,
            kinds.of(Dialect::Patterns),
            Answer::Runs,
        ),
    }
}

// Tells what is found in the files.
fn check_in_format(
    rt: &HostRuntime,
    call: &Call<'_>,
    kinds: &TermsByKind<'_, '_>,
    sources: Named<'_>,
) -> io::Result<u8> {
    match call.format {
        Format::Text => tell_in(rt, kinds, sources, Checker),
        Format::Gcc => tell_in(rt, kinds, sources, Annotator { style: Style::Gcc }),
        Format::Github => tell_in(
            rt,
            kinds,
            sources,
            Annotator {
                style: Style::Github,
            },
        ),
        Format::Sarif => {
            let sarif = Sarif::new(rt.alloc(), version(), &RULES)?;
            tell_in(rt, kinds, sources, sarif)
        }
        Format::Json => tell_in(rt, kinds, sources, JsonChecker),
    }
}

// Tells of each line of the files: as texts, unless JSON is asked for.
fn show_in_format(
    rt: &HostRuntime,
    call: &Call<'_>,
    kinds: &TermsByKind<'_, '_>,
    sources: Named<'_>,
) -> io::Result<u8> {
    match call.format {
        Format::Json => tell_in(rt, kinds, sources, JsonReporter),
        Format::Text | Format::Gcc | Format::Github | Format::Sarif => tell_in(
            rt, kinds, sources, Reporter,
        ),
    }
}

// Tells of the files in a form.
fn tell_in<F: Form + Drop>(
    rt: &HostRuntime,
    kinds: &TermsByKind<'_, '_>,
    sources: Named<'_>,
    form: F,
) -> io::Result<u8> {
    tell_counted(rt, kinds, sources, Counted::new(form, false))
}

// Tells of the files in a form that counts them. Where none was read, that is said, and the status is that of a failure.
pub(crate) fn tell_counted<F: Form + Drop>(
    rt: &HostRuntime,
    kinds: &TermsByKind<'_, '_>,
    sources: Named<'_>,
    form: Counted<F>,
) -> io::Result<u8> {
    let out = BufWriter::new(rt.alloc(), rt.stdout())?;
    let mut notes = rt.stderr();
    let mut sink = Sink::new(kinds.of(Dialect::User), form, out);
    let status = tell_files(sources.machine, kinds, sources.files, &mut sink, &mut notes)?;
    let counts = Counts {
        files: sink.form().files(),
        lines: sink.form().lines(),
    };
    Ok(status_of_counts(rt, sources, counts, status))
}

// How many files were read, and lines.
#[derive(Clone, Copy)]
struct Counts {
    files: u64,
    lines: u64,
}

// The status of a call by what was read. Nothing of the files of the words is no success.
fn status_of_counts(rt: &HostRuntime, sources: Named<'_>, counts: Counts, status: u8) -> u8 {
    if sources.machine.is_checked() || status != 0 {
        return status;
    }
    if counts.files == 0 {
        let _ = eprintln!(rt; "croncheck: no file was read");
        return UNREAD;
    }
    if counts.lines == 0 && sources.files.iter().any(|file| file.word == STANDARD_INPUT) {
        let _ = eprintln!(rt; "croncheck: nothing came on standard input");
    }
    status
}

// Answers the patterns.
fn answer(
    rt: &HostRuntime,
    call: &Call<'_>,
    terms: Terms<'_, '_>,
    answer: Answer,
) -> io::Result<u8> {
    let mut output = Output::new(BufWriter::new(rt.alloc(), rt.stdout())?);
    let mut status = 0;
    for pattern in call.patterns.as_slice() {
        status = tell_pattern(&terms, pattern, answer, &mut output)?.max(status);
    }
    output.flush()?;
    Ok(status)
}
