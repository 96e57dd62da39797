//! A plan, as texts or as a file.

use crate::counted::Counted;
use crate::replaced::replaces_source;
use crate::saved::save;
use crate::telling::{Named, tell_counted};
use crate::zone_names::{name_of_other_zone, name_of_zone};
use croncheck_command::problem::Problem;
use croncheck_command::words::Call;
use croncheck_planner::planner::page::PagePlanner;
use croncheck_planner::planner::{ClockNames, Planner};
use croncheck_reading::files::tell_files;
use croncheck_reading::form::Form;
use croncheck_reading::progress::TermsByKind;
use croncheck_reading::sink::Sink;
use croncheck_report::shared::Shared;
use croncheck_runs::clock::NoClock;
use croner_base::time::CivilDateTime;
use cronplan_forms::{FileAsked, MOST_EVENTS, Naming, PlanAsked, Signs};
use cronplan_page::Line as PageLine;
use crontab::line::Dialect;
use jiff::Timestamp;
use std::alloc::AllocError;
use std::env::VarError;
use std::io::{ErrorKind, Write};
use std::{env, io, str};

/// The status if a file can't be read.
const UNREAD: u8 = 3;

/// What the calendar of a plan is called, and its page, if no word of the call says it.
const TITLE: &str = "What cron starts";

/// Plans the jobs of the files, as texts unless a file is asked for, and answers the status of the call. The error says why there is no
/// answer.
pub fn plan(
    rt: &HostRuntime,
    call: &Call<'_>,
    kinds: &TermsByKind<'_, '_>,
    sources: Named<'_>,
) -> Result<u8, Problem> {
    let asked = plan_asked(rt, call)?;
    refuse_to_replace(rt, call, sources)?;
    match asked.file {
        Some(FileAsked::Calendar(lasts)) => {
            write_calendar(rt, call, kinds, sources, asked, lasts)
        }
        Some(FileAsked::Page) => write_page(rt, call, kinds, sources, asked),
        Some(FileAsked::Json) => write_json(rt, call, kinds, sources, asked),
        None => {
            let planner = planner_of(rt, call, kinds, asked)?;
            tell_counted(rt, kinds, sources, Counted::new(planner, true)).map_err(
                Problem::Unwritten,
            )
        }
    }
}

// The error says that the file to which a plan is to be written is one of those that are read.
fn refuse_to_replace(rt: &HostRuntime, call: &Call<'_>, sources: Named<'_>) -> Result<(), Problem> {
    let Some(name) = call.output else {
        return Ok(());
    };
    match replaces_source(rt, call, sources, name) {
        Ok(false) => Ok(()),
        Ok(true) => Err(Problem::OutputIsRead),
        Err(_) => Err(Problem::OutOfMemory),
    }
}

// A planner of what is asked, on the clocks of the call's zones.
fn planner_of(
    rt: &HostRuntime,
    call: &Call<'_>,
    kinds: &TermsByKind<'_, '_>,
    asked: PlanAsked,
) -> Result<Planner, Problem> {
    let names = names_of(rt, call, kinds)?;
    Ok(Planner::new(rt.alloc(), asked, names))
}

// The names of the zones on whose clocks a plan is shown.
fn names_of(
    rt: &HostRuntime,
    call: &Call<'_>,
    kinds: &TermsByKind<'_, '_>,
) -> Result<ClockNames, Problem> {
    let terms = kinds.of(Dialect::User);
    let Ok(names) = clock_names(rt, call, terms.shared) else {
        return Err(Problem::OutOfMemory);
    };
    Ok(names)
}

fn clock_names(
    rt: &HostRuntime,
    call: &Call<'_>,
    shared: &Shared<'_>,
) -> Result<ClockNames, AllocError> {
    let zone = name_of_zone(rt, call, &shared.zone)?;
    let other = name_of_other_zone(rt, call, shared.other_zone)?;
    Ok(ClockNames { zone, other })
}

// What took the files in a form, with what it told of them, and the status.
#[derive(Drop)]
struct Taken<'s, 't, F> {
    sink: Sink<'s, 't, Counted<F>, Vec<u8>>,
    status: u8,
}

// Takes the files in a form. What it tells goes to standard error, since a file is asked for; it is none where a file of the call isn't read.
fn take_files<'s, 't, F: Form + Drop>(
    rt: &HostRuntime,
    kinds: &TermsByKind<'s, 't>,
    sources: Named<'_>,
    form: F,
) -> Result<Taken<'s, 't, F>, Problem> {
    let terms = kinds.of(Dialect::User);
    let mut notes = rt.stderr();
    let mut sink = Sink::new(terms, Counted::new(form, true), Vec::new(rt.alloc()));
    let status = tell_files(sources.machine, kinds, sources.files, &mut sink, &mut notes).map_err(
        Problem::Unwritten,
    )?;
    notes
        .write_all(sink.out().as_slice())
        .map_err(Problem::Unwritten)?;
    let has_none = sink.form().files() == 0 && !sources.machine.is_checked();
    if status == UNREAD || has_none {
        return Err(Problem::Unread);
    }
    Ok(Taken { sink, status })
}

// Writes the calendar of the files' jobs. The status is 1 if it doesn't have all starts.
fn write_calendar(
    rt: &HostRuntime,
    call: &Call<'_>,
    kinds: &TermsByKind<'_, '_>,
    sources: Named<'_>,
    asked: PlanAsked,
    lasts: Option<u64>,
) -> Result<u8, Problem> {
    let planner = planner_of(rt, call, kinds, asked)?;
    let taken = take_files(rt, kinds, sources, planner)?;
    let now = Timestamp::now(rt).map_err(Problem::Now)?;
    let Some(stamp) = CivilDateTime::of_wall_second(now.as_second()) else {
        return Err(Problem::Clock(NoClock::Outside));
    };
    let naming = Naming {
        name: call.title.unwrap_or(TITLE),
        stamp,
        lasts,
    };
    let terms = kinds.of(Dialect::User);
    let Ok(file) = taken.sink.form().form().calendar(&terms, naming) else {
        return Err(Problem::OutOfMemory);
    };
    write_text(rt, call, file.text.as_str())?;
    if !file.is_cut {
        return Ok(taken.status);
    }
    let _ = eprintln!(rt;
        "croncheck: the calendar has the first {MOST_EVENTS} starts alone: take a nearer --until, or a lower --most-a-day"
    );
    Ok(taken.status.max(1))
}

// Writes the page of the files' jobs, with what cron ignores, as it was told.
fn write_page(
    rt: &HostRuntime,
    call: &Call<'_>,
    kinds: &TermsByKind<'_, '_>,
    sources: Named<'_>,
    asked: PlanAsked,
) -> Result<u8, Problem> {
    let names = names_of(rt, call, kinds)?;
    let planner = PagePlanner::new(rt.alloc(), asked, names);
    let taken = take_files(rt, kinds, sources, planner)?;
    let told = text_of(taken.sink.out().as_slice())?;
    let Ok(ignored) = page_lines_in(rt, told) else {
        return Err(Problem::OutOfMemory);
    };
    let terms = kinds.of(Dialect::User);
    let title = call.title.unwrap_or(TITLE);
    let Ok(text) = taken
        .sink
        .form()
        .form()
        .page(&terms, title, ignored.as_slice())
    else {
        return Err(Problem::OutOfMemory);
    };
    write_text(rt, call, text.as_str())?;
    Ok(taken.status)
}

// What was told, which is UTF-8.
fn text_of(told: &[u8]) -> Result<&str, Problem> {
    match str::from_utf8(told) {
        Ok(text) => Ok(text),
        Err(_) => Err(Problem::Unwritten(io::Error::from(ErrorKind::InvalidData))),
    }
}

// The lines of a text that have something, without the blanks around each.
fn lines_in<'t>(rt: &HostRuntime, text: &'t str) -> Result<Vec<&'t str>, AllocError> {
    let mut lines = Vec::new(rt.alloc());
    for line in text.lines() {
        if !line.is_empty() {
            lines.push(line.trim())?;
        }
    }
    Ok(lines)
}

// The same, as a page has them.
fn page_lines_in<'t>(rt: &HostRuntime, text: &'t str) -> Result<Vec<PageLine<'t>>, AllocError> {
    let mut lines = Vec::new(rt.alloc());
    for rest in lines_in(rt, text)? {
        lines.push(PageLine { head: "", rest })?;
    }
    Ok(lines)
}

// Writes the plan of the files' jobs as JSON, with what cron ignores, as it was told.
fn write_json(
    rt: &HostRuntime,
    call: &Call<'_>,
    kinds: &TermsByKind<'_, '_>,
    sources: Named<'_>,
    asked: PlanAsked,
) -> Result<u8, Problem> {
    let planner = planner_of(rt, call, kinds, asked)?;
    let taken = take_files(rt, kinds, sources, planner)?;
    let told = text_of(taken.sink.out().as_slice())?;
    let Ok(read_first) = lines_in(rt, told) else {
        return Err(Problem::OutOfMemory);
    };
    let terms = kinds.of(Dialect::User);
    let Ok(text) = taken.sink.form().form().json(&terms, read_first.as_slice()) else {
        return Err(Problem::OutOfMemory);
    };
    write_text(rt, call, text.as_str())?;
    Ok(taken.status)
}

// Writes the text of a file: to that which the call names, and else to standard output.
fn write_text(rt: &HostRuntime, call: &Call<'_>, text: &str) -> Result<(), Problem> {
    match call.output {
        Some(name) => save(rt, name, text.as_bytes()).map_err(Problem::Unsaved),
        None => print!(rt; "{text}").map_err(Problem::Unwritten),
    }
}

// What is asked of a plan: its picture has blocks where the machine's words are UTF-8.
fn plan_asked(rt: &HostRuntime, call: &Call<'_>) -> Result<PlanAsked, Problem> {
    let mut asked = call.plan;
    if asked.questions.week.is_some() && has_utf8(rt)? {
        asked.questions.week = Some(Signs::Blocks);
    }
    Ok(asked)
}

// Whether the machine's words are UTF-8, as the first of these variables says that isn't empty.
fn has_utf8(rt: &HostRuntime) -> Result<bool, Problem> {
    for name in ["LC_ALL", "LC_CTYPE", "LANG"] {
        match env::var(rt, name) {
            Ok(word) if !word.is_empty() => return Ok(names_utf8(word.as_str())),
            Ok(_) | Err(VarError::NotPresent | VarError::NotUnicode) => {}
            Err(VarError::OutOfMemory) => return Err(Problem::OutOfMemory),
        }
    }
    Ok(false)
}

fn names_utf8(locale: &str) -> bool {
    let code = locale.rsplit('.').next().unwrap_or(locale);
    code.eq_ignore_ascii_case("UTF-8") || code.eq_ignore_ascii_case("utf8")
}
