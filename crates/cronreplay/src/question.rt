//! The operations by their names.

use crate::alike::alike;
use crate::clones::clone_of;
use crate::command::cronrun;
use crate::compare::compare;
use crate::component::{component, component_compare};
use crate::debug::debug;
use crate::explain::{explain, suggest};
use crate::json::{json_again, reread};
use crate::laws::law;
use crate::listings::{items_from_start, items_of_taken_job};
use crate::narrow::as_bounds_move;
use crate::presets::preset;
use crate::schedulers::scheduler;
use crate::searches::{runs_from_start, shown_at_start};
use crate::starts::starts;
use crate::{calendar, summaries, tables, texts, values, zones};
use croner::time::Direction;
use croner_rows::{Caller, Fault, Job, Result, Subject, Table, ask, text};
use serde_json::Value;
use std::alloc::Global;

/// What the calls of a question answer. What was lent to them is added to `after`, as it is afterwards, or what comes after them.
pub fn make_calls(caller: Caller<'_>, question: &Value, after: &mut String) -> Result<Value> {
    match text(question, "op")? {
        "reread" => reread(caller, question, after),
        "reading" => shown_at_start(caller, question, after),
        "scheduler" => scheduler(caller, question, after),
        "questions" => texts::questions(caller, question, after),
        "taken_job" => items_of_taken_job(caller, question, after),
        "summary_data" => summaries::data(caller, question, after),
        "next" | "prev" | "iter" => calls_of_job(caller, question, after),
        op => calls_of_kind(caller, question, op, after),
    }
}

fn calls_of_job(caller: Caller<'_>, question: &Value, after: &mut String) -> Result<Value> {
    let job = Job::read(caller.alloc, question)?;
    let op = text(question, "op")?;
    runs_of(caller, question, (Subject::Job(&job), op), after)
}

// The operations of one kind, by what their names begin with.
fn calls_of_kind(
    caller: Caller<'_>,
    question: &Value,
    op: &str,
    after: &mut String,
) -> Result<Value> {
    if let Some(call) = op.strip_prefix("table_") {
        return calls_of_table(caller, question, call, after);
    }
    if let Some(call) = op.strip_prefix("summary_") {
        return summaries::call_of_summary(caller, question, call, after);
    }
    if let Some(kind) = op.strip_prefix("clone_of_") {
        return clone_of(caller, question, kind, after);
    }
    match answer_alone(caller, question, op) {
        Err(Fault::Unsupported) => ask(caller, question, op, after),
        answer => answer,
    }
}

fn calls_of_table(
    caller: Caller<'_>,
    question: &Value,
    call: &str,
    after: &mut String,
) -> Result<Value> {
    match call {
        "push" => tables::push(caller, question, after),
        "change" => tables::change(caller, question),
        "place" => tables::place(caller, question),
        "taken_up" => tables::items_taken_up(caller.alloc, question),
        call => {
            let table = Table::read(caller.alloc, question)?;
            runs_of(caller, question, (Subject::Table(&table.jobs), call), after)
        }
    }
}

// The runs of a subject.
fn runs_of(
    caller: Caller<'_>,
    question: &Value,
    (subject, op): (Subject<'_>, &str),
    after: &mut String,
) -> Result<Value> {
    match op {
        "next" => runs_from_start(caller, question, subject, Direction::Forward, after),
        "prev" => runs_from_start(caller, question, subject, Direction::Backward, after),
        "iter" => items_from_start(caller, question, subject, after),
        _ => Err(Fault::Unsupported),
    }
}

// The operations that are lent nothing.
fn answer_alone(caller: Caller<'_>, question: &Value, op: &str) -> Result<Value> {
    let alloc = caller.alloc;
    match op {
        "bounds" => as_bounds_move(caller, question),
        "readings" => zones::readings(caller, question),
        "zone_compare" => zones::compare(caller, question),
        "calendar" => calendar::calendar(caller, question),
        "weekday" => calendar::weekday(caller, question),
        "time_of_day" => calendar::clock_face(caller, question),
        "date_and_time" => calendar::date_and_time(caller, question),
        "clock_table" => calendar::clock_table(caller, question),
        "new_field" => texts::new_field(caller, question),
        "parser" => texts::parser(caller, question),
        "explain" => explain(caller, question),
        "words" => values::words_of_language(caller, question),
        "law" => law(caller, question),
        "starts" => starts(caller, question),
        op => answer_of_value(alloc, question, op),
    }
}

// Those whose calls are made without marks.
fn answer_of_value(alloc: Global, question: &Value, op: &str) -> Result<Value> {
    match op {
        "component" => component(alloc, question),
        "component_compare" => component_compare(alloc, question),
        "compare" => compare(alloc, question),
        "suggest" => suggest(alloc, question),
        "json_again" => json_again(alloc, question),
        "cronrun" => cronrun(alloc, question),
        "debug" => debug(alloc, question),
        "component_number" => values::number_of_part(question),
        "values" => values::values(alloc, question, Job::read(alloc, question)?),
        "alike" => alike(alloc, question),
        "summary" => summaries::summary(alloc, question),
        "preset" => preset(alloc, question),
        _ => Err(Fault::Unsupported),
    }
}
