//! The object of a line, as JSON.
ghost use Rattle.std.specs.Prelude.{◌≡◌, Some, None, map, option_map, IfOk, ◌++◌, OnOk};
ghost use Rattle.serde_json.specs.Data.{array};
ghost use Rattle.serde_json.specs.View.{view, items_of};
ghost use Rattle.jiff.specs.ZoneView.{plain_zone};
ghost use Rattle.crontab.specs.Entries.{entry_seen};
ghost use Rattle.croncheck_forms.specs.Json.{kind_of_line, kind_of, end_name, string_or_null, user_or_null, integer_or_null, count_or_null, run_object, previous_object, reach_name, often_object, named_object, times_object, fate_name, change_object, change_objects, objects_of_changes, job_object, job_data, finding_object, object_of};
ghost use Rattle.croncheck_output.specs.Escaped.{exact_text};

use croncheck_changes::changes::Fate;
use croncheck_changes::changes::meetings::{Meetings, Met};
use croncheck_findings::findings::Finding;
use croncheck_often::often::{Often, Reach};
use croncheck_output::escaped::exact_text;
use croncheck_output::user::user_shown;
use croncheck_report::location::Location;
use croncheck_report::report::{JobReport, Report};
use croncheck_report::shared::{Shared, ahead_of};
use croncheck_report::told::Told;
use croncheck_runs::runs::{End, Run, Runs};
use crontab::line::Entry;
use serde_json::{Value, json};
use std::alloc::{AllocError, Global};

/// The version of the form of these objects.
pub const VERSION: u32 = 2;

// ---- kinds

/// The kind of a file as a whole.
pub(crate) const FILE: &str = "file";

pub(crate) fn kind_of_entry(entry: &Entry<'_>) -> &'static str
    ensures { result.now ≡ kind_of_line (entry_seen entry.now) }
{
    match entry {
        Entry::Blank => "blank",
        Entry::Comment => "comment",
        Entry::Setting { .. } => "setting",
        Entry::Job(_) => "job",
        Entry::Pattern(_) => "pattern",
        Entry::Refused { .. } => "refused",
    }
}

// The kind of an entry with a report.
fn kind_of<'k>(kind: &'k str, report: &Report<'_, '_>) -> &'k str
    ensures { result.now ≡ kind_of kind.now report.now }
{
    match report {
        Report::Refused { .. } => "refused",
        Report::Silent | Report::Misnamed(_) | Report::Setting { .. } | Report::Job(_) => kind,
    }
}

// ---- objects

// The object of a line, by the kind of its entry and what is found of it.
pub(crate) fn object_of(
    alloc: Global,
    shared: &Shared<'_>,
    kind: &str,
    place: Location<'_>,
    report: &Report<'_, '_>,
    found: &[Finding],
) -> Result<Value, AllocError>
    ensures { IfOk result (λ v. view v ≡ object_of (record {
      zone = plain_zone shared.now.zone;
      kind = kind.now;
      file = place.entry.file.now;
      line = place.entry.line;
    }) report.now found.now) }
{
    let kind = kind_of(kind, report);
    let (file, line) = (place.file, place.line);
    json!(in alloc; {
        "version": VERSION,
        "kind": kind,
        "file": file,
        "line": line,
        "job": job_value(alloc, shared, report)?,
        "findings": findings_value(alloc, found)?
    })
}

// What is told of a job; null if the line is no job.
fn job_value(
    alloc: Global,
    shared: &Shared<'_>,
    report: &Report<'_, '_>,
) -> Result<Value, AllocError>
    ensures { IfOk result (λ v. view v ≡ job_data (plain_zone shared.now.zone) report.now) }
{
    match report {
        Report::Job(job) => job_object(alloc, shared, job),
        Report::Silent | Report::Misnamed(_) | Report::Setting { .. } | Report::Refused { .. } =>
            Ok(Value::Null),
    }
}

fn job_object(
    alloc: Global,
    shared: &Shared<'_>,
    job: &JobReport<'_, '_>,
) -> Result<Value, AllocError>
    ensures { IfOk result (λ v. view v ≡ job_object (plain_zone shared.now.zone) job.now) }
{
    json!(in alloc; {
        "schedule": bytes_or_null(alloc, Some(job.schedule))?,
        "user": user_or_null(alloc, job.user)?,
        "command": bytes_or_null(alloc, job.command)?,
        "times": times_value(alloc, shared, &job.times)?,
        "changes": changes_of(alloc, &job.meetings)?
    })
}

// The changes of the clock that meet a job.
fn changes_of(alloc: Global, meetings: &Meetings) -> Result<Value, AllocError>
    ensures { IfOk result (λ v. view v ≡ array (items_of (objects_of_changes meetings.now))) }
{
    let mut items = Vec::new(alloc);
    push_change_object(alloc, &mut items, &meetings.gap)?;
    push_change_object(alloc, &mut items, &meetings.repeated)?;
    Ok(Value::Array(items))
}

fn push_change_object(
    alloc: Global,
    items: &mut Vec<Value>,
    met: &Option<Met>,
) -> Result<(), AllocError>
    ensures { OnOk result (map view items.new.items ≡ map view items.old.items ++ change_objects met.now) }
{
    match met {
        Some(met) => {
            items.push(change_object(alloc, met)?)?;
            Ok(())
        }
        None => Ok(()),
    }
}

fn change_object(alloc: Global, met: &Met) -> Result<Value, AllocError>
    ensures { IfOk result (λ v. view v ≡ change_object met.now) }
{
    let (change, due) = (met.meeting.change, met.meeting.second);
    let (second, before, after) = (change.instant, change.before, change.after);
    let fate = fate_name(met.meeting.fate);
    json!(in alloc; {"second": second, "before": before, "after": after, "due": due, "fate": fate})
}

fn fate_name(fate: Fate) -> &'static str
    ensures { result.now ≡ fate_name fate }
{
    match fate {
        Fate::LeftOut => "left-out",
        Fate::Moved => "moved",
        Fate::Once => "once",
        Fate::Twice => "twice",
        Fate::Paused => "paused",
    }
}

// Bytes as they are shown, a backslash as two; null where there are none.
fn bytes_or_null(alloc: Global, bytes: Option<&[u8]>) -> Result<Value, AllocError>
    ensures { IfOk result (λ v. view v ≡ string_or_null (option_map (λ b. exact_text b.now) bytes.entry)) }
{
    match bytes {
        Some(bytes) => Ok(Value::String(exact_text(alloc, bytes)?)),
        None => Ok(Value::Null),
    }
}

// The user of a line; null where the word there isn't the name of one: it may be a password.
fn user_or_null(alloc: Global, user: Option<&[u8]>) -> Result<Value, AllocError>
    ensures { IfOk result (λ v. view v ≡ user_or_null (option_map (λ u. u.now) user.entry)) }
{
    match user_shown(user) {
        Some(name) => Ok(Value::String(exact_text(alloc, name)?)),
        None => Ok(Value::Null),
    }
}

fn times_value(alloc: Global, shared: &Shared<'_>, times: &Told<'_>) -> Result<Value, AllocError>
    ensures { IfOk result (λ v. view v ≡ times_object (plain_zone shared.now.zone) times.now) }
{
    match times {
        Told::Reboot => json!(in alloc; {"when": "reboot"}),
        Told::Nothing => json!(in alloc; {"when": "nothing"}),
        Told::Runs {
            description,
            runs,
            previous,
            often,
            is_past,
        } => {
            let named = Named {
                description: description.as_str(),
                runs,
                often: *often,
                is_past: *is_past,
            };
            match previous {
                Some(previous) => object_with_previous(alloc, shared, named, previous),
                None => object_without_previous(alloc, shared, named),
            }
        }
    }
}

// When a job runs, if its times have a meaning; but for the runs before the start.
#[derive(Clone, Copy)]
struct Named<'r, 't> {
    description: &'r str,
    runs: &'r Runs<'t>,
    often: Option<Often>,
    is_past: bool,
}

// The object without the runs before the start.
fn object_without_previous(
    alloc: Global,
    shared: &Shared<'_>,
    named: Named<'_, '_>,
) -> Result<Value, AllocError>
    ensures { IfOk result (λ v. view v ≡ named_object (plain_zone shared.now.zone) named.entry.description.now named.entry.runs.now named.entry.is_past None named.entry.often) }
{
    let (description, end) = (named.description, end_of(&named.runs.end, named.is_past));
    match named.often {
        Some(often) => json!(in alloc; {
            "when": "named",
            "description": description,
            "runs": runs_value(alloc, shared, named.runs)?,
            "end": end,
            "often": often_value(alloc, often)?
        }),
        None => json!(in alloc; {
            "when": "named",
            "description": description,
            "runs": runs_value(alloc, shared, named.runs)?,
            "end": end
        }),
    }
}

// The object with the runs before the start.
fn object_with_previous(
    alloc: Global,
    shared: &Shared<'_>,
    named: Named<'_, '_>,
    previous: &Runs<'_>,
) -> Result<Value, AllocError>
    ensures { IfOk result (λ v. view v ≡ named_object (plain_zone shared.now.zone) named.entry.description.now named.entry.runs.now named.entry.is_past (Some previous.now) named.entry.often) }
{
    let (description, end) = (named.description, end_of(&named.runs.end, named.is_past));
    match named.often {
        Some(often) => json!(in alloc; {
            "when": "named",
            "description": description,
            "runs": runs_value(alloc, shared, named.runs)?,
            "end": end,
            "previous": previous_value(alloc, shared, previous)?,
            "often": often_value(alloc, often)?
        }),
        None => json!(in alloc; {
            "when": "named",
            "description": description,
            "runs": runs_value(alloc, shared, named.runs)?,
            "end": end,
            "previous": previous_value(alloc, shared, previous)?
        }),
    }
}

// How often a job starts.
fn often_value(alloc: Global, often: Often) -> Result<Value, AllocError>
    ensures { IfOk result (λ v. view v ≡ often_object often) }
{
    let (from, until, end) = (often.from, often.until, reach_of(often.reach));
    let (starts, most_a_day) = (often.starts, often.most_a_day);
    json!(in alloc; {
        "from": from,
        "until": until,
        "end": end,
        "starts": starts,
        "most_a_day": most_a_day,
        "shortest": distance_or_null(alloc, often.shortest)?
    })
}

fn reach_of(reach: Reach) -> &'static str
    ensures { result.now ≡ reach_name reach }
{
    match reach {
        Reach::Whole => "whole",
        Reach::Cut | Reach::Window => "cut",
        Reach::Failed => "failed",
    }
}

// A distance; null where there is none.
fn distance_or_null(alloc: Global, distance: Option<u64>) -> Result<Value, AllocError>
    ensures { IfOk result (λ v. view v ≡ count_or_null distance) }
{
    match distance {
        Some(distance) => json!(in alloc; distance),
        None => Ok(Value::Null),
    }
}

// The runs before the start, and how their list ends.
fn previous_value(alloc: Global, shared: &Shared<'_>, runs: &Runs<'_>) -> Result<Value, AllocError>
    ensures { IfOk result (λ v. view v ≡ previous_object (plain_zone shared.now.zone) runs.now) }
{
    let end = end_of(&runs.end, false);
    json!(in alloc; {"runs": runs_value(alloc, shared, runs)?, "end": end})
}

fn end_of(end: &End, is_past: bool) -> &'static str
    ensures { result.now ≡ end_name is_past end.now }
{
    match end {
        End::Over if is_past => "past",
        End::Over => "over",
        End::More => "more",
        End::Cut | End::Window => "cut",
        End::Failed(_) => "failed",
    }
}

fn runs_value(alloc: Global, shared: &Shared<'_>, runs: &Runs<'_>) -> Result<Value, AllocError>
    ensures { IfOk result (λ v. view v ≡ array (items_of (map (run_object (plain_zone shared.now.zone)) runs.now.items.items))) }
{
    let items = run_objects(alloc, shared, runs.items.as_slice())?;
    Ok(Value::Array(items))
}

fn run_objects(
    alloc: Global,
    shared: &Shared<'_>,
    runs: &[Run<'_>],
) -> Result<Vec<Value>, AllocError>
    ensures { IfOk result (λ items. map view items.items ≡ map (run_object (plain_zone shared.now.zone)) runs.now) }
{
    let mut items = Vec::new(alloc);
    for run in runs {
        items.push(run_object(alloc, shared, run)?)?;
    }
    Ok(items)
}

// A run: its second, how many seconds the zone's clock is ahead of UTC then, how many times the job is started, and what it makes up for.
fn run_object(alloc: Global, shared: &Shared<'_>, run: &Run<'_>) -> Result<Value, AllocError>
    ensures { IfOk result (λ v. view v ≡ run_object (plain_zone shared.now.zone) run.now) }
{
    let (second, offset) = (run.time.second(), ahead_of(shared, &run.time));
    let starts = run.count;
    json!(in alloc; {
        "second": second,
        "offset": offset,
        "starts": starts,
        "makes_up_for": second_or_null(alloc, run.made_up)?
    })
}

// A wall second; null where there is none.
fn second_or_null(alloc: Global, second: Option<i64>) -> Result<Value, AllocError>
    ensures { IfOk result (λ v. view v ≡ integer_or_null second) }
{
    match second {
        Some(second) => json!(in alloc; second),
        None => Ok(Value::Null),
    }
}

// ---- findings

// A list with an object for each finding.
fn findings_value(alloc: Global, found: &[Finding]) -> Result<Value, AllocError>
    ensures { IfOk result (λ v. view v ≡ array (items_of (map finding_object found.now))) }
{
    let items = finding_objects(alloc, found)?;
    Ok(Value::Array(items))
}

fn finding_objects(alloc: Global, found: &[Finding]) -> Result<Vec<Value>, AllocError>
    ensures { IfOk result (λ items. map view items.items ≡ map finding_object found.now) }
{
    let mut items = Vec::new(alloc);
    for finding in found {
        items.push(finding_object(alloc, finding)?)?;
    }
    Ok(items)
}

fn finding_object(alloc: Global, finding: &Finding) -> Result<Value, AllocError>
    ensures { IfOk result (λ v. view v ≡ finding_object finding.now) }
{
    let (severity, name) = (finding.severity.name(), finding.name);
    let (start, end) = (finding.extent.start, finding.extent.end);
    let text = finding.text.as_str();
    json!(in alloc; {
        "severity": severity,
        "name": name,
        "field": name_or_null(alloc, finding.field)?,
        "start": start,
        "end": end,
        "text": text
    })
}

// A name; null where there is none.
fn name_or_null(alloc: Global, name: Option<&'static str>) -> Result<Value, AllocError>
    ensures { IfOk result (λ v. view v ≡ string_or_null (option_map (λ n. n.now) name.entry)) }
{
    match name {
        Some(name) => Ok(Value::String(String::from_str(alloc, name)?)),
        None => Ok(Value::Null),
    }
}
