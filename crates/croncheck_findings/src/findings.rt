//! What is found of a line and of a file: each thing with how grave it is, its name, its place and what it says.
ghost use Rattle.std.specs.Prelude.{◌≡◌, [], ◌∷◌, ◌++◌, map, filter, option_map, is_some, IfOk, OnOk};
ghost use Rattle.croncheck_output.specs.Severity.{severity_name};
ghost use Rattle.croncheck_findings.specs.Findings.{content_extent, finding_seen, findings_seen, finding_without_field, only_if, fault_kind, refusal_kind, severity_of, finding_of_warning, finding_of_note, finding_of_reading, finding_of_change, of_range, of_meetings, finding_of_unneeded, findings_of_job, of_setting, findings_of_setting, findings_of_line};
ghost use Rattle.croncheck_findings.specs.Found.{is_told_below};
ghost use Rattle.croncheck_findings.specs.Findings.{is_of_preset, described};
ghost use Rattle.croncheck_report.specs.Report.{notes_of_refusal, taken_of};
ghost use Rattle.croncheck_warnings.specs.Warnings.{field_name, other_name};

mod days;
mod fields;
mod hints;
pub mod of_file;
mod places;
mod reasons;
mod refused_pattern;

use croncheck_changes::changes::meetings::{Meetings, Met};
use croncheck_output::severity::Severity;
use croncheck_report::allowed::{NOT_NEEDED, UNKNOWN_NAME, push_unknown};
use croncheck_report::report::{JobReport, Report, SettingReport, Why};
use croncheck_warnings::presets::{PRESET, Reading};
use croncheck_warnings::warnings::{OtherWarning, SAME_JOB, Warning};
use croner::parser::PatternField;
use crontab::line::Fault;
use crontab::notes;
use crontab::notes::Note;
use fields::{Written, text_of, written_of};
use places::{content_extent, place_of, times_extent};
use reasons::{bytes_at_fault, push_why};
use std::alloc::{AllocError, Global};

/// A place in a line, without its line feed.
#[derive(Clone, Copy, Drop)]
pub struct Extent {
    /// The byte at which it begins, from 0.
    pub start: usize,
    /// The byte after its last one.
    pub end: usize,
}

/// Something that is found of a line or of a file.
pub struct Finding {
    pub severity: Severity,
    /// The name by which it is known, as `either-day`. For a line that is refused it is the kind of the refusal, as `minutes`.
    pub name: &'static str,
    /// The name of the field that it is about, if it is about one.
    pub field: Option<&'static str>,
    /// The place of the field, or else that of the line's times or its setting; for a refused line, the place of the fault. It is empty for
    /// a finding of a file.
    pub extent: Extent,
    /// What it says. It has no more of the line than the bytes at fault.
    pub text: String,
}

// By hand, so that a function that lets one go calls this one: its proof doesn't go through the fields at each exit.
impl Drop for Finding {
    fn drop(self) {
        let Finding {
            severity: _,
            name: _,
            field: _,
            extent: _,
            text: _,
        } = self;
    }
}

/// What is found of a line with this report. The line is given without its line feed.
///
/// Of a job these are, in this order, its notes, its own warnings, those of changes of the clock, an earlier job that is the same, and the
/// names that are allowed in vain. Of a refused line it is why it is refused, its notes, and what the program of a preset accepts; of a
/// setting its warnings; and of a comment the first name that it allows and that no warning has.
///
/// That the last line has no line feed, or that there are too many lines, is found of the file. The only error is lack of memory.
pub fn findings_of(
    alloc: Global,
    line: &[u8],
    report: &Report<'_, '_>,
) -> Result<Vec<Finding>, AllocError>
    ensures { IfOk result (λ found. findings_seen found.items ≡ findings_of_line line.now report.now) }
{
    let mut found = Vec::new(alloc);
    push_findings(alloc, &mut found, line, report)?;
    Ok(found)
}

/// What is found of a pattern with this report if only its meaning is told: for a pattern that is read, what another program reads
/// differently; for any other, what `findings_of` gives. The only error is lack of memory.
pub fn findings_described(
    alloc: Global,
    pattern: &[u8],
    report: &Report<'_, '_>,
) -> Result<Vec<Finding>, AllocError>
    ensures { IfOk result (λ found. findings_seen found.items ≡ described pattern.now report.now) }
{
    match report {
        Report::Job(job) => findings_of_preset(alloc, pattern, job),
        Report::Silent | Report::Misnamed(_) | Report::Setting { .. } | Report::Refused { .. } => {
            findings_of(alloc, pattern, report)
        }
    }
}

fn findings_of_preset(
    alloc: Global,
    pattern: &[u8],
    job: &JobReport<'_, '_>,
) -> Result<Vec<Finding>, AllocError>
    ensures { IfOk result (λ found. findings_seen found.items ≡ map (finding_of_warning pattern.now job.now.schedule.now) (filter is_of_preset job.now.warnings.items)) }
{
    let mut found = Vec::new(alloc);
    let told = those_of_preset(alloc, job.warnings.as_slice())?;
    let written = written_of(alloc, job)?;
    push_each_warning(
        alloc,
        &mut found,
        pattern,
        job.schedule,
        told.as_slice(),
        &written,
    )?;
    Ok(found)
}

fn those_of_preset(alloc: Global, warnings: &[Warning]) -> Result<Vec<Warning>, AllocError>
    ensures { IfOk result (λ told. told.items ≡ filter is_of_preset warnings.now) }
{
    let mut told = Vec::new(alloc);
    for warning in warnings {
        if is_of_preset(*warning) {
            told.push(*warning)?;
        }
    }
    Ok(told)
}

fn is_of_preset(warning: Warning) -> bool
    ensures { result ≡ is_of_preset warning }
{
    match warning {
        Warning::Preset(_) => true,
        _ => false,
    }
}

fn push_findings(
    alloc: Global,
    found: &mut Vec<Finding>,
    line: &[u8],
    report: &Report<'_, '_>,
) -> Result<(), AllocError>
    ensures { OnOk result (findings_seen found.new.items ≡ findings_seen found.old.items ++ findings_of_line line.now report.now) }
{
    match report {
        Report::Silent => Ok(()),
        Report::Misnamed(name) => push_unknown_name(alloc, found, line, name),
        Report::Setting { setting, .. } => push_setting(alloc, found, line, *setting),
        Report::Job(job) => push_job(alloc, found, line, job),
        Report::Refused { start, end, why } => push_refused(
            alloc,
            found,
            line,
            Extent {
                start: *start,
                end: *end,
            },
            why,
        ),
    }
}

// ---- a refused line

fn push_refused(
    alloc: Global,
    found: &mut Vec<Finding>,
    line: &[u8],
    extent: Extent,
    why: &Why,
) -> Result<(), AllocError>
    ensures { OnOk result (findings_seen found.new.items ≡ findings_seen found.old.items
        ++ (finding_without_field Severity.Error (refusal_kind why.now) extent
        ∷ (map (finding_of_note extent) (notes_of_refusal why.now line.now) ++ map (finding_of_reading extent) (taken_of why.now)))) }
{
    found.push(refusal(alloc, line, extent, why)?)?;
    let noted = why.notes(alloc, line)?;
    push_notes(alloc, found, extent, noted.as_slice())?;
    push_readings(alloc, found, extent, why.readings_taken())
}

// What another program accepts.
fn push_readings(
    alloc: Global,
    found: &mut Vec<Finding>,
    extent: Extent,
    readings: &[Reading],
) -> Result<(), AllocError>
    ensures { OnOk result (findings_seen found.new.items ≡ findings_seen found.old.items ++ map (finding_of_reading extent) readings.now) }
{
    for reading in readings {
        found.push(finding_of_reading(alloc, extent, *reading)?)?;
    }
    Ok(())
}

fn finding_of_reading(
    alloc: Global,
    extent: Extent,
    reading: Reading,
) -> Result<Finding, AllocError>
    ensures { IfOk result (λ f. finding_seen f ≡ finding_of_reading extent reading) }
{
    let text = reading.sentence(alloc)?;
    Ok(finding_without_field(Severity::Note, PRESET, extent, text))
}

fn refusal(alloc: Global, line: &[u8], extent: Extent, why: &Why) -> Result<Finding, AllocError>
    ensures { IfOk result (λ f. finding_seen f ≡ finding_without_field Severity.Error (refusal_kind why.now) extent) }
{
    let mut text = String::new(alloc);
    let piece = bytes_at_fault(line, extent.start, extent.end);
    push_why(alloc, &mut text, line, piece, why)?;
    Ok(finding_without_field(Severity::Error, kind_of_why(why), extent, text))
}

// A finding of no field.
fn finding_without_field(
    severity: Severity,
    name: &'static str,
    extent: Extent,
    text: String,
) -> Finding
    ensures { finding_seen result ≡ finding_without_field severity name.now extent }
{
    Finding {
        severity,
        name,
        field: None,
        extent,
        text,
    }
}

fn kind_of_fault(fault: Fault) -> &'static str
    ensures { result.now ≡ fault_kind fault }
{
    match fault {
        Fault::Nul => "nul",
        Fault::Minutes => "minutes",
        Fault::Hours => "hours",
        Fault::Days => "days",
        Fault::Months => "months",
        Fault::Weekdays => "weekdays",
        Fault::Nickname => "nickname",
        Fault::User => "user",
        Fault::Command => "command",
        Fault::LongCommand => "long-command",
    }
}

fn kind_of_why(why: &Why) -> &'static str
    ensures { result.now ≡ refusal_kind why.now }
{
    match why {
        Why::Cron(fault) | Why::AfterOpenLine(fault) => kind_of_fault(*fault),
        Why::Pattern(_, _) => "pattern",
        Why::Crate(_) => "text",
        Why::NotText => "not-utf-8",
        Why::NoUser => "unknown-user",
    }
}

// ---- notes of a line's bytes

fn push_notes(
    alloc: Global,
    found: &mut Vec<Finding>,
    extent: Extent,
    all: &[Note],
) -> Result<(), AllocError>
    ensures { OnOk result (findings_seen found.new.items ≡ findings_seen found.old.items ++ map (finding_of_note extent) all.now) }
{
    for note in all {
        found.push(finding_of_note(alloc, extent, *note)?)?;
    }
    Ok(())
}

fn finding_of_note(alloc: Global, extent: Extent, note: Note) -> Result<Finding, AllocError>
    ensures { IfOk result (λ f. finding_seen f ≡ finding_of_note extent note) }
{
    let text = String::from_str(alloc, notes::text(note))?;
    Ok(finding_without_field(Severity::Note, note.name(), extent, text))
}

// ---- a setting

fn push_setting(
    alloc: Global,
    found: &mut Vec<Finding>,
    line: &[u8],
    setting: SettingReport,
) -> Result<(), AllocError>
    ensures { OnOk result (findings_seen found.new.items ≡ findings_seen found.old.items ++ findings_of_setting line.now setting) }
{
    push_if(
        alloc,
        found,
        line,
        setting.is_hiding,
        OtherWarning::ControlByte,
    )?;
    push_if(alloc, found, line, setting.is_zone, OtherWarning::NoZone)?;
    push_if(
        alloc,
        found,
        line,
        setting.has_no_effect,
        OtherWarning::NoEffect,
    )?;
    push_if(
        alloc,
        found,
        line,
        setting.is_not_expanded,
        OtherWarning::NotExpanded,
    )?;
    push_if(
        alloc,
        found,
        line,
        setting.sends_no_mail,
        OtherWarning::NoMail,
    )
}

// A warning of a setting, if it holds.
fn push_if(
    alloc: Global,
    found: &mut Vec<Finding>,
    line: &[u8],
    holds: bool,
    warning: OtherWarning,
) -> Result<(), AllocError>
    ensures { OnOk result (findings_seen found.new.items ≡ findings_seen found.old.items ++ only_if holds (of_setting line.now warning)) }
{
    if holds {
        let text = String::from_str(alloc, warning.text())?;
        let extent = content_extent(line);
        found.push(finding_without_field(Severity::Warning, warning.name(), extent, text))?;
    }
    Ok(())
}

// ---- a job

fn push_job(
    alloc: Global,
    found: &mut Vec<Finding>,
    line: &[u8],
    job: &JobReport<'_, '_>,
) -> Result<(), AllocError>
    ensures { OnOk result (findings_seen found.new.items ≡ findings_seen found.old.items ++ findings_of_job line.now job.now) }
{
    let extent = times_extent(line, job.schedule);
    let noted = job.notes(alloc, line)?;
    push_notes(alloc, found, extent, noted.as_slice())?;
    push_warnings(alloc, found, line, job)?;
    push_meetings(alloc, found, extent, &job.meetings)?;
    push_same_job(alloc, found, extent, job)?;
    push_unneeded(alloc, found, extent, job.unneeded.as_slice())
}

// The job's own warnings that are told below its line.
fn push_warnings(
    alloc: Global,
    found: &mut Vec<Finding>,
    line: &[u8],
    job: &JobReport<'_, '_>,
) -> Result<(), AllocError>
    ensures { OnOk result (findings_seen found.new.items ≡ findings_seen found.old.items
        ++ map (finding_of_warning line.now job.now.schedule.now) (filter is_told_below job.now.warnings.items)) }
{
    let told = warnings_told_below(alloc, job.warnings.as_slice())?;
    let written = written_of(alloc, job)?;
    push_each_warning(alloc, found, line, job.schedule, told.as_slice(), &written)
}

// Of some warnings those that are told below their line.
fn warnings_told_below(alloc: Global, warnings: &[Warning]) -> Result<Vec<Warning>, AllocError>
    ensures { IfOk result (λ told. told.items ≡ filter is_told_below warnings.now) }
{
    let mut told = Vec::new(alloc);
    for warning in warnings {
        if is_told_below(*warning) {
            told.push(*warning)?;
        }
    }
    Ok(told)
}

// Whether a warning is told below its line: that a line feed is missing is told at the end of the file.
fn is_told_below(warning: Warning) -> bool
    ensures { result ≡ is_told_below warning }
{
    match warning {
        Warning::NoNewline => false,
        Warning::EitherDay
        | Warning::UnevenStep(_)
        | Warning::StepBeyond(_)
        | Warning::RangeDown(_)
        | Warning::PassedOver(_)
        | Warning::LargeNumber(_)
        | Warning::WholeHour
        | Warning::ShortMonths
        | Warning::Gone
        | Warning::Never
        | Warning::NoCommand
        | Warning::LooksLikeField
        | Warning::User
        | Warning::Percent
        | Warning::Continued
        | Warning::ControlByte
        | Warning::CarriageReturn
        | Warning::EmptyItem
        | Warning::OtherName(_)
        | Warning::Preset(_) => true,
    }
}

fn push_each_warning(
    alloc: Global,
    found: &mut Vec<Finding>,
    line: &[u8],
    times: &[u8],
    warnings: &[Warning],
    written: &Written<'_>,
) -> Result<(), AllocError>
    ensures { OnOk result (findings_seen found.new.items ≡ findings_seen found.old.items ++ map (finding_of_warning line.now times.now) warnings.now) }
{
    for warning in warnings {
        found.push(finding_of_warning(alloc, line, times, *warning, written)?)?;
    }
    Ok(())
}

fn finding_of_warning(
    alloc: Global,
    line: &[u8],
    times: &[u8],
    warning: Warning,
    written: &Written<'_>,
) -> Result<Finding, AllocError>
    ensures { IfOk result (λ f. finding_seen f ≡ finding_of_warning line.now times.now warning) }
{
    let text = text_of(alloc, warning, written)?;
    Ok(Finding {
        severity: severity_of(warning),
        name: warning.name(),
        field: name_of_field(warning.field()),
        extent: place_of(line, times, warning.field()),
        text,
    })
}

// How grave a warning is: that another program refuses the pattern is a fault.
fn severity_of(warning: Warning) -> Severity
    ensures { result ≡ severity_of warning }
{
    if warning.is_refusal_elsewhere() {
        Severity::Error
    } else {
        Severity::Warning
    }
}

fn name_of_field(field: Option<PatternField>) -> Option<&'static str>
    ensures { option_map (λ name. name.now) result ≡ option_map field_name field }
{
    match field {
        Some(field) => Some(field_name(field)),
        None => None,
    }
}

// ---- names that are allowed

fn push_unknown_name(
    alloc: Global,
    found: &mut Vec<Finding>,
    line: &[u8],
    name: &[u8],
) -> Result<(), AllocError>
    ensures { OnOk result (findings_seen found.new.items
        ≡ findings_seen found.old.items ++ finding_without_field Severity.Warning UNKNOWN_NAME.now (content_extent line.now) ∷ []) }
{
    let mut text = String::new(alloc);
    push_unknown(alloc, &mut text, name)?;
    let extent = content_extent(line);
    found.push(finding_without_field(Severity::Warning, UNKNOWN_NAME, extent, text))?;
    Ok(())
}

fn push_unneeded(
    alloc: Global,
    found: &mut Vec<Finding>,
    extent: Extent,
    names: &[&'static str],
) -> Result<(), AllocError>
    ensures { OnOk result (findings_seen found.new.items ≡ findings_seen found.old.items ++ map (finding_of_unneeded extent) names.now) }
{
    for name in names {
        found.push(finding_of_unneeded(alloc, extent, name)?)?;
    }
    Ok(())
}

fn finding_of_unneeded(alloc: Global, extent: Extent, name: &str) -> Result<Finding, AllocError>
    ensures { IfOk result (λ f. finding_seen f ≡ finding_without_field Severity.Warning NOT_NEEDED.now extent) }
{
    let text = format!(in alloc;
        "The comment above allows {name}, but no warning here has this name. Take the name out, or look for a line that was changed."
    )?;
    Ok(finding_without_field(Severity::Warning, NOT_NEEDED, extent, text))
}

// ---- changes of the clock, and an earlier job

// The warnings of changes of the clock.
fn push_meetings(
    alloc: Global,
    found: &mut Vec<Finding>,
    extent: Extent,
    meetings: &Meetings,
) -> Result<(), AllocError>
    ensures { OnOk result (findings_seen found.new.items ≡ findings_seen found.old.items ++ of_meetings extent meetings.now) }
{
    push_range(alloc, found, extent, &meetings.gap)?;
    push_range(alloc, found, extent, &meetings.repeated)
}

fn push_range(
    alloc: Global,
    found: &mut Vec<Finding>,
    extent: Extent,
    met: &Option<Met>,
) -> Result<(), AllocError>
    ensures { OnOk result (findings_seen found.new.items ≡ findings_seen found.old.items ++ of_range extent met.now) }
{
    match met {
        Some(met) if met.is_warned() => {
            found.push(finding_of_change(alloc, extent, met)?)?;
            Ok(())
        }
        _ => Ok(()),
    }
}

fn finding_of_change(alloc: Global, extent: Extent, met: &Met) -> Result<Finding, AllocError>
    ensures { IfOk result (λ f. finding_seen f ≡ finding_of_change extent met.now) }
{
    let mut text = String::new(alloc);
    met.meeting.push_text(&mut text)?;
    Ok(finding_without_field(Severity::Warning, met.meeting.name(), extent, text))
}

fn push_same_job(
    alloc: Global,
    found: &mut Vec<Finding>,
    extent: Extent,
    job: &JobReport<'_, '_>,
) -> Result<(), AllocError>
    ensures { OnOk result (findings_seen found.new.items
        ≡ findings_seen found.old.items ++ only_if (is_some job.now.same) (finding_without_field Severity.Warning SAME_JOB.now extent)) }
{
    if job.same.is_some() {
        let mut text = String::new(alloc);
        push_same(&mut text, job)?;
        found.push(finding_without_field(Severity::Warning, SAME_JOB, extent, text))?;
    }
    Ok(())
}

// What is said of a job that is the same as an earlier one.
fn push_same(text: &mut String, job: &JobReport<'_, '_>) -> Result<(), AllocError> {
    let Some(same) = &job.same else {
        return Ok(());
    };
    let what = if job.command.is_some() {
        "times and command"
    } else {
        "times"
    };
    let (file, line) = (same.file.as_str(), same.line);
    write!(
        text,
        "The same {what} stand in {file}, line {line}: both lines run. Take one out, if one run is meant."
    )
}

// The name of a field as warnings have it.
fn field_name(field: PatternField) -> &'static str
    ensures { result.now ≡ field_name field }
{
    match field {
        PatternField::Seconds => "seconds",
        PatternField::Minutes => "minutes",
        PatternField::Hours => "hours",
        PatternField::DayOfMonth => "days of the month",
        PatternField::Month => "months",
        PatternField::Weekday => "weekdays",
        PatternField::Year => "years",
    }
}
