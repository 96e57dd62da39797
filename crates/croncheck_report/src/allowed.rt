//! What is allowed: names of warnings that the words of the call or a comment above a line take away.
ghost use Rattle.std.specs.Prelude.{◌≡◌, filter, not, IfOk, OnOk, ◌&&◌};
ghost use Rattle.std.specs.List.{list_any};
ghost use Rattle.std.specs.Str.{bytes_eq};
ghost use Rattle.croncheck_report.specs.Allowed.{allowable, is_listed, names_seen, is_allowed, is_met_allowed, met_left, meetings_left, warnings_left, setting_left, hangs_on_clock, may_be_same, may_stand, names_not_needed, IsJobLeft, IsLeft};
ghost use Rattle.croncheck_warnings.specs.Warnings.{warning_name, other_name};

pub mod comment;
mod nearest;

use crate::report::{JobReport, Report, SettingReport};
use crate::settings::Settings;
use croncheck_changes::changes::meetings::{Meetings, Met};
use croncheck_warnings::presets::PRESET;
use croncheck_warnings::warnings::{OtherWarning, SAME_JOB, Warning};
pub use nearest::{nearest_name, push_unknown};
use std::alloc::{AllocError, Global};

/// The names of the warnings that may be allowed, in the order of the table in docs/CRONTAB.md.
///
/// That a crontab's last line has no line feed, or that it has too many lines, can't be allowed: cron ignores such a file.
pub const ALLOWABLE: [&str; 27] = [
    "either-day",
    "uneven-step",
    "step-beyond",
    "range-down",
    "passed-over",
    "large-number",
    "whole-hour",
    "short-months",
    "gone",
    "never",
    "no-command",
    "looks-like-field",
    "user",
    "percent",
    "continued",
    "control-byte",
    "carriage-return",
    "empty-item",
    "other-name",
    PRESET,
    "no-zone",
    "no-effect",
    "not-expanded",
    "no-mail",
    "gap",
    "twice",
    "same-job",
];

/// The name of the warning that a comment allows a warning which isn't there.
pub const NOT_NEEDED: &str = "not-needed";

/// The name of the warning that a comment allows a name which no warning has.
pub const UNKNOWN_NAME: &str = "unknown-name";

// Whether a name is among these.
fn is_listed(names: &[&str], name: &[u8]) -> bool
    ensures { result ≡ is_listed (names_seen names.now) name.now }
{
    is_one_of(names, name)
}

fn is_one_of(names: &[&str], name: &[u8]) -> bool
    ensures { result ≡ list_any (λ n. bytes_eq n.now name.now) names.now }
{
    names.iter().any(|known| is_text(known, name))
}

fn is_text(known: &str, name: &[u8]) -> bool
    ensures { result ≡ bytes_eq known.now name.now }
{
    known.as_bytes() == name
}

// Whether the words of the call or the comment above a line allow a name.
fn is_allowed(settings: &Settings<'_>, above: &[&str], name: &str) -> bool
    ensures { result ≡ is_allowed settings.now (names_seen above.now) name.now }
{
    is_listed(settings.allowed, name.as_bytes()) || is_listed(above, name.as_bytes())
}

/// Takes out of the report of a line the warnings that the words of the call and the comment above the line allow. If the
/// settings are strict, a job's report gets the names that the comment allows in vain: no such warning is there, nor would
/// one be in another call or at another time.
///
/// The only error is lack of memory; what is left in the report is then unspecified.
pub fn take_away(
    alloc: Global,
    settings: &Settings<'_>,
    above: &[&'static str],
    report: &mut Report<'_, '_>,
) -> Result<(), AllocError>
    ensures { OnOk result (IsLeft settings.now (names_seen above.now) report.old report.new) }
{
    match report {
        Report::Silent | Report::Misnamed(_) | Report::Refused { .. } => Ok(()),
        Report::Setting { setting, .. } => {
            *setting = setting_left(settings, above, *setting);
            Ok(())
        }
        Report::Job(job) => take_from_job(alloc, settings, above, job),
    }
}

// What is left of what is found of a setting.
fn setting_left(settings: &Settings<'_>, above: &[&str], seen: SettingReport) -> SettingReport
    ensures { result ≡ setting_left settings.now (names_seen above.now) seen }
{
    SettingReport {
        is_zone: is_left(settings, above, seen.is_zone, OtherWarning::NoZone),
        has_no_effect: is_left(settings, above, seen.has_no_effect, OtherWarning::NoEffect),
        is_not_expanded: is_left(
            settings,
            above,
            seen.is_not_expanded,
            OtherWarning::NotExpanded,
        ),
        sends_no_mail: is_left(settings, above, seen.sends_no_mail, OtherWarning::NoMail),
        is_hiding: is_left(settings, above, seen.is_hiding, OtherWarning::ControlByte),
    }
}

// Whether a warning of a setting stands, and isn't allowed.
fn is_left(settings: &Settings<'_>, above: &[&str], stands: bool, warning: OtherWarning) -> bool
    ensures { result ≡ (stands && not (is_allowed settings.now (names_seen above.now) (other_name warning))) }
{
    stands && !is_allowed(settings, above, warning.name())
}

// ---- a job

fn take_from_job(
    alloc: Global,
    settings: &Settings<'_>,
    above: &[&'static str],
    job: &mut JobReport<'_, '_>,
) -> Result<(), AllocError>
    ensures { OnOk result (IsJobLeft settings.now (names_seen above.now) job.old job.new) }
{
    let unneeded = names_not_needed(alloc, settings, above, job)?;
    let warnings = warnings_left(alloc, settings, above, job.warnings.as_slice())?;
    job.unneeded = unneeded;
    job.warnings = warnings;
    job.meetings = meetings_left(settings, above, job.meetings);
    if is_allowed(settings, above, SAME_JOB) {
        job.same = None;
    }
    Ok(())
}

// The warnings that aren't allowed.
fn warnings_left(
    alloc: Global,
    settings: &Settings<'_>,
    above: &[&str],
    warnings: &[Warning],
) -> Result<Vec<Warning>, AllocError>
    ensures { IfOk result (λ left. left.items ≡ warnings_left settings.now (names_seen above.now) warnings.now) }
{
    let mut left = Vec::new(alloc);
    for warning in warnings {
        if !is_allowed(settings, above, warning.name()) {
            left.push(*warning)?;
        }
    }
    Ok(left)
}

// What is left of the changes that meet a job.
fn meetings_left(settings: &Settings<'_>, above: &[&str], meetings: Meetings) -> Meetings
    ensures { result ≡ meetings_left settings.now (names_seen above.now) meetings }
{
    Meetings {
        gap: met_left(settings, above, meetings.gap),
        repeated: met_left(settings, above, meetings.repeated),
    }
}

fn met_left(settings: &Settings<'_>, above: &[&str], met: Option<Met>) -> Option<Met>
    ensures { result ≡ met_left settings.now (names_seen above.now) met }
{
    match met {
        Some(met) if is_met_allowed(settings, above, met) => None,
        _ => met,
    }
}

fn is_met_allowed(settings: &Settings<'_>, above: &[&str], met: Met) -> bool
    ensures { result ≡ is_met_allowed settings.now (names_seen above.now) met }
{
    met.is_warned() && is_allowed(settings, above, met.meeting.name())
}

// ---- what is allowed in vain

// The names that the comment above a job allows in vain, if the settings are strict.
fn names_not_needed(
    alloc: Global,
    settings: &Settings<'_>,
    above: &[&'static str],
    job: &JobReport<'_, '_>,
) -> Result<Vec<&'static str>, AllocError>
    ensures { IfOk result (λ names. names_seen names.items ≡ names_not_needed settings.now (names_seen above.now) job.now) }
{
    if settings.is_strict {
        strict_names_in_vain(alloc, settings, above, job)
    } else {
        Ok(Vec::new(alloc))
    }
}

// The names that the comment above a job allows in vain.
fn strict_names_in_vain(
    alloc: Global,
    settings: &Settings<'_>,
    above: &[&'static str],
    job: &JobReport<'_, '_>,
) -> Result<Vec<&'static str>, AllocError>
    ensures { IfOk result (λ names. names_seen names.items ≡ filter (λ name. not (may_stand settings.now job.now name)) (names_seen above.now)) }
{
    let names = names_in_vain(alloc, settings, above, job)?;
    Ok(names)
}

fn names_in_vain(
    alloc: Global,
    settings: &Settings<'_>,
    above: &[&'static str],
    job: &JobReport<'_, '_>,
) -> Result<Vec<&'static str>, AllocError>
    ensures { IfOk result (λ names. names.items ≡ filter (λ name. not (may_stand settings.now job.now name.now)) above.now) }
{
    let mut names = Vec::new(alloc);
    for name in above {
        if !may_stand(settings, job, name) {
            names.push(*name)?;
        }
    }
    Ok(names)
}

// Whether a warning of this name stands at a job, or may stand there: in another call, or at another time.
fn may_stand(settings: &Settings<'_>, job: &JobReport<'_, '_>, name: &str) -> bool
    ensures { result ≡ may_stand settings.now job.now name.now }
{
    any_named(job.warnings.as_slice(), name)
        || is_same(name, SAME_JOB) && may_be_same(settings, job)
        || is_same(name, PRESET) && settings.preset.is_none()
        || hangs_on_clock(name)
}

fn any_named(warnings: &[Warning], name: &str) -> bool
    ensures { result ≡ list_any (λ w. bytes_eq (warning_name w) name.now) warnings.now }
{
    warnings.iter().any(|warning| is_named(*warning, name))
}

fn is_named(warning: Warning, name: &str) -> bool
    ensures { result ≡ bytes_eq (warning_name warning) name.now }
{
    is_same(warning.name(), name)
}

fn is_same(name: &str, other: &str) -> bool
    ensures { result ≡ bytes_eq name.now other.now }
{
    name == other
}

// Whether an earlier job is the same, or jobs aren't compared.
fn may_be_same(settings: &Settings<'_>, job: &JobReport<'_, '_>) -> bool
    ensures { result ≡ may_be_same settings.now job.now }
{
    job.same.is_some() || !settings.compares_jobs
}

// Whether a warning of this name hangs on the zone or on the date.
fn hangs_on_clock(name: &str) -> bool
    ensures { result ≡ hangs_on_clock name.now }
{
    is_same(name, "gap")
        || is_same(name, "twice")
        || is_same(name, "never")
        || is_same(name, "gone")
}
