//! What is shown: refusals, orders and lists as JSON values, and what fields, patterns and jobs hold as JSON texts.

use crate::{Fault, Moment, Result};
use croner::component::{
    ALL_BIT, CLOSEST_WEEKDAY_BIT, CronComponent, LAST_BIT, NTH_1ST_BIT, NTH_2ND_BIT, NTH_3RD_BIT,
    NTH_4TH_BIT, NTH_5TH_BIT,
};
use croner::errors::CronError;
use croner::{Cron, CronPattern, JobType};
use serde_json::Value;
use std::alloc::{AllocError, Global};
use std::cmp::Ordering;

const MODIFIERS: [(&str, u8); 8] = [
    ("plain", ALL_BIT),
    ("nth1", NTH_1ST_BIT),
    ("nth2", NTH_2ND_BIT),
    ("nth3", NTH_3RD_BIT),
    ("nth4", NTH_4TH_BIT),
    ("nth5", NTH_5TH_BIT),
    ("last", LAST_BIT),
    ("nearest", CLOSEST_WEEKDAY_BIT),
];

/// A refusal: the name of its variant.
pub fn refusal(error: &CronError) -> &'static str {
    match error {
        CronError::EmptyPattern => "EmptyPattern",
        CronError::InvalidDate => "InvalidDate",
        CronError::InvalidTime => "InvalidTime",
        CronError::TimeSearchLimitExceeded => "TimeSearchLimitExceeded",
        CronError::InvalidPattern(_) => "InvalidPattern",
        CronError::IllegalCharacters(_) => "IllegalCharacters",
        CronError::ComponentError(_) => "ComponentError",
        CronError::OutOfMemory => "OutOfMemory",
    }
}

/// A refusal as a JSON value. Lack of memory isn't a refusal, but a fault.
pub fn refusal_value(alloc: Global, error: &CronError) -> Result<Value> {
    match error {
        CronError::OutOfMemory => Err(Fault::OutOfMemory),
        error => text(alloc, refusal(error)),
    }
}

/// An answer, or its refusal.
pub fn answer_or_refusal(alloc: Global, answer: Result<Value>) -> Result<Value> {
    match answer {
        Err(Fault::Refused(error)) => refusal_value(alloc, &error),
        answer => answer,
    }
}

/// An order: the name of its variant.
pub fn ordering(order: Ordering) -> &'static str {
    match order {
        Ordering::Less => "Less",
        Ordering::Equal => "Equal",
        Ordering::Greater => "Greater",
    }
}

/// A text.
pub fn text(alloc: Global, text: &str) -> Result<Value> {
    Ok(Value::try_from_str(alloc, text)?)
}

/// The JSON value of a text's bytes.
pub fn json(alloc: Global, text: &[u8]) -> Result<Value> {
    match Value::from_slice(alloc, text) {
        Ok(value) => Ok(value),
        Err(error) if error.is_memory() => Err(Fault::OutOfMemory),
        Err(_) => Err(Fault::Malformed),
    }
}

/// The JSON value of a text that was built.
pub fn object(alloc: Global, text: Result<String, AllocError>) -> Result<Value> {
    let text = text?;
    json(alloc, text.as_bytes())
}

/// A value as a text; that of a text is without quotes.
pub fn bare(alloc: Global, value: Value) -> Result<String> {
    match value {
        Value::String(text) => Ok(text),
        value => Ok(value.to_string(alloc)?),
    }
}

/// Two values as a list.
pub fn pair(alloc: Global, one: Value, other: Value) -> Result<Value> {
    let mut both = Vec::new(alloc);
    both.push(one)?;
    both.push(other)?;
    Ok(Value::Array(both))
}

/// Numbers as a list.
pub fn numbers<N: Copy + Into<Value>>(alloc: Global, numbers: &[N]) -> Result<Value> {
    let mut list = Vec::new(alloc);
    for number in numbers {
        list.push((*number).into())?;
    }
    Ok(Value::Array(list))
}

/// Times as a list.
pub fn times<T: Moment>(alloc: Global, times: &[T]) -> Result<Value> {
    let mut list = Vec::new(alloc);
    for time in times {
        list.push(time.shown(alloc)?)?;
    }
    Ok(Value::Array(list))
}

/// Appends an item to the others of a text, with a comma between.
pub fn add_item(list: &mut String, item: &str) -> Result<(), AllocError> {
    if !list.is_empty() {
        list.push_str(",")?;
    }
    list.push_str(item)
}

// Appends a member to the others: its name and its value.
fn add_member(alloc: Global, members: &mut String, name: &str, value: &str) -> Result<()> {
    let member = format!(in alloc; "\"{name}\":{value}")?;
    Ok(add_item(members, member.as_str())?)
}

// Ascending values as the list of their longest runs, each by its first and its last value.
fn spans(alloc: Global, values: &[u16]) -> Result<String> {
    let mut list = String::new(alloc);
    let mut open: Option<(u16, u16)> = None;
    for value in values {
        open = match open {
            Some((first, last)) if last.checked_add(1) == Some(*value) => Some((first, *value)),
            Some((first, last)) => {
                add_span(alloc, &mut list, first, last)?;
                Some((*value, *value))
            }
            None => Some((*value, *value)),
        };
    }
    if let Some((first, last)) = open {
        add_span(alloc, &mut list, first, last)?;
    }
    Ok(format!(in alloc; "[{list}]")?)
}

fn add_span(alloc: Global, list: &mut String, first: u16, last: u16) -> Result<(), AllocError> {
    let span = format!(in alloc; "[{first},{last}]")?;
    add_item(list, span.as_str())
}

/// Ascending values as the list of their longest runs.
pub fn runs(alloc: Global, values: &[u16]) -> Result<Value> {
    let spans = spans(alloc, values)?;
    json(alloc, spans.as_bytes())
}

// The values of each modifier that has any.
fn marks(alloc: Global, component: &CronComponent) -> Result<String> {
    let mut marks = String::new(alloc);
    for (name, bit) in MODIFIERS {
        let values = component.get_set_values(bit)?;
        if !values.is_empty() {
            let spans = spans(alloc, values.as_slice())?;
            add_member(alloc, &mut marks, name, spans.as_str())?;
        }
    }
    Ok(marks)
}

// The sum of the bits that are enabled.
fn enabled_bits(component: &CronComponent) -> u8 {
    let mut enabled = 0;
    for (_, bit) in MODIFIERS {
        if component.is_feature_enabled(bit) {
            enabled |= bit;
        }
    }
    enabled
}

/// What a field holds.
pub fn field(alloc: Global, component: &CronComponent) -> Result<String> {
    let marks = marks(alloc, component)?;
    let (enabled, step) = (enabled_bits(component), component.step());
    let wildcard = component.from_wildcard();
    Ok(format!(in alloc;
        "{{\"marks\":{{{marks}}},\"enabled\":{enabled},\"step\":{step},\"wildcard\":{wildcard}}}"
    )?)
}

fn fields_of(pattern: &CronPattern) -> [(&'static str, &CronComponent); 7] {
    [
        ("seconds", &pattern.seconds),
        ("minutes", &pattern.minutes),
        ("hours", &pattern.hours),
        ("days", &pattern.days),
        ("months", &pattern.months),
        ("days_of_week", &pattern.days_of_week),
        ("years", &pattern.years),
    ]
}

fn fields(alloc: Global, pattern: &CronPattern) -> Result<String> {
    let mut fields = String::new(alloc);
    for (name, of) in fields_of(pattern) {
        let field = field(alloc, of)?;
        add_member(alloc, &mut fields, name, field.as_str())?;
    }
    Ok(fields)
}

// The text and the flags of a pattern.
fn head(alloc: Global, pattern: &CronPattern) -> Result<String> {
    let (text, and) = (
        text(alloc, pattern.as_str())?,
        pattern.matches_dom_and_dow(),
    );
    let (day, weekday) = (pattern.is_dom_wildcard(), pattern.is_dow_wildcard());
    Ok(format!(in alloc;
        "\"as_str\":{text},\"star_day\":{day},\"star_weekday\":{weekday},\"and\":{and}"
    )?)
}

/// What a pattern holds.
pub fn pattern(alloc: Global, pattern: &CronPattern) -> Result<String> {
    held_text(alloc, pattern, "")
}

fn held_text(alloc: Global, pattern: &CronPattern, kind: &str) -> Result<String> {
    let (head, fields) = (head(alloc, pattern)?, fields(alloc, pattern)?);
    Ok(format!(in alloc; "{{{head}{kind},\"fields\":{{{fields}}}}}")?)
}

/// The name of a kind of job.
pub fn job_type(kind: JobType) -> &'static str {
    match kind {
        JobType::FixedTime => "FixedTime",
        JobType::IntervalWildcard => "IntervalWildcard",
    }
}

/// What a job holds: its pattern, and its kind.
pub fn job(alloc: Global, cron: &Cron) -> Result<String> {
    let kind = job_type(cron.determine_job_type());
    let kind = format!(in alloc; ",\"job_type\":\"{kind}\"")?;
    held_text(alloc, &cron.pattern, kind.as_str())
}

/// Adds what a field holds to a text.
pub fn add_field(alloc: Global, component: &CronComponent, text: &mut String) -> Result<()> {
    let held = field(alloc, component)?;
    Ok(text.push_str(held.as_str())?)
}

/// Adds what a pattern holds to a text.
pub fn add_pattern(alloc: Global, pattern: &CronPattern, text: &mut String) -> Result<()> {
    let held = held_text(alloc, pattern, "")?;
    Ok(text.push_str(held.as_str())?)
}

/// Adds what a job holds to a text.
pub fn add_job(alloc: Global, cron: &Cron, text: &mut String) -> Result<()> {
    let held = job(alloc, cron)?;
    Ok(text.push_str(held.as_str())?)
}
