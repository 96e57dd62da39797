//! Calls of one field.

use crate::{Caller, Fault, Result, items, list, member, number, parts, shown, word};
use croner::CronComponent;
use croner::component::{ALL_BIT, LAST_BIT};
use croner::errors::CronError;
use serde_json::Value;
use std::alloc::Global;
use std::hash::{DefaultHasher, Hash, Hasher};

/// What a call of a field answers.
#[derive(Drop)]
pub enum Given {
    Done,
    Value(Value),
    Values(Vec<u16>),
    Readers([i64; 8], u64),
}

/// Makes a call of a field. The call is a list of its name and its arguments.
pub fn make(alloc: Global, field: &mut CronComponent, call: &Value) -> Result<Given> {
    match items(call)? {
        [name] => ask(alloc, field, word(name)?),
        [name, given] => call_with(field, word(name)?, given),
        [name, value, bit] => mark(field, word(name)?, number(value)?, number(bit)?),
        _ => Err(Fault::Malformed),
    }
}

fn ask(alloc: Global, field: &CronComponent, name: &str) -> Result<Given> {
    match name {
        "values" => Ok(Given::Values(field.values()?)),
        "has_modifiers" => Ok(value(field.has_modifiers())),
        "readers" => Ok(readers(field)),
        "compare" => Ok(value(are_alike(field, field))),
        "default" => {
            let empty = CronComponent::default(alloc);
            Ok(value(empty == *field))
        }
        _ => Err(Fault::Malformed),
    }
}

fn value<V: Into<Value>>(value: V) -> Given {
    Given::Value(value.into())
}

// What the reading functions and the questions on modifiers answer.
fn readers(field: &CronComponent) -> Given {
    let answers = [
        i64::from(field.min()),
        i64::from(field.max()),
        i64::from(field.step()),
        i64::from(field.from_wildcard()),
        i64::from(field.features()),
        i64::from(field.input_offset()),
        i64::from(field.is_feature_allowed(LAST_BIT)),
        i64::from(field.is_feature_enabled(LAST_BIT)),
    ];
    Given::Readers(answers, field.low_word(ALL_BIT))
}

fn call_with(field: &mut CronComponent, name: &str, given: &Value) -> Result<Given> {
    match name {
        "parse" => given_nothing(field.parse(word(given)?)),
        "handle_stepping" => given_nothing(field.handle_stepping(word(given)?)),
        "set_sloppy_ranges" => {
            field.set_sloppy_ranges(given.as_bool().ok_or(Fault::Malformed)?);
            Ok(Given::Done)
        }
        "least_from" => Ok(value(field.least_from(number(given)?))),
        "greatest_to" => Ok(value(field.greatest_to(number(given)?))),
        _ => call_with_bit(field, name, number(given)?),
    }
}

fn given_nothing(outcome: Result<(), CronError>) -> Result<Given> {
    outcome?;
    Ok(Given::Done)
}

fn call_with_bit(field: &mut CronComponent, name: &str, bit: u8) -> Result<Given> {
    match name {
        "enable_feature" => given_nothing(field.enable_feature(bit)),
        "is_feature_allowed" => Ok(value(field.is_feature_allowed(bit))),
        "is_feature_enabled" => Ok(value(field.is_feature_enabled(bit))),
        "count_set_values" => Ok(value(field.count_set_values(bit))),
        "get_set_values" => Ok(Given::Values(field.get_set_values(bit)?)),
        _ => Err(Fault::Malformed),
    }
}

fn mark(field: &mut CronComponent, name: &str, number: u16, bit: u8) -> Result<Given> {
    match name {
        "set_bit" => given_nothing(field.set_bit(number, bit)),
        "unset_bit" => given_nothing(field.unset_bit(number, bit)),
        "is_bit_set" => Ok(value(field.is_bit_set(number, bit)?)),
        _ => Err(Fault::Malformed),
    }
}

/// The hash of a value by the standard hasher.
pub fn hash_of<T: Hash>(value: &T) -> u64 {
    let mut state = DefaultHasher::new();
    value.hash(&mut state);
    state.finish()
}

/// Whether two values are equal, compare as equal and have the same hash.
pub fn are_alike<T: Ord + Hash>(one: &T, other: &T) -> bool {
    let is_equal = *one == *other && one.cmp(other).is_eq();
    is_equal && hash_of(one) == hash_of(other)
}

// What a call answers, as a JSON value.
fn given_value(alloc: Global, given: Given) -> Result<Value> {
    match given {
        Given::Done => shown::text(alloc, "ok"),
        Given::Value(value) => Ok(value),
        Given::Values(values) => shown::numbers(alloc, values.as_slice()),
        Given::Readers(answers, word) => shown_readers(alloc, &answers, word),
    }
}

fn shown_readers(alloc: Global, answers: &[i64], word: u64) -> Result<Value> {
    let answers = shown::numbers(alloc, answers)?;
    Ok(Value::String(format!(in alloc; "{answers} {word}")?))
}

/// A new field of `[min, max, features, offset]`, or the empty one.
pub fn new_component(alloc: Global, new: &Value) -> Result<CronComponent> {
    if new.as_str() == Some("default") {
        return Ok(CronComponent::default(alloc));
    }
    let [min, max, features, offset] = parts::<4>(new)?;
    let (min, max): (u16, u16) = (number(min)?, number(max)?);
    let (features, offset): (u8, u16) = (number(features)?, number(offset)?);
    if min > max || max > u16::MAX - offset {
        return Err(Fault::Malformed);
    }
    Ok(CronComponent::new(alloc, min, max, features, offset)?)
}

/// A new field that has read the text of a question, if there is one; what a refused text leaves is kept.
pub fn read_field(alloc: Global, question: &Value) -> Result<CronComponent> {
    let mut field = new_component(alloc, member(question, "new")?)?;
    if let Some(text) = question.get("text") {
        let _ = field.parse(word(text)?);
    }
    Ok(field)
}

/// The answer of one call of a new field, and what the field holds afterwards.
pub fn call_of_field(caller: Caller<'_>, question: &Value, after: &mut String) -> Result<Value> {
    let call = member(question, "call")?;
    let mut field = read_field(caller.alloc, question)?;
    let answer = answer_of_call(caller, &mut field, call, after);
    drop(field);
    answer
}

fn answer_of_call(
    caller: Caller<'_>,
    field: &mut CronComponent,
    call: &Value,
    after: &mut String,
) -> Result<Value> {
    caller.begin();
    let given = make(caller.alloc, field, call);
    caller.end();
    shown::add_field(caller.alloc, field, after)?;
    given_value(caller.alloc, given?)
}

/// The answers of calls of a field in turn, as a list; if one is refused, the refusal.
pub fn calls_in_turn(alloc: Global, field: &mut CronComponent, question: &Value) -> Result<Value> {
    let mut answers = Vec::new(alloc);
    for call in list(question, "calls")? {
        answers.push(shown::answer_or_refusal(alloc, answer_of_one(alloc, field, call))?)?;
    }
    Ok(Value::Array(answers))
}

fn answer_of_one(alloc: Global, field: &mut CronComponent, call: &Value) -> Result<Value> {
    given_value(alloc, make(alloc, field, call)?)
}
