//! Calls of one field in turn, and the order of two fields.

use croner::component::CronComponent;
use croner::errors::CronError;
use croner_rows::{
    Fault, Result, calls_in_turn, member, new_component, parts, read_field, shown, word,
};
use serde_json::Value;
use std::alloc::Global;

/// The answers of calls of one field in turn, and what it holds afterwards.
pub fn component(alloc: Global, question: &Value) -> Result<Value> {
    let mut component = read_field(alloc, question)?;
    answers_in_turn(alloc, question, &mut component)
}

fn answers_in_turn(
    alloc: Global,
    question: &Value,
    component: &mut CronComponent,
) -> Result<Value> {
    let results = calls_in_turn(alloc, component, question)?;
    let after = shown::field(alloc, component)?;
    let answer = format!(in alloc; "{{\"results\":{results},\"after\":{after}}}");
    shown::object(alloc, answer)
}

/// The order of two fields, each made new and parsed; a refused parse keeps its marks.
pub fn component_compare(alloc: Global, question: &Value) -> Result<Value> {
    let a = component_of(alloc, member(question, "a")?)?;
    let b = component_of(alloc, member(question, "b")?)?;
    shown::text(alloc, shown::ordering(a.cmp(&b)))
}

fn component_of(alloc: Global, side: &Value) -> Result<CronComponent> {
    let [new, text] = parts::<2>(side)?;
    let mut component = new_component(alloc, new)?;
    match component.parse(word(text)?) {
        Err(CronError::OutOfMemory) => Err(Fault::OutOfMemory),
        Ok(()) | Err(_) => Ok(component),
    }
}
