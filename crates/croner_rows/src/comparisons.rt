//! Equality, order and hash of jobs and of iterators, which take no memory.

use crate::{
    Caller, Fault, How, Job, Result, Runs, Subject, civil_value, hash_of, member, shown, switch,
};
use jiff::civil::DateTime;
use serde_json::Value;
use std::alloc::Global;
use std::cmp::Ordering;
use std::hash::Hash;

/// Two jobs: their order, whether they are equal, and whether they are hashed alike.
pub fn of_jobs(caller: Caller<'_>, question: &Value) -> Result<Value> {
    let one = Job::read(caller.alloc, member(question, "a")?)?;
    let other = Job::read(caller.alloc, member(question, "b")?)?;
    caller.begin();
    let order = Some(one.cron.cmp(&other.cron));
    caller.end();
    comparison(caller, &one.cron, &other.cron, order)
}

/// Two iterators over the runs of a job from a start: their order, whether they are equal, and whether they are hashed alike.
pub fn of_iterators(caller: Caller<'_>, question: &Value) -> Result<Value> {
    let job = Job::read(caller.alloc, question)?;
    let one = asked_runs(&job, question, "a")?;
    let other = asked_runs(&job, question, "b")?;
    let (Runs::OfJob(one), Runs::OfJob(other)) = (&one, &other) else {
        return Err(Fault::Malformed);
    };
    caller.begin();
    let order = one.partial_cmp(other);
    caller.end();
    comparison(caller, one, other, order)
}

// An iterator over the runs of a job from a civil start, made as a member of the question says, and asked for one run if that
// says so.
fn asked_runs<'j>(job: &'j Job, question: &Value, name: &str) -> Result<Runs<'j, DateTime>> {
    let (start, side) = (civil_value(question, "start")?, member(question, name)?);
    let mut runs = Runs::new(Subject::Job(job), start, How::read(side)?)?;
    if switch(side, "asked")? {
        let _ = runs.next();
    }
    Ok(runs)
}

fn comparison<T: PartialEq + Hash>(
    caller: Caller<'_>,
    one: &T,
    other: &T,
    order: Option<Ordering>,
) -> Result<Value> {
    caller.begin();
    let (equal, alike) = (*one == *other, hash_of(one) == hash_of(other));
    caller.end();
    let order = order_or_null(caller.alloc, order)?;
    let text = format!(in caller.alloc; "{{\"cmp\":{order},\"eq\":{equal},\"hash\":{alike}}}");
    shown::object(caller.alloc, text)
}

fn order_or_null(alloc: Global, order: Option<Ordering>) -> Result<Value> {
    match order {
        Some(order) => shown::text(alloc, shown::ordering(order)),
        None => Ok(Value::Null),
    }
}
