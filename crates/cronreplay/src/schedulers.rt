//! Schedulers: the answers of calls in turn, and of one call with others before and after it.

use croner::Clocked;
use croner_rows::{
    Caller, Fault, FlakyJob, Named, OverClocks, Result, call_in_turn, call_scheduler, list,
    new_scheduler, over_clocks, standings,
};
use croner_scheduler::Scheduler;
use serde_json::Value;

// The calls of a question.
#[derive(Clone, Copy)]
struct Calls<'q> {
    question: &'q Value,
}

impl<'q> OverClocks for Calls<'q> {
    fn answer<T: Clocked>(
        &self,
        caller: Caller<'_>,
        clocks: &[T],
        after: &mut String,
    ) -> Result<Value> {
        let (patterns, calls) = (
            list(self.question, "patterns")?,
            list(self.question, "calls")?,
        );
        let mut scheduler = new_scheduler(caller.alloc, self.question)?;
        let named = Named { patterns, clocks };
        let answers = call_in_turn(caller.without_marks(), &mut scheduler, &named, calls)?;
        match self.question.get("call") {
            None => Ok(answers),
            Some(call) => one_call(caller, &mut scheduler, &named, (call, self.question), after),
        }
    }
}

fn one_call<T: Clocked>(
    caller: Caller<'_>,
    scheduler: &mut Scheduler<FlakyJob, T>,
    named: &Named<'_, T>,
    (call, question): (&Value, &Value),
    after: &mut String,
) -> Result<Value> {
    let before = standings(caller.alloc, scheduler)?;
    match call_scheduler(caller, scheduler, named, call) {
        Err(Fault::OutOfMemory) => {
            let is_same = standings(caller.alloc, scheduler)? == before;
            let caller = caller.without_marks();
            let _ = call_scheduler(caller, scheduler, named, call)?;
            add_calls_after(caller, scheduler, named, (question, is_same), after)?;
            Err(Fault::OutOfMemory)
        }
        answer => {
            let caller = caller.without_marks();
            add_calls_after(caller, scheduler, named, (question, true), after)?;
            answer
        }
    }
}

// Adds whether the jobs were the same, and the answers of the calls after a call.
fn add_calls_after<T: Clocked>(
    caller: Caller<'_>,
    scheduler: &mut Scheduler<FlakyJob, T>,
    named: &Named<'_, T>,
    (question, is_same): (&Value, bool),
    after: &mut String,
) -> Result<()> {
    let answers = call_in_turn(caller, scheduler, named, list(question, "after")?)?;
    Ok(write!(after, "{is_same} {answers}")?)
}

/// The answers of the calls of a question, on a scheduler that begins without jobs. With the member `call` that call's answer after
/// them. Afterwards whether a call that lacked memory left each job as it was, and what the calls `after` answer, once it was made
/// again with memory.
pub fn scheduler(caller: Caller<'_>, question: &Value, after: &mut String) -> Result<Value> {
    over_clocks(caller, question, &Calls { question }, after)
}
