//! Single values: those of a field, the numbers of parts, and texts of languages, also those that no description uses.

use croner::Cron;
use croner::describe::Language;
use croner::describe::lang::english::English;
use croner::describe::lang::swedish::Swedish;
use croner_rows::{Caller, Fault, Job, Result, field_at, shown, text, time_component};
use serde_json::Value;
use std::alloc::Global;

/// The values of a field of a job.
pub fn values(alloc: Global, question: &Value, job: Job) -> Result<Value> {
    let Cron { mut pattern } = job.into_cron();
    let field = field_at(&mut pattern, text(question, "field")?)?;
    shown::runs(alloc, field.values()?.as_slice())
}

/// The number of a part of a date and time.
pub fn number_of_part(question: &Value) -> Result<Value> {
    Ok(Value::from(time_component(question)? as u32))
}

/// Texts of a language: what it says for each minute of every 5 hours, between the last two items of a list, or all that isn't about a
/// number.
pub fn words_of_language(caller: Caller<'_>, question: &Value) -> Result<Value> {
    match text(question, "language")? {
        "english" => said_words(caller, &English, text(question, "words")?),
        "swedish" => said_words(caller, &Swedish, text(question, "words")?),
        _ => Err(Fault::Malformed),
    }
}

fn said_words<L: Language>(caller: Caller<'_>, language: &L, words: &str) -> Result<Value> {
    match words {
        "every_minute_of_every_5_hours" => {
            let text = language.every_minute_of_every_x_hours(caller.alloc, 5)?;
            Ok(Value::String(text))
        }
        "list_conjunction_and_comma" => {
            shown::text(caller.alloc, language.list_conjunction_and_comma())
        }
        "without_number" => words_without_number(caller, language),
        _ => Err(Fault::Malformed),
    }
}

fn words_without_number<L: Language>(caller: Caller<'_>, language: &L) -> Result<Value> {
    caller.begin();
    let (minute, second) = (language.every_minute(), language.every_second_phrase());
    let last = language.the_last_day_of_the_month();
    let (and, or) = (
        language.list_conjunction_and(),
        language.list_conjunction_or(),
    );
    let comma = language.list_conjunction_and_comma();
    let (days, months) = (language.day_of_week_names(), language.month_names());
    caller.end();
    let (sunday, december) = (days[0], months[11]);
    let text = format!(in caller.alloc;
        "{minute};{second};{last};{and};{or};{comma};{sunday};{december}"
    );
    Ok(Value::String(text?))
}
