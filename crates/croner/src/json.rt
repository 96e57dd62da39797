//! Jobs as JSON: a job is written as the text of its pattern, a JSON string.

ghost use Rattle.std.specs.Prelude.{◌≡◌, IfOk, IfErr, Err};
ghost use Rattle.serde_json.specs.Data.{string};
ghost use Rattle.serde_json.specs.Find.{as_str};
ghost use Rattle.serde_json.specs.View.{view};
ghost use Rattle.croner_pattern.specs.Meaning.{Meaning};
ghost use Rattle.croner.specs.parser.Gives.{Gives, Fails};
ghost use Rattle.croner.specs.parser.Grammar.{Invalid};
ghost use Rattle.croner.specs.Json.{json_outcome};
ghost use Rattle.croner.specs.Views.{job_of};

use crate::job::Cron;
use croner_base::errors::CronError;
use serde_json::Value;
use std::alloc::Global;

impl Cron {
    /// The job as a JSON string: its text, as [`as_str`](Self::as_str) gives it.
    ///
    /// It doesn't have the settings of the parser that read the pattern: a pattern of a parser other than the default one
    /// may be read back as a different job, or be refused. The only error is `OutOfMemory`.
    ///
    /// ```
    /// let job = Cron::from_str(alloc, "@daily")?;
    /// let value = job.to_json()?; // the string 0 0 * * *
    /// let again = Cron::from_json(alloc, &value)?; // equal to the job
    /// ```
    pub fn to_json(&self) -> Result<Value, CronError>
        ensures ok { IfOk result (λ v. view v ≡ string (job_of self.now).text) }
        ensures err { IfErr result (λ e. e ≡ CronError.OutOfMemory) }
    {
        let text = String::from_str(self.pattern.allocator(), self.as_str())?;
        Ok(Value::String(text))
    }

    /// Reads a job from a JSON string, with the default settings; see [`CronParser::parse`](crate::parser::CronParser::parse)
    /// for the errors. Any other value is `InvalidPattern`. `OutOfMemory` where memory runs out.
    ///
    /// ```
    /// let value = Value::String(String::from_str(alloc, "0 0 * * MON")?);
    /// let job = Cron::from_json(alloc, &value)?; // the job of Mondays
    /// let refused = Cron::from_json(alloc, &Value::Null); // InvalidPattern
    /// ```
    pub fn from_json(alloc: Global, value: &Value) -> Result<Cron, CronError>
        ensures { Gives job_of result (json_outcome (view value.now)) }
    {
        match value.as_str() {
            Some(text) => Cron::from_str(alloc, text),
            None => Err(no_string(alloc, value)),
        }
    }
}

// A value that is no string.
fn no_string(alloc: Global, value: &Value) -> CronError
    ensures { Fails {Y = Meaning} result (Err Invalid) }
{
    let given = kind_of(value);
    match format!(in alloc; "A pattern is expected as a JSON string, and {given} was given.") {
        Ok(message) => CronError::InvalidPattern(message),
        Err(_) => CronError::OutOfMemory,
    }
}

// The kind of a value, in words.
fn kind_of(value: &Value) -> &'static str {
    match value {
        Value::Null => "null",
        Value::Bool(_) => "a boolean",
        Value::Number(_) => "a number",
        Value::String(_) => "a string",
        Value::Array(_) => "an array",
        Value::Object(_) => "an object",
    }
}
