//! The law of rereading a job's text.
ghost use Rattle.std.specs.Prelude.{◌≡◌, Ok, IfOk, IfErr, true};
ghost use Rattle.std.specs.Ordering.{eq_by_cmp};
ghost use Rattle.croner_pattern.specs.Order.{pattern_cmp};
ghost use Rattle.croner.specs.parser.Gives.{Fails};
ghost use Rattle.croner.specs.parser.Grammar.{outcome};
ghost use Rattle.croner.specs.Views.{job_of};

use crate::Cron;
use crate::parser::CronParser;
use croner_base::errors::CronError;
use std::alloc::Global;

/// The job of a pattern, and the job that the same parser reads from that job's text.
///
/// Whatever the settings, the second job is equal to the first and has the same text: the text that a job keeps is a fixed
/// point of its parser. So the only errors are the refusal of the given text, and `OutOfMemory`.
pub fn read_twice(parser: &CronParser, alloc: Global, text: &str) -> Result<(Cron, Cron), CronError>
    ensures first { IfOk result (λ r. outcome parser.now text.now ≡ Ok (job_of r.0)) }
    ensures second { IfOk result (λ r. outcome parser.now (job_of r.0).text ≡ Ok (job_of r.1)) }
    ensures same { IfOk result (λ r. job_of r.1 ≡ job_of r.0) }
    ensures equal { IfOk result (λ r. eq_by_cmp pattern_cmp r.0.pattern r.1.pattern ≡ true) }
    ensures err { IfErr result (λ e. Fails e (outcome parser.now text.now)) }
{
    let first = parser.parse(alloc, text)?;
    let second = parser.parse(alloc, first.as_str())?;
    Ok((first, second))
}
