//! The command line of `cronrun` as a function: words in, text and a status out.
#![tactic(auto)]

ghost use Rattle.std.specs.Prelude.{◌≡◌, ◌≤◌, ◌++◌, ◌∷◌, [], Some, map, string_bytes};
ghost use Rattle.cronrun_command.specs.Call.{IsCall};
ghost use Rattle.cronrun_command.specs.Concluded.{IsConcluded, IsEnded};
ghost use Rattle.cronrun_command.specs.Output.{Delivers, IsGiven, IsTold};
ghost use Rattle.cronrun_command.specs.Stop.{status_of};

mod answer;
mod count;
mod line;
mod moment;
mod output;
mod request;
mod runs;
mod start;
mod stop;
mod zone;

use answer::{Answer, answer_to};
pub use output::Output;
use output::deliver;
use request::Request;
use std::alloc::Global;
use stop::{Stop, stop_of};

/// The status of a call that was answered.
pub const ANSWERED: u8 = 0;

/// The status of a call that was refused, or whose answer could not be written.
pub const REFUSED: u8 = 1;

/// The status of words that aren't a call.
pub const MISUSED: u8 = 2;

const USAGE: &str =
    "usage: cronrun match PATTERN DATETIME | next PATTERN DATETIME COUNT [RULE] | prev PATTERN DATETIME COUNT [RULE] | describe PATTERN";

/// Answers the call that the words name, on two writers for standard output and standard error, and
/// returns the status of the process.
///
/// The words are those after the program's own name. `match PATTERN DATETIME` writes `true` or
/// `false`. `next PATTERN DATETIME COUNT` writes the first COUNT runs after DATETIME, the start,
/// one a line; with `prev` instead, the last COUNT runs before it, the latest first. A word RULE
/// after COUNT names the zone of the start. Without it a line is what the clock shows; with it a
/// space and the second since 1970-01-01T00:00:00 UTC follow. `describe PATTERN` writes the
/// pattern's description in English as a line.
///
/// The default parser reads PATTERN. DATETIME is `YYYY-MM-DDTHH:MM:SS`, COUNT is a number from 1 to
/// 1000 in decimal digits, and RULE is a POSIX rule. A DATETIME that the zone's clock shows twice
/// names the earlier instant.
///
/// The status is [`MISUSED`], with the usage line on standard error, if the words aren't a call. It
/// is [`REFUSED`], with the error's text as a line there, if the pattern is refused, if the zone's
/// clock never shows DATETIME or doesn't reach it, if fewer than COUNT runs are found, if memory
/// runs out, or if the answer can't be written to standard output. Otherwise it is [`ANSWERED`].
/// The words are checked first, then the pattern, then the start. Runs found before a refusal are
/// on standard output. The refusal is then the fault of the iterator over them,
/// `TimeSearchLimitExceeded` if there is none, or lack of memory for another line. A failed write
/// to standard error doesn't change the status.
pub fn run<O: Output, E: Output>(alloc: Global, words: &[String], out: &mut O, err: &mut E) -> u8
    ensures known { result ≤ 2 }
    ensures call { IsCall (map string_bytes words.now) → result ≤ 1 }
    ensures concluded { result ≤ 1 → IsConcluded (map string_bytes words.now)
        (Delivers O.contents O.writes O.flushes out.old) out.new
        (λ stop. IsTold E.contents E.writes err.old stop err.new) result }
    ensures misused { ¬ (IsCall (map string_bytes words.now)) → result ≡ 2 }
    ensures silent { result ≡ 2 → out.new ≡ out.old }
    ensures usage { result ≡ 2 → IsGiven E.contents E.writes err.old (Some (USAGE.now ++ 10 ∷ [])) err.new }
{
    let Some(request) = Request::read(words) else {
        return write_usage(err);
    };
    conclude(answer_to(alloc, request), out, err)
}

// Writes an answer, and the reason if it stops early, and returns the status.
fn conclude<O: Output, E: Output>(answer: Answer, out: &mut O, err: &mut E) -> u8
    ensures known { result ≤ 1 }
    ensures ended { IsEnded (string_bytes answer.text) answer.refusal
        (Delivers O.contents O.writes O.flushes out.old) out.new
        (λ stop. IsTold E.contents E.writes err.old stop err.new) result }
{
    let delivered = deliver(answer.text.as_str(), out);
    report(stop_of(answer.refusal, delivered), err)
}

// Writes why a call stops early, if it does, and returns its status.
fn report<E: Output>(stop: Option<Stop>, err: &mut E) -> u8
    ensures status { result ≡ status_of stop }
    ensures told { IsTold E.contents E.writes err.old stop err.new }
{
    match stop {
        None => ANSWERED,
        Some(stop) => {
            let _ = err.write_line(stop);
            REFUSED
        }
    }
}

/// Writes the usage line, and returns the status of words that aren't a call.
pub fn write_usage<E: Output>(err: &mut E) -> u8
    ensures status { result ≡ 2 }
    ensures usage { IsGiven E.contents E.writes err.old (Some (USAGE.now ++ 10 ∷ [])) err.new }
{
    let _ = err.write_line(USAGE);
    MISUSED
}
