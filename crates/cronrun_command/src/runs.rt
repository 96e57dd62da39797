//! Lists the runs of a pattern, one a line.
ghost use Rattle.std.specs.Prelude.{◌≡◌, ◌++◌, ◌∷◌, [], Some, is_some, option_map, IsTrue, IfOk, IfErr, OnOk, OnErr, string_bytes};
ghost use Rattle.croner.specs.iterator.Faults.{is_kept};
ghost use Rattle.croner.specs.parser.Grammar.{outcome};
ghost use Rattle.croner.specs.iterator.Listing.{standing_of};
ghost use Rattle.croner.specs.parser.Settings.{default_settings};
ghost use Rattle.cronrun_command.specs.Answer.{IsListed, Lists, zone_of};
ghost use Rattle.cronrun_command.specs.Ended.{Ends};
ghost use Rattle.cronrun_command.specs.Line.{line_text};
ghost use Rattle.cronrun_command.specs.Start.{start_instant};
ghost use Rattle.cronrun_command.specs.Refused.{IsUnopened};
ghost use Rattle.cronrun_command.specs.Opened.{StandsAtStart};
ghost use Rattle.cronrun_command.specs.Reason.{reason_of};
ghost use Rattle.cronrun_command.specs.Written.{AddsNext};

use crate::answer::Answer;
use crate::line::{Line, Listed};
use crate::request::Listing;
use crate::start::start_at;
use croner::errors::CronError;
use croner::time::CronDateTime;
use croner::{Cron, CronIterator, Direction};
use std::alloc::Global;

/// The runs of a listing, one a line, the nearest first. `clock` is any value on the clock on which they are listed.
pub fn list<T: Listed>(alloc: Global, listing: &Listing<'_>, clock: &T) -> Answer
    ensures { (T.moment clock.now).zone ≡ zone_of listing.now.zone → T.in_zone ≡ is_some listing.now.zone →
        IsListed T.can_lack_memory listing.now (string_bytes result.text) result.refusal }
{
    match runs_from(alloc, listing, clock) {
        Ok(runs) => lines(alloc, runs, listing.count),
        Err(refusal) => Answer::of(alloc, Err(refusal)),
    }
}

// The lines of so many runs, or of those before a refusal.
fn lines<T: Listed>(alloc: Global, mut runs: CronIterator<T>, count: u32) -> Answer
    ensures { Lists T.can_lack_memory T.in_zone (standing_of T.moment runs) count (string_bytes result.text) result.refusal }
{
    let mut text = String::new(alloc);
    for _run in 0..count {
        if let Err(refusal) = add_next(alloc, &mut runs, &mut text) {
            return Answer {
                text,
                refusal: Some(refusal),
            };
        }
    }
    Answer {
        text,
        refusal: None,
    }
}

// The runs of a listing, from its start on. The pattern is read before the start is looked up.
fn runs_from<T: CronDateTime>(
    alloc: Global,
    listing: &Listing<'_>,
    clock: &T,
) -> Result<CronIterator<T>, CronError>
    ensures ok { IfOk result (λ runs. StandsAtStart (outcome default_settings listing.now.pattern.now)
        (T.moment clock.now).zone listing.now.at listing.now.direction (standing_of T.moment runs)) }
    ensures err { IfErr result (IsUnopened (outcome default_settings listing.now.pattern.now)
        (start_instant ((T.moment clock.now).zone.resolves listing.now.at))) }
{
    let cron = Cron::from_str(alloc, listing.pattern)?;
    let start = start_at(alloc, clock, listing.at)?;
    match listing.direction {
        Direction::Forward => cron.iter_after(start),
        Direction::Backward => cron.iter_before(start),
    }
}

// Appends the line of the next run to the text, or returns the reason why there is none.
fn add_next<T: Listed>(
    alloc: Global,
    runs: &mut CronIterator<T>,
    text: &mut String,
) -> Result<(), CronError>
    ensures adds { OnOk result (AddsNext T.in_zone (standing_of T.moment runs.old) (standing_of T.moment runs.new)
        (string_bytes text.old) (string_bytes text.new)) }
    ensures kept { OnErr result (string_bytes text.new ≡ string_bytes text.old) }
    ensures ends { IfErr result (Ends T.can_lack_memory (standing_of T.moment runs.old)) }
{
    match runs.next() {
        Some(run) => add_line(alloc, &Line::of(&run), text),
        None => Err(reason(runs.fault())),
    }
}

// Appends a line to the text. Without memory for it the text stays as it was.
fn add_line(alloc: Global, line: &Line, text: &mut String) -> Result<(), CronError>
    ensures adds { OnOk result
        (string_bytes text.new ≡ string_bytes text.old ++ (line_text line.now.civil line.now.second ++ 10 ∷ [])) }
    ensures kept { OnErr result (string_bytes text.new ≡ string_bytes text.old) }
    ensures err { IfErr result (λ e. e ≡ CronError.OutOfMemory) }
{
    let line = format!(in alloc; "{line}\n")?;
    text.push_str(line.as_str())?;
    Ok(())
}

// Why a listing ends early: the fault of its iterator, or the limit where there is none. The faults that iterators keep have no
// message, so a copy of one takes no memory.
fn reason(fault: Option<&CronError>) -> CronError
    ensures { IsTrue (is_kept (option_map (λ fault. fault.now) fault.entry))
        → result ≡ reason_of (option_map (λ fault. fault.now) fault.entry) }
{
    match fault {
        Some(fault) => match fault.clone() {
            Ok(fault) => fault,
            Err(_) => CronError::OutOfMemory,
        },
        None => CronError::TimeSearchLimitExceeded,
    }
}
