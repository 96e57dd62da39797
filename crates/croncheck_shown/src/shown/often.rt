//! How often a job starts, as it is shown.

use crate::off::Lasting;
use croncheck_often::often::{Often, Reach, SPAN_DAYS};
use croncheck_report::settings::Tongue;
use croncheck_report::shared::Shared;
use croncheck_runs::runs::Listing;
use std::alloc::AllocError;

// How often a job starts, on a line of its own, where it is asked for: how many starts there are; where there are several, how many on one day
// at most, and how far they are apart at least.
pub(super) fn push_often(
    text: &mut String,
    shared: &Shared<'_>,
    often: &Option<Often>,
) -> Result<(), AllocError> {
    let Some(often) = often else {
        return Ok(());
    };
    text.push_str("\n  ")?;
    push_count(text, shared.language, often.starts)?;
    push_span(text, shared, often)?;
    text.push_str(reach_text(shared.language, often.reach))?;
    if let Some(shortest) = often.shortest {
        text.push_str(front_of_most(shared.language, often.reach))?;
        push_most(text, shared.language, often.most_a_day)?;
        push_shortest(text, shared.language, shortest)?;
    }
    Ok(())
}

// How many starts there are.
fn push_count(text: &mut String, language: Tongue, starts: u64) -> Result<(), AllocError> {
    match (language, starts) {
        (Tongue::English, 0) => text.push_str("no start"),
        (Tongue::Swedish, 0) => text.push_str("ingen start"),
        (_, 1) => text.push_str("1 start"),
        (Tongue::English, _) => write!(text, "{starts} starts"),
        (Tongue::Swedish, _) => write!(text, "{starts} starter"),
    }
}

// The span in which they are counted: the one that is asked for, or the part of it that is counted.
fn push_span(text: &mut String, shared: &Shared<'_>, often: &Often) -> Result<(), AllocError> {
    let language = shared.language;
    match (often.reach, shared.listing) {
        (Reach::Whole, Listing::Until(_)) => text.push_str(up_to_then_text(language)),
        (Reach::Whole, Listing::Count(_)) => match language {
            Tongue::English => write!(text, " in {SPAN_DAYS} days"),
            Tongue::Swedish => write!(text, " på {SPAN_DAYS} dagar"),
        },
        (Reach::Cut | Reach::Window | Reach::Failed, _) => {
            let lasting = Lasting {
                seconds: often.from.abs_diff(often.until),
            };
            match language {
                Tongue::English => write!(text, " in {lasting}"),
                Tongue::Swedish => write!(text, " på {lasting}"),
            }
        }
    }
}

fn up_to_then_text(language: Tongue) -> &'static str {
    match language {
        Tongue::English => " up to then",
        Tongue::Swedish => " till dess",
    }
}

// Why the rest of the span isn't counted, if it isn't.
fn reach_text(language: Tongue, reach: Reach) -> &'static str {
    match (language, reach) {
        (_, Reach::Whole) => "",
        (Tongue::English, Reach::Cut) => ", where a list ends",
        (Tongue::Swedish, Reach::Cut) => ", där en lista slutar",
        (Tongue::English, Reach::Window) => ", as far as the zone's clock is followed",
        (Tongue::Swedish, Reach::Window) => ", så långt zonens klocka följs",
        (Tongue::English, Reach::Failed) => ", and more, which were not found",
        (Tongue::Swedish, Reach::Failed) => ", och fler, som inte hittades",
    }
}

// What stands in front of the most on one day: if the rest of the span isn't counted, that it holds for the starts that are.
fn front_of_most(language: Tongue, reach: Reach) -> &'static str {
    match (language, reach) {
        (_, Reach::Whole) => ": ",
        (Tongue::English, Reach::Cut | Reach::Window | Reach::Failed) => "; of these ",
        (Tongue::Swedish, Reach::Cut | Reach::Window | Reach::Failed) => "; av dessa ",
    }
}

// How many starts there are on one day at most.
fn push_most(text: &mut String, language: Tongue, most: u64) -> Result<(), AllocError> {
    match language {
        Tongue::English => write!(text, "at most {most} on one day"),
        Tongue::Swedish => write!(text, "högst {most} på en dag"),
    }
}

// How far the starts are apart at least. What is shorter than the units that are told is left out.
fn push_shortest(text: &mut String, language: Tongue, shortest: u64) -> Result<(), AllocError> {
    let lasting = Lasting { seconds: shortest };
    match (language, shortest) {
        (Tongue::English, 0) => text.push_str(", some at the same second"),
        (Tongue::Swedish, 0) => text.push_str(", några i samma sekund"),
        (Tongue::English, _) => write!(text, ", at least {lasting} apart"),
        (Tongue::Swedish, _) => write!(text, ", minst {lasting} isär"),
    }
}
