//! The changes of a clock in words.
ghost use Rattle.std.specs.Prelude.{◌≡◌, ◌++◌, OnOk, string_bytes};
ghost use Rattle.cronplan_page.specs.ClockChanges.{seconds_moved, fate_text, change_words, change_line, change_lines, changes_text};

use crate::markup::{push_list_begin, push_list_end};
use crate::pieces::{Piece, push_piece};
use crate::timed::TimedChange;
use crate::words::{push_clock, push_duration};
use std::alloc::AllocError;

/// Appends the list of some changes to the text of a page. The only error is lack of memory; the text's end is then unspecified.
#[tactic(auto, unfolding(crate::specs::ClockChanges::changes_text, crate::specs::Markup::list_of))]
pub(crate) fn push_changes(out: &mut String, changes: &[TimedChange]) -> Result<(), AllocError>
    ensures { OnOk result (string_bytes out.new ≡ string_bytes out.old ++ changes_text changes.now) }
{
    push_list_begin(out, changes.is_empty(), Piece::NoChange)?;
    push_each(out, changes)?;
    push_list_end(out, changes.is_empty())
}

#[tactic(auto, using(crate::proofs::Steps::changes_step), unfolding(crate::specs::ClockChanges::change_lines))]
fn push_each(out: &mut String, changes: &[TimedChange]) -> Result<(), AllocError>
    ensures { OnOk result (string_bytes out.new ≡ string_bytes out.old ++ change_lines changes.now) }
{
    for change in changes {
        push_change(out, *change)?;
    }
    Ok(())
}

#[tactic(auto, unfolding(crate::specs::ClockChanges::change_line))]
fn push_change(out: &mut String, change: TimedChange) -> Result<(), AllocError>
    ensures { OnOk result (string_bytes out.new ≡ string_bytes out.old ++ change_line change) }
{
    push_piece(out, Piece::Item)?;
    push_clock(out, change.shown)?;
    push_piece(out, Piece::ItemRest)?;
    push_change_words(out, change)?;
    push_piece(out, Piece::ItemEnd)
}

/// Appends a change in words to the text of a page. The only error is lack of memory.
#[tactic(auto, unfolding(crate::specs::ClockChanges::change_words))]
pub(crate) fn push_change_words(out: &mut String, change: TimedChange) -> Result<(), AllocError>
    ensures { OnOk result (string_bytes out.new ≡ string_bytes out.old ++ change_words change) }
{
    out.push_str("follows ")?;
    push_clock(out, change.before)?;
    out.push_str(": ")?;
    push_duration(out, seconds_moved(change))?;
    out.push_str(fate_text(change))
}

// How many seconds the clock is moved forward or back.
fn seconds_moved(change: TimedChange) -> u64
    ensures { result ≡ seconds_moved change }
{
    change
        .before
        .ahead
        .seconds
        .abs_diff(change.shown.ahead.seconds)
}

// What happens to the time that the clock is moved by.
fn fate_text(change: TimedChange) -> &'static str
    ensures { result.now ≡ fate_text change }
{
    if change.before.ahead.seconds < change.shown.ahead.seconds {
        " is skipped"
    } else {
        " is shown twice"
    }
}
