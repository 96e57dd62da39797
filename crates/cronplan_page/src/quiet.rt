//! The longest windows in which nothing starts.
ghost use Rattle.std.specs.Prelude.{◌≡◌, ◌++◌, OnOk, string_bytes};
ghost use Rattle.cronplan_page.specs.Quiet.{longer_text, length_text, window_line, window_lines, quiet_text};

use crate::markup::{push_list_begin, push_list_end};
use crate::pieces::{Piece, push_piece};
use crate::words::{push_between, push_duration};
use cronplan::Window;
use cronplan_forms::{TimedWindow, is_at_edge};
use std::alloc::AllocError;

/// Appends the section of some windows to the text of a page. The only error is lack of memory; the text's end is then unspecified.
#[tactic(auto, unfolding(crate::specs::Quiet::quiet_text, crate::specs::Markup::list_of))]
pub(crate) fn push_quiet(out: &mut String, windows: &[TimedWindow]) -> Result<(), AllocError>
    ensures { OnOk result (string_bytes out.new ≡ string_bytes out.old ++ quiet_text windows.now) }
{
    push_piece(out, Piece::QuietHeading)?;
    push_list_begin(out, windows.is_empty(), Piece::NoWindow)?;
    push_windows(out, windows)?;
    push_list_end(out, windows.is_empty())
}

#[tactic(auto, using(crate::proofs::Steps::windows_step), unfolding(crate::specs::Quiet::window_lines))]
fn push_windows(out: &mut String, windows: &[TimedWindow]) -> Result<(), AllocError>
    ensures { OnOk result (string_bytes out.new ≡ string_bytes out.old ++ window_lines windows.now) }
{
    for window in windows {
        push_window(out, *window)?;
    }
    Ok(())
}

#[tactic(auto, unfolding(crate::specs::Quiet::window_line))]
fn push_window(out: &mut String, window: TimedWindow) -> Result<(), AllocError>
    ensures { OnOk result (string_bytes out.new ≡ string_bytes out.old ++ window_line window) }
{
    push_piece(out, Piece::Item)?;
    push_between(out, window.from, window.until)?;
    push_piece(out, Piece::ItemRest)?;
    push_length(out, window.window)?;
    push_piece(out, Piece::ItemEnd)
}

// Appends to a text how long a window is.
#[tactic(auto, unfolding(crate::specs::Quiet::length_text))]
fn push_length(out: &mut String, window: Window) -> Result<(), AllocError>
    ensures { OnOk result (string_bytes out.new ≡ string_bytes out.old ++ length_text window) }
{
    push_duration(out, window.seconds())?;
    out.push_str(longer_text(window))
}

// What is said of a window that may be longer.
fn longer_text(window: Window) -> &'static str
    ensures { result.now ≡ longer_text window }
{
    if is_at_edge(&window) {
        ", or longer"
    } else {
        ""
    }
}
