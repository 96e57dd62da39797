//! Texts in elements, and lists of them.
ghost use Rattle.std.specs.Prelude.{◌≡◌, ◌++◌, OnOk, string_bytes};
ghost use Rattle.std.specs.Fmt.{decimal};
ghost use Rattle.cronplan_page.specs.Markup.{html, element, line_text, lines_text, list_text, list_begin, list_end, section_text, number_text};

use crate::pieces::{Piece, push_piece};
use cronplan_forms::{Form, push_escaped};
use std::alloc::AllocError;

/// A line of a list.
#[derive(Clone, Copy)]
pub struct Line<'p> {
    /// Its beginning, in bold: what matters most.
    pub head: &'p str,
    pub rest: &'p str,
}

/// Appends a text to the text of a page, with the escapes of HTML. The only error is lack of memory; the text's end is then unspecified.
pub(crate) fn push_html(out: &mut String, text: &str) -> Result<(), AllocError>
    ensures { OnOk result (string_bytes out.new ≡ string_bytes out.old ++ html text.now) }
{
    push_escaped(out, text, Form::Html)
}

/// Appends a text to the text of a page, with the escapes of HTML, between two pieces of markup. The only error is lack of memory; the
/// text's end is then unspecified.
#[tactic(auto, unfolding(crate::specs::Markup::element))]
pub(crate) fn push_element(
    out: &mut String,
    front: Piece,
    text: &str,
    back: Piece,
) -> Result<(), AllocError>
    ensures { OnOk result (string_bytes out.new ≡ string_bytes out.old ++ element front text.now back) }
{
    push_piece(out, front)?;
    push_html(out, text)?;
    push_piece(out, back)
}

/// Appends a number in a cell of its own to a text. The only error is lack of memory.
#[tactic(auto, unfolding(crate::specs::Markup::number_text))]
pub(crate) fn push_number(out: &mut String, number: u64) -> Result<(), AllocError>
    ensures { OnOk result (string_bytes out.new ≡ string_bytes out.old ++ number_text number) }
{
    push_piece(out, Piece::Number)?;
    push_decimal(out, number)?;
    push_piece(out, Piece::CellEnd)
}

fn push_decimal(out: &mut String, number: u64) -> Result<(), AllocError>
    ensures { OnOk result (string_bytes out.new ≡ string_bytes out.old ++ decimal number) }
{
    write!(out, "{number}")
}

/// Appends a section to the text of a page: its heading, and its lines, or what is said if it has no line. The only error is lack of
/// memory.
#[tactic(auto, unfolding(crate::specs::Markup::section_text))]
pub(crate) fn push_section(
    out: &mut String,
    heading: Piece,
    lines: &[Line<'_>],
    none: Piece,
) -> Result<(), AllocError>
    ensures { OnOk result (string_bytes out.new ≡ string_bytes out.old ++ section_text heading lines.now none) }
{
    push_piece(out, heading)?;
    push_list(out, lines, none)
}

/// Appends a list to the text of a page, or what is said if it has no line. The only error is lack of memory.
#[tactic(auto, unfolding(crate::specs::Markup::list_text))]
pub(crate) fn push_list(out: &mut String, lines: &[Line<'_>], none: Piece) -> Result<(), AllocError>
    ensures { OnOk result (string_bytes out.new ≡ string_bytes out.old ++ list_text lines.now none) }
{
    if lines.is_empty() {
        return push_piece(out, none);
    }
    push_piece(out, Piece::List)?;
    push_lines(out, lines)?;
    push_piece(out, Piece::ListEnd)
}

/// Appends the beginning of a list to the text of a page, or what is said if it is empty. The only error is lack of memory.
pub(crate) fn push_list_begin(
    out: &mut String,
    is_empty: bool,
    none: Piece,
) -> Result<(), AllocError>
    ensures { OnOk result (string_bytes out.new ≡ string_bytes out.old ++ list_begin is_empty none) }
{
    if is_empty {
        return push_piece(out, none);
    }
    push_piece(out, Piece::List)
}

/// Appends the end of a list to the text of a page, if it isn't empty. The only error is lack of memory.
pub(crate) fn push_list_end(out: &mut String, is_empty: bool) -> Result<(), AllocError>
    ensures { OnOk result (string_bytes out.new ≡ string_bytes out.old ++ list_end is_empty) }
{
    if is_empty {
        return Ok(());
    }
    push_piece(out, Piece::ListEnd)
}

#[tactic(auto, using(crate::proofs::Steps::lines_step), unfolding(crate::specs::Markup::lines_text))]
fn push_lines(out: &mut String, lines: &[Line<'_>]) -> Result<(), AllocError>
    ensures { OnOk result (string_bytes out.new ≡ string_bytes out.old ++ lines_text lines.now) }
{
    for line in lines {
        push_line(out, *line)?;
    }
    Ok(())
}

#[tactic(auto, unfolding(crate::specs::Markup::line_text))]
fn push_line(out: &mut String, line: Line<'_>) -> Result<(), AllocError>
    ensures { OnOk result (string_bytes out.new ≡ string_bytes out.old ++ line_text line.entry) }
{
    push_element(out, Piece::Item, line.head, Piece::ItemRest)?;
    push_html(out, line.rest)?;
    push_piece(out, Piece::ItemEnd)
}
