//! The columns of findings, in characters.
ghost use Rattle.std.specs.Prelude.{◌≡◌, not, length, filter, option_map, Some};
ghost use Rattle.croncheck_forms.specs.Sarif.{continues, characters, columns_of, AreColumns};

use croncheck_findings::findings::Extent;
use croncheck_reading::tally::one_more;
use std::str::from_utf8;

/// The columns of a place, in characters from 1.
#[derive(Clone, Copy, Drop)]
pub struct Columns {
    pub start: u64,
    /// The column after the last character.
    pub end: u64,
}

/// The columns of a place in a line. `None` if there is no line, or it isn't UTF-8.
pub fn columns_at(line: Option<&[u8]>, extent: Extent) -> Option<Columns>
    ensures { AreColumns (option_map (λ l. l.now) line.entry) extent result }
{
    match line {
        Some(line) => columns_in(line, extent),
        None => None,
    }
}

fn columns_in(line: &[u8], extent: Extent) -> Option<Columns>
    ensures { AreColumns (Some line.now) extent result }
{
    match from_utf8(line) {
        Ok(_) => Some(columns_of(line, extent)),
        Err(_) => None,
    }
}

fn columns_of(line: &[u8], extent: Extent) -> Columns
    ensures { result ≡ columns_of line.now extent }
{
    Columns {
        start: one_more(characters(extent.start, line) as u64),
        end: one_more(characters(extent.end, line) as u64),
    }
}

// How many characters begin within so many bytes of a line.
fn characters(n: usize, line: &[u8]) -> usize
    ensures { result ≡ characters n line.now }
{
    let (front, _) = line.split_at(n.min(line.len()));
    character_count(front)
}

fn character_count(bytes: &[u8]) -> usize
    ensures { result ≡ length (filter (λ b. not (continues b)) bytes.now) }
{
    bytes.iter().filter(|byte| !continues(**byte)).count()
}

// Whether a byte continues a character of UTF-8.
fn continues(byte: u8) -> bool
    ensures { result ≡ continues byte }
{
    128 <= byte && byte < 192
}
