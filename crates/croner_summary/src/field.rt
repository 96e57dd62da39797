//! The phrase of each field.

ghost use Rattle.std.specs.Prelude.{◌≡◌, ℕ, ◌≤◌, ◌<◌, [], ◌∷◌, IsTrue, IfOk, IfErr};
ghost use Rattle.croner_summary.specs.Lengths.{length_of};
ghost use Rattle.croner_summary.specs.Order.{IsInOrder};
ghost use Rattle.croner_summary.specs.Private.Exact.{HasAll, IsExact, NamesAll, NamesNothing};
ghost use Rattle.croner_summary.specs.Private.Spacing.{IsBestPiece, IsShortOf};

use crate::exact::exact_phrase;
use crate::phrase::{Phrase, Piece};
use crate::pieces::pieces_of;
use crate::plain::{exact_plain_phrase, next_plain};
use crate::spacing::{best_piece, have_at_most, words_in};
use croner_base::component::{ALL_BIT, CronComponent};
use croner_base::errors::CronError;
use std::alloc::Global;

/// The values up to `greatest`; at most the last one lies above it.
fn values_up_to(values: &[u16], greatest: u16) -> &[u16] {
    if values.is_empty() || values[values.len() - 1] <= greatest {
        return values;
    }
    &values[..values.len() - 1]
}

/// The phrase of no value.
fn phrase_of_none(alloc: Global) -> Phrase
    ensures nothing { NamesNothing result }
    ensures short { length_of result.pieces.items ≡ 0 }
    ensures ordered { (least greatest : ℕ) → IsInOrder least greatest result }
{
    Phrase {
        pieces: Vec::new(alloc),
    }
}

/// The phrase of the values within the bounds that have a modifier. If the field has no such value, none is looked at.
pub(crate) fn marked_phrase(
    alloc: Global,
    least: u16,
    greatest: u16,
    bit: u8,
    field: &CronComponent,
) -> Result<Phrase, CronError>
    requires order { least ≤ greatest }
    requires room { greatest < 65535 }
    ensures ok { IfOk result (IsExact least greatest bit field.now) }
    ensures ordered { IfOk result (IsInOrder least greatest) }
    ensures err { IfErr result (λ e. e ≡ CronError.OutOfMemory) }
{
    if field.count_set_values(bit) == 0 {
        return Ok(phrase_of_none(alloc));
    }
    let values = field.get_set_values(bit)?;
    let pieces = pieces_of(alloc, least, greatest, values_up_to(&values, greatest))?;
    exact_phrase(alloc, least, greatest, bit, field, pieces)
}

/// Whether the field has these bounds, and each value is plain.
fn has_all(least: u16, greatest: u16, field: &CronComponent) -> bool
    requires { least ≤ greatest }
    ensures { IsTrue result → HasAll least greatest field.now }
{
    if field.min() != least || field.max() != greatest {
        return false;
    }
    field.count_set_values(ALL_BIT) == usize::from(greatest - least) + 1
}

/// The phrase of all values.
fn phrase_of_all(alloc: Global) -> Result<Phrase, CronError>
    ensures ok { IfOk result NamesAll }
    ensures short { IfOk result (λ phrase. length_of phrase.pieces.items ≤ 1) }
    ensures ordered { IfOk result (λ phrase. (least greatest : ℕ) → IsInOrder least greatest phrase) }
    ensures err { IfErr result (λ e. e ≡ CronError.OutOfMemory) }
{
    let mut pieces = Vec::new(alloc);
    pieces.push(Piece::Every)?;
    Ok(Phrase { pieces })
}

/// The phrase of plain values in the words that are found for them.
fn found_phrase(
    alloc: Global,
    least: u16,
    greatest: u16,
    field: &CronComponent,
) -> Result<Phrase, CronError>
    requires order { least ≤ greatest }
    requires room { greatest < 65534 }
    ensures ok { IfOk result (IsExact least greatest ALL_BIT field.now) }
    ensures ordered { IfOk result (IsInOrder least greatest) }
    ensures err { IfErr result (λ e. e ≡ CronError.OutOfMemory) }
{
    let values = field.values()?;
    let pieces = pieces_of(alloc, least, greatest, values_up_to(&values, greatest))?;
    exact_plain_phrase(alloc, least, greatest, field, pieces)
}

/// The phrase of one piece.
fn phrase_of(alloc: Global, piece: Piece) -> Result<Phrase, CronError>
    ensures ok { IfOk result (λ phrase. phrase.pieces.items ≡ piece ∷ []) }
    ensures err { IfErr result (λ e. e ≡ CronError.OutOfMemory) }
{
    let mut pieces = Vec::new(alloc);
    pieces.push(piece)?;
    Ok(Phrase { pieces })
}

/// The phrase that was found, or a single piece that names the same values, if that has fewer words.
fn shorter_phrase(
    alloc: Global,
    least: u16,
    greatest: u16,
    field: &CronComponent,
    found: Phrase,
    piece: Piece,
) -> Result<Phrase, CronError>
    requires exact { IsExact least greatest ALL_BIT field.now found }
    requires ordered { IsInOrder least greatest found }
    requires best { IsBestPiece least greatest field.now piece }
    ensures ok { IfOk result (IsExact least greatest ALL_BIT field.now) }
    ensures short { IfOk result (IsShortOf least greatest field.now) }
    ensures ordered { IfOk result (IsInOrder least greatest) }
    ensures err { IfErr result (λ e. e ≡ CronError.OutOfMemory) }
{
    if have_at_most(&found.pieces, words_in(piece)) {
        return Ok(found);
    }
    phrase_of(alloc, piece)
}

/// Whether a list of the values may have no more words than the piece that names them.
fn may_be_listed(piece: Piece) -> bool {
    match piece {
        Piece::Every => false,
        Piece::EveryNth(_) => false,
        Piece::One(_) => false,
        Piece::Range(first, last) => last.saturating_sub(first) < words_in(piece),
        Piece::RangeNth(first, last, step) => {
            last.saturating_sub(first) / step.max(1) < words_in(piece)
        }
    }
}

/// The phrase of values that one piece names: that piece, or what was found for them, if that has no more words.
fn told_phrase(
    alloc: Global,
    least: u16,
    greatest: u16,
    field: &CronComponent,
    piece: Piece,
) -> Result<Phrase, CronError>
    requires order { least ≤ greatest }
    requires room { greatest < 65534 }
    requires best { IsBestPiece least greatest field.now piece }
    ensures ok { IfOk result (IsExact least greatest ALL_BIT field.now) }
    ensures short { IfOk result (IsShortOf least greatest field.now) }
    ensures ordered { IfOk result (IsInOrder least greatest) }
    ensures err { IfErr result (λ e. e ≡ CronError.OutOfMemory) }
{
    if !may_be_listed(piece) {
        return phrase_of(alloc, piece);
    }
    let found = found_phrase(alloc, least, greatest, field)?;
    shorter_phrase(alloc, least, greatest, field, found, piece)
}

/// The phrase of the plain values of a field. If each value is plain, or none is, no value is looked at.
pub(crate) fn plain_phrase(
    alloc: Global,
    least: u16,
    greatest: u16,
    field: &CronComponent,
) -> Result<Phrase, CronError>
    requires order { least ≤ greatest }
    requires room { greatest < 65534 }
    ensures ok { IfOk result (IsExact least greatest ALL_BIT field.now) }
    ensures short { IfOk result (IsShortOf least greatest field.now) }
    ensures ordered { IfOk result (IsInOrder least greatest) }
    ensures err { IfErr result (λ e. e ≡ CronError.OutOfMemory) }
{
    if has_all(least, greatest, field) {
        return phrase_of_all(alloc);
    }
    let first = next_plain(field, least, greatest);
    if first > greatest {
        return Ok(phrase_of_none(alloc));
    }
    match best_piece(least, greatest, field, first) {
        Some(piece) => told_phrase(alloc, least, greatest, field, piece),
        None => found_phrase(alloc, least, greatest, field),
    }
}
