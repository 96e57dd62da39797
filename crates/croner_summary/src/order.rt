//! Whether pieces stand in order: each lies in its field, and they rise.

ghost use Rattle.std.specs.Prelude.{◌≡◌, ◌<◌, true, IsTrue};
ghost use Rattle.std.specs.List.{list_all};
ghost use Rattle.croner_summary.specs.Order.{beside_step, end_of, is_of_field, is_range_of, place_of, rise_from, start_of};
ghost use Rattle.croner_summary.specs.Private.Exact.{RiseWithin};

use crate::exact::is_stepwise;
use crate::phrase::Piece;
use crate::pieces::{SATURDAY, SUNDAY};

/// Whether two values are the first and the last of a range of the field.
fn is_range_of(least: u16, greatest: u16, first: u16, last: u16) -> bool
    ensures { result ≡ is_range_of least greatest first last }
{
    least <= first && first < last && last <= greatest
}

/// Whether a step divides the field, and has more than one value there.
fn divides_field(least: u16, greatest: u16, step: u16) -> bool
    requires { greatest < 65535 }
    ensures { result ≡ is_of_field least greatest (Piece.EveryNth step) }
{
    let values = (greatest + 1).saturating_sub(least);
    1 < step && step < values && is_stepwise(step, values)
}

/// Whether a piece lies in its field.
fn is_of_field(least: u16, greatest: u16, piece: Piece) -> bool
    requires { greatest < 65535 }
    ensures { result ≡ is_of_field least greatest piece }
{
    match piece {
        Piece::Every => true,
        Piece::EveryNth(step) => divides_field(least, greatest, step),
        Piece::One(value) => least <= value && value <= greatest,
        Piece::Range(first, last) => is_range_of(least, greatest, first, last),
        Piece::RangeNth(first, last, step) => {
            is_range_of(least, greatest, first, last) && 1 < step && is_stepwise(step, last - first)
        }
    }
}

/// Whether each piece does.
fn are_of_field(least: u16, greatest: u16, pieces: &[Piece]) -> bool
    requires { greatest < 65535 }
    ensures { result ≡ list_all (λ piece. is_of_field least greatest piece) pieces.now }
{
    pieces
        .iter()
        .all(|piece| is_of_field(least, greatest, *piece))
}

/// The place of a value by itself. Sunday comes after Saturday.
fn place_of(greatest: u16, value: u16) -> u16
    ensures { result ≡ place_of greatest value }
{
    if greatest == SATURDAY && value == SUNDAY {
        SATURDAY + 1
    } else {
        value
    }
}

/// Where a piece begins.
fn start_of(least: u16, greatest: u16, piece: Piece) -> u16
    ensures { result ≡ start_of least greatest piece }
{
    match piece {
        Piece::Every => least,
        Piece::EveryNth(_) => least,
        Piece::One(value) => place_of(greatest, value),
        Piece::Range(first, _) => first,
        Piece::RangeNth(first, _, _) => first,
    }
}

/// Where a piece ends.
fn end_of(least: u16, greatest: u16, piece: Piece) -> u16
    ensures { result ≡ end_of least greatest piece }
{
    match piece {
        Piece::Every => greatest,
        Piece::EveryNth(_) => greatest,
        Piece::One(value) => place_of(greatest, value),
        Piece::Range(_, last) => last,
        Piece::RangeNth(_, last, _) => last,
    }
}

/// Whether pieces rise from the least value on.
fn rise(least: u16, greatest: u16, pieces: &[Piece]) -> bool
    ensures { IsTrue result → rise_from least greatest least pieces.now ≡ true }
{
    let mut from = u32::from(least);
    for piece in pieces {
        if u32::from(start_of(least, greatest, *piece)) < from {
            return false;
        }
        from = u32::from(end_of(least, greatest, *piece)) + 1;
    }
    true
}

/// The pieces beside a step of the whole field.
fn beside_step(pieces: &[Piece]) -> &[Piece]
    ensures { result.now ≡ beside_step pieces.now }
{
    if pieces.is_empty() {
        return pieces;
    }
    match pieces[0] {
        Piece::EveryNth(_) => &pieces[1..],
        _ => pieces,
    }
}

/// Whether pieces lie in their field and rise.
pub(crate) fn rise_within(least: u16, greatest: u16, pieces: &[Piece]) -> bool
    requires { greatest < 65535 }
    ensures { IsTrue result → RiseWithin least greatest pieces.now }
{
    are_of_field(least, greatest, pieces) && rise(least, greatest, beside_step(pieces))
}
