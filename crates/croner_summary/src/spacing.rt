//! Plain values that lie a step apart, and the one piece that names them.

ghost use Rattle.std.specs.Prelude.{◌≡◌, ◌≤◌, ◌<◌, ◌+◌, ◌-◌, true, false, length, IsTrue, MatchOption};
ghost use Rattle.croner_pattern.specs.Schedule.{is_plain};
ghost use Rattle.croner_summary.specs.Lengths.{length_of, words_in};
ghost use Rattle.croner_summary.specs.Private.Exact.{IsNextPlain};
ghost use Rattle.croner_summary.specs.Private.Spacing.{AreEnds, IsBestPiece, LieEvenly, NoPieceNames, stepped_piece};

use crate::exact::is_stepwise;
use crate::phrase::Piece;
use crate::plain::next_plain;
use croner_base::component::CronComponent;

/// How many words a piece has.
pub(crate) fn words_in(piece: Piece) -> u16
    ensures { result ≡ words_in piece }
{
    match piece {
        Piece::Every => 1,
        Piece::EveryNth(_) => 2,
        Piece::One(_) => 1,
        Piece::Range(_, _) => 2,
        Piece::RangeNth(_, _, _) => 4,
    }
}

/// Whether pieces have at most so many words.
pub(crate) fn have_at_most(pieces: &[Piece], words: u16) -> bool
    ensures { IsTrue result → length_of pieces.now ≤ words }
{
    let mut left = words;
    for piece in pieces {
        let more = words_in(*piece);
        if more > left {
            return false;
        }
        left -= more;
    }
    true
}

/// Whether the plain values from a first to a last one are evenly a step apart.
fn lie_evenly(field: &CronComponent, first: u16, last: u16, step: u16) -> bool
    requires some { 0 < step }
    requires order { first ≤ last }
    requires room { last < 65535 }
    requires first_plain { is_plain field.now first ≡ true }
    requires last_plain { is_plain field.now last ≡ true }
    ensures yes { IsTrue result → LieEvenly field.now first last step }
    ensures no { result ≡ false → LieEvenly field.now first last step → ⊥ }
{
    let mut reached = first;
    while reached < last {
        let next = next_plain(field, reached + 1, last);
        if next - reached != step {
            return false;
        }
        reached = next;
    }
    true
}

/// The piece of values that lie a step apart.
fn stepped_piece(least: u16, greatest: u16, first: u16, last: u16, step: u16) -> Piece
    requires low { least ≤ first }
    requires order { first ≤ last }
    requires high { last ≤ greatest }
    requires room { greatest < 65535 }
    ensures { result ≡ stepped_piece least greatest first last step }
{
    let is_from_least = first == least;
    if step == 1 {
        return if is_from_least && last == greatest {
            Piece::Every
        } else {
            Piece::Range(first, last)
        };
    }
    if is_from_least
        && is_stepwise(step, greatest + 1 - least)
        && u32::from(last) + u32::from(step) == u32::from(greatest) + 1
    {
        return Piece::EveryNth(step);
    }
    Piece::RangeNth(first, last, step)
}

/// The shortest piece that names exactly the plain values of a field from a first to a last one; `None` where none does.
fn best_of(
    least: u16,
    greatest: u16,
    field: &CronComponent,
    first: u16,
    second: u16,
    last: u16,
) -> Option<Piece>
    requires ends { AreEnds least greatest field.now first second last }
    requires room { greatest < 65535 }
    ensures { MatchOption result (NoPieceNames least greatest field.now) (IsBestPiece least greatest field.now) }
{
    let step = second - first;
    if !lie_evenly(field, first, last, step) {
        return None;
    }
    Some(stepped_piece(least, greatest, first, last, step))
}

/// The shortest piece that names exactly the plain values of a field, given the first of them; `None` where none does.
pub(crate) fn best_piece(
    least: u16,
    greatest: u16,
    field: &CronComponent,
    first: u16,
) -> Option<Piece>
    requires is_first { IsNextPlain greatest field.now least first }
    requires within { first ≤ greatest }
    requires room { greatest < 65535 }
    ensures { MatchOption result (NoPieceNames least greatest field.now) (IsBestPiece least greatest field.now) }
{
    let second = next_plain(field, first + 1, greatest);
    if second > greatest {
        return Some(Piece::One(first));
    }
    match field.greatest_to(greatest) {
        Some(last) => best_of(least, greatest, field, first, second, last),
        None => None,
    }
}
