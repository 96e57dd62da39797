//! Laws of the pattern grammar.

ghost use Rattle.std.specs.Prelude.{◌≡◌, ℕ, List, Some, None, Ok};
ghost use Rattle.croner_pattern.specs.Meaning.{Meaning};
ghost use Rattle.croner.specs.parser.Cut.{Piece, IsCut, cut_of};
ghost use Rattle.croner.specs.parser.Grammar.{outcome};
ghost use Rattle.croner.specs.parser.Settings.{Settings};
ghost use Rattle.croner.specs.parser.Words.{AreWords, words};

use crate::parser::{Seconds, Year};

/// A text can be cut in at most one way into names and single characters, with no single letter but `L` and `W`.
/// Where the reader finds no such way, there is none.
pub fn a_text_has_one_cut(text: &str)
    ensures one { (pieces others : List Piece) → IsCut text.now pieces → IsCut text.now others → pieces ≡ others }
    ensures found { (pieces : List Piece) → cut_of text.now ≡ Some pieces → IsCut text.now pieces }
    ensures none { cut_of text.now ≡ None → (pieces : List Piece) → IsCut text.now pieces → ⊥ }
{}

/// A text has exactly one list of words: its pieces between white space.
pub fn a_text_has_its_words(text: &str)
    ensures are { AreWords text.now (words text.now) }
    ensures alone { (others : List (List ℕ)) → AreWords text.now others → others ≡ words text.now }
{}

/// Settings with seconds disallowed and the year required accept no text.
pub fn no_text_without_seconds_and_with_a_year(text: &str)
    ensures { (s : Settings) → s.seconds_field ≡ Seconds.Disallowed → s.year_field ≡ Year.Required
        → (meaning : Meaning) → outcome s text.now ≡ Ok meaning → ⊥ }
{}
