//! Laws of lists in words.

ghost use Rattle.std.specs.Prelude.{◌≡◌, ℕ, List, map};
ghost use Rattle.std.specs.List.{flat_map};
ghost use Rattle.croner_pattern.specs.Lists.{covered, item_text, number_items, number_list, text_list};

/// The numbers and ranges of a number list name exactly the listed values, in order, and its text is made of them.
pub fn a_number_list_covers_its_values()
    ensures covers { (values : List ℕ) → flat_map covered (number_items values) ≡ values }
    ensures texts { (and values : List ℕ) → number_list and values ≡ text_list and (map item_text (number_items values)) }
{}
