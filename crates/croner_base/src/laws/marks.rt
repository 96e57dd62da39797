//! The marks of a component are sets of values, one for each modifier: what each change adds to or removes from
//! them, and what a text names.
ghost use Rattle.std.specs.Prelude.{◌≡◌, ℕ, ◌<◌, ◌≤◌, ◌||◌, true, false, List, [], length, bit_or};
ghost use Rattle.std.specs.List.{All};
ghost use Rattle.std.specs.Str.{trim};
ghost use Rattle.croner_base.specs.Field.{Shape, Field, can_ask, can_mark, default_field, has_all, has_modifiers, is_marked, marked_values};
ghost use Rattle.croner_base.specs.Marks.{IsWellFormed, AddsOne, TakesOne, AddsNamed, NamesRange, NamesSteps, NamesUnion, ListsSet};
ghost use Rattle.croner_base.specs.Part.{field_of, pieces_at};
ghost use Rattle.croner_base.specs.Reading.{Reading};

/// `set_bit` adds its value to the sets of its modifiers, and changes nothing else: no other value or modifier, not the
/// step, the enabled features or the wildcard mark.
pub fn a_mark_adds_one_value()
    ensures { (f : Field) (value bits : ℕ) → IsWellFormed f → can_ask f.shape value bits ≡ true → AddsOne f value bits }
{}

/// `unset_bit` removes its value from the sets of its modifiers, and changes nothing else.
pub fn an_unset_takes_one_value()
    ensures { (f : Field) (value bits : ℕ) → IsWellFormed f → can_ask f.shape value bits ≡ true → bits < 256 → TakesOne f value bits }
{}

/// Reading a text, accepted or refused, adds to each set what the reading names, and changes nothing else.
pub fn reading_adds_what_it_names()
    ensures { (f : Field) (reading : Reading) → AddsNamed f reading }
{}

/// An accepted range names each value from its first to its last, and no other.
pub fn a_range_names_its_values()
    ensures { (shape : Shape) (bits a b : ℕ) → NamesRange shape bits a b }
{}

/// An accepted step names the start, the start plus the step, and so on up to the end, and no other value.
pub fn a_step_names_each_step()
    ensures { (shape : Shape) (bits s e step : ℕ) → 0 < step → s ≤ e → NamesSteps shape bits s e step }
{}

/// An accepted list names the union of what its parts name.
pub fn a_list_names_the_union()
    ensures { (shape : Shape) (parts : List (List ℕ)) → NamesUnion shape parts }
{}

/// The values that are listed for some modifiers are the members of their sets within the bounds, in ascending order; none
/// where one of the modifiers isn't supported.
pub fn values_list_the_set()
    ensures { (f : Field) (bits : ℕ) → ListsSet bits f }
{}

/// A value has a modifier from two groups together exactly if it has one from the first group or one from the second.
pub fn several_modifiers_ask_for_any()
    ensures { (f : Field) (a b value : ℕ) → is_marked (bit_or a b) f value ≡ (is_marked a f value || is_marked b f value) }
{}

/// A component whose maximum is 0 holds no value: `set_bit`, `unset_bit` and `is_bit_set` refuse each call.
pub fn a_maximum_of_zero_holds_nothing()
    ensures asks { (shape : Shape) (value bits : ℕ) → shape.max ≡ 0 → can_ask shape value bits ≡ false }
    ensures marks { (shape : Shape) (value bits : ℕ) → shape.max ≡ 0 → can_mark shape value bits ≡ false }
{}

/// A default component holds nothing and accepts nothing: it lists no value, whatever the modifiers. Each call of
/// `set_bit`, `unset_bit` and `is_bit_set` is refused, and so is each feature but `NONE_BIT`, and each text but a list of
/// empty parts.
pub fn a_default_component_holds_nothing()
    ensures lists { (bits : ℕ) → marked_values bits default_field ≡ [] }
    ensures modifiers { has_modifiers default_field ≡ false }
    ensures asks { (value bits : ℕ) → can_ask default_field.shape value bits ≡ false }
    ensures marks { (pos bits : ℕ) → can_mark default_field.shape pos bits ≡ false }
    ensures features { (bits : ℕ) → has_all default_field.shape.supported bits ≡ true → bits ≡ 0 }
    ensures reads { (text : List ℕ) → (field_of default_field.shape text).accepted ≡ true
        → All (λ part. length (trim part) ≡ 0) (pieces_at 44 text) }
{}
