//! What a description asks of a field.

ghost use Rattle.std.specs.Prelude.{◌≡◌};
ghost use Rattle.croner_base.specs.Field.{marked_values};
ghost use Rattle.croner_pattern.specs.Schedule.{is_plain};
ghost use Rattle.croner_pattern.specs.Description.{begins_with, is_all, is_one, is_one_value, is_stepped, is_zero, numbers, plain_values, first_value};
ghost use Rattle.croner_words.specs.Writes.{Writes};

use crate::describe::lists::number_list;
use croner_base::component::{ALL_BIT, CronComponent};
use croner_base::errors::CronError;
use croner_words::language::Language;
use std::alloc::Global;

/// Whether the step is 1 and each value plain.
pub(crate) fn is_all(field: &CronComponent) -> bool
    ensures { result ≡ is_all field.now }
{
    let (least, greatest) = (field.min(), field.max());
    field.step() == 1 && field.count_set_values(ALL_BIT) == usize::from(greatest - least) + 1
}

// Whether the value is plain.
fn has_plain(field: &CronComponent, value: u16) -> bool
    ensures { result ≡ is_plain field.now value }
{
    field.least_from(value) == Some(value)
}

/// Whether the first plain value is the least value that the field may hold.
fn begins_at_least(field: &CronComponent) -> bool
    ensures { result ≡ begins_with field.now.shape.min (plain_values field.now) }
{
    if field.max() == 0 {
        return false;
    }
    has_plain(field, field.min())
}

/// Whether the first plain value is 0.
fn begins_at_zero(field: &CronComponent) -> bool
    ensures { result ≡ begins_with 0 (plain_values field.now) }
{
    if field.min() != 0 {
        return false;
    }
    begins_at_least(field)
}

/// Whether the step is 1 and 0 the one plain value.
pub(crate) fn is_zero(field: &CronComponent) -> bool
    ensures { result ≡ is_zero field.now }
{
    if !is_one_value(field) {
        return false;
    }
    begins_at_zero(field)
}

/// Whether the step is above 1 and the first plain value is the least that the field may hold.
pub(crate) fn is_stepped(field: &CronComponent) -> bool
    ensures { result ≡ is_stepped field.now }
{
    field.step() > 1 && begins_at_least(field)
}

/// Whether there is one plain value.
pub(crate) fn is_one(field: &CronComponent) -> bool
    ensures { result ≡ is_one (plain_values field.now) }
{
    field.count_set_values(ALL_BIT) == 1
}

/// Whether the step is 1 and there is one plain value.
pub(crate) fn is_one_value(field: &CronComponent) -> bool
    ensures { result ≡ is_one_value field.now }
{
    field.step() == 1 && is_one(field)
}

/// The first plain value; 0 where there is none.
pub(crate) fn first_value(field: &CronComponent) -> u16
    ensures { result ≡ first_value field.now }
{
    if field.max() == 0 {
        return 0;
    }
    match field.least_from(0) {
        Some(value) => value,
        None => 0,
    }
}

/// The values that have a modifier, as a list in words.
pub(crate) fn numbers<L: Language>(
    alloc: Global,
    language: &L,
    field: &CronComponent,
    bit: u8,
) -> Result<String, CronError>
    ensures { Writes (numbers (L.meaning language.now) (marked_values bit field.now)) result }
{
    let values = field.get_set_values(bit)?;
    number_list(alloc, language.list_conjunction_and(), values.as_slice())
}
