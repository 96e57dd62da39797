//! The members of objects, each put at its place. The only error of each is lack of memory; what the members are then is unspecified.
ghost use Rattle.std.specs.Prelude.{◌≡◌, OnOk, option_map};
ghost use Rattle.serde_json.specs.Data.{boolean, put, string};
ghost use Rattle.serde_json.specs.View.{members_view, view};
ghost use Rattle.cronplan_json.specs.Objects.{count, integer, with_optional};

use serde_json::{Map, Value, put};
use std::alloc::{AllocError, Global};

/// Puts a count among members.
pub(crate) fn put_count(
    alloc: Global,
    members: &mut Map<String, Value>,
    name: &str,
    number: u64,
) -> Result<(), AllocError>
    ensures { OnOk result (members_view members.new.entries ≡ put name.now (count number) (members_view members.old.entries)) }
{
    put(members, alloc, name, Value::from(number))
}

/// Puts a number that may be negative among members.
pub(crate) fn put_integer(
    alloc: Global,
    members: &mut Map<String, Value>,
    name: &str,
    number: i64,
) -> Result<(), AllocError>
    ensures { OnOk result (members_view members.new.entries ≡ put name.now (integer number) (members_view members.old.entries)) }
{
    put(members, alloc, name, Value::from(number))
}

/// Puts a truth value among members.
pub(crate) fn put_flag(
    alloc: Global,
    members: &mut Map<String, Value>,
    name: &str,
    is_so: bool,
) -> Result<(), AllocError>
    ensures { OnOk result (members_view members.new.entries ≡ put name.now (boolean is_so) (members_view members.old.entries)) }
{
    put(members, alloc, name, Value::from(is_so))
}

/// Puts a text among members.
pub(crate) fn put_text(
    alloc: Global,
    members: &mut Map<String, Value>,
    name: &str,
    text: &str,
) -> Result<(), AllocError>
    ensures { OnOk result (members_view members.new.entries ≡ put name.now (string text.now) (members_view members.old.entries)) }
{
    let value = Value::try_from_str(alloc, text)?;
    put(members, alloc, name, value)
}

/// Puts a value among members, if there is one.
pub(crate) fn put_optional(
    alloc: Global,
    members: &mut Map<String, Value>,
    name: &str,
    value: Option<Value>,
) -> Result<(), AllocError>
    ensures { OnOk result (members_view members.new.entries ≡ with_optional name.now (option_map view value) (members_view members.old.entries)) }
{
    match value {
        Some(value) => put(members, alloc, name, value),
        None => Ok(()),
    }
}
