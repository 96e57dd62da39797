//! Seconds, with what the clocks show then.
ghost use Rattle.std.specs.Prelude.{◌≡◌, IfOk, OnOk, codes, string_bytes, option_map};
ghost use Rattle.serde_json.specs.Data.{object, put, string};
ghost use Rattle.serde_json.specs.View.{members_view, view};
ghost use Rattle.cronplan_json.specs.Objects.{clock_members, instant_object, shown_data, time_text, with_shown};

use crate::members::{put_integer, put_optional};
use cronplan_forms::{Beside, ClockTime, ShownTime};
use serde_json::{Map, Value, put};
use std::alloc::{AllocError, Global};

/// Puts a second among members. The only error is lack of memory.
pub(crate) fn put_instant(
    alloc: Global,
    members: &mut Map<String, Value>,
    name: &str,
    time: &ShownTime,
) -> Result<(), AllocError>
    ensures { OnOk result (members_view members.new.entries ≡ put name.now (instant_object time.now) (members_view members.old.entries)) }
{
    let object = instant_object(alloc, time)?;
    put(members, alloc, name, object)
}

fn instant_object(alloc: Global, time: &ShownTime) -> Result<Value, AllocError>
    ensures { IfOk result (λ v. view v ≡ instant_object time.now) }
{
    let mut members = own_members(alloc, &time.own)?;
    put_shown(alloc, &mut members, &time.beside)?;
    Ok(Value::Object(members))
}

/// Puts what the clock of a second zone shows among members, if a second zone is shown. The only error is lack
/// of memory.
pub(crate) fn put_shown(
    alloc: Global,
    members: &mut Map<String, Value>,
    beside: &Beside,
) -> Result<(), AllocError>
    ensures { OnOk result (members_view members.new.entries ≡ with_shown beside.now (members_view members.old.entries)) }
{
    let shown = shown_value(alloc, beside)?;
    put_optional(alloc, members, "shown", shown)
}

fn shown_value(alloc: Global, beside: &Beside) -> Result<Option<Value>, AllocError>
    ensures { IfOk result (λ v. option_map view v ≡ shown_data beside.now) }
{
    match beside {
        Beside::Nothing => Ok(None),
        Beside::Unfollowed => Ok(Some(Value::Null)),
        Beside::Shown(time) => {
            let members = own_members(alloc, time)?;
            Ok(Some(Value::Object(members)))
        }
    }
}

// The members of a second on one clock.
fn own_members(alloc: Global, time: &ClockTime) -> Result<Map<String, Value>, AllocError>
    ensures { IfOk result (λ members. members_view members.entries ≡ clock_members time.now) }
{
    let mut members = Map::new(alloc);
    put_integer(alloc, &mut members, "offset", time.ahead.seconds)?;
    put_integer(alloc, &mut members, "second", time.second)?;
    put_time(alloc, &mut members, time)?;
    Ok(members)
}

/// Puts the text of a second among members. The only error is lack of memory.
pub(crate) fn put_time(
    alloc: Global,
    members: &mut Map<String, Value>,
    time: &ClockTime,
) -> Result<(), AllocError>
    ensures { OnOk result (members_view members.new.entries ≡ put (codes "time") (string (time_text time.now)) (members_view members.old.entries)) }
{
    let text = time_text(alloc, time)?;
    put(members, alloc, "time", Value::String(text))
}

#[tactic(auto, unfolding(crate::specs::Objects::time_text))]
fn time_text(alloc: Global, time: &ClockTime) -> Result<String, AllocError>
    ensures { IfOk result (λ t. string_bytes t ≡ time_text time.now) }
{
    let (civil, ahead) = (time.civil, time.ahead);
    format!(in alloc; "{civil}{ahead}")
}
