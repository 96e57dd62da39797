//! Lists of numbers.
ghost use Rattle.std.specs.Prelude.{◌≡◌, IfOk, map};
ghost use Rattle.serde_json.specs.View.{view};
ghost use Rattle.cronplan_json.specs.Objects.{count, counts};

use serde_json::Value;
use std::alloc::{AllocError, Global};

/// A list of these numbers. The only error is lack of memory.
pub(crate) fn numbers_value(alloc: Global, numbers: &[u64]) -> Result<Value, AllocError>
    ensures { IfOk result (λ v. view v ≡ counts numbers.now) }
{
    let items = number_items(alloc, numbers)?;
    Ok(Value::Array(items))
}

fn number_items(alloc: Global, numbers: &[u64]) -> Result<Vec<Value>, AllocError>
    ensures { IfOk result (λ items. map view items.items ≡ map count numbers.now) }
{
    let mut items = Vec::new(alloc);
    for number in numbers {
        items.push(Value::from(*number))?;
    }
    Ok(items)
}
