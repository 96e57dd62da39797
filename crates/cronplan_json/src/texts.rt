//! Lists of texts.
ghost use Rattle.std.specs.Prelude.{◌≡◌, IfOk, map};
ghost use Rattle.serde_json.specs.Data.{string};
ghost use Rattle.serde_json.specs.View.{view};
ghost use Rattle.cronplan_json.specs.Objects.{texts};

use serde_json::Value;
use std::alloc::{AllocError, Global};

/// A list of these texts. The only error is lack of memory.
pub(crate) fn texts_value(alloc: Global, lines: &[&str]) -> Result<Value, AllocError>
    ensures { IfOk result (λ v. view v ≡ texts lines.now) }
{
    let items = text_items(alloc, lines)?;
    Ok(Value::Array(items))
}

fn text_items(alloc: Global, lines: &[&str]) -> Result<Vec<Value>, AllocError>
    ensures { IfOk result (λ items. map view items.items ≡ map (λ t. string t.now) lines.now) }
{
    let mut items = Vec::new(alloc);
    for text in lines {
        items.push(Value::try_from_str(alloc, *text)?)?;
    }
    Ok(items)
}
