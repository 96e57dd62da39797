//! What stands in front of the results.
ghost use Rattle.std.specs.Prelude.{◌≡◌, map, IfOk, string_bytes};
ghost use Rattle.serde_json.specs.Data.{array};
ghost use Rattle.serde_json.specs.View.{view, items_of};
ghost use Rattle.serde_json.specs.Written.{compact_text};
ghost use Rattle.croncheck_forms.specs.Sarif.{rule_object, tool_object, head_text};

use super::result::text_object;
use super::rules::Rule;
use serde_json::{Value, json};
use std::alloc::{AllocError, Global};

/// The page that says what cron makes of a line.
const HELP_URI: &str = "https://manpages.debian.org/cron/crontab.5";

/// What stands in front of the results, for a version of this program with these rules.
///
/// The only error is lack of memory.
pub fn head_text(alloc: Global, version: &str, rules: &[Rule]) -> Result<String, AllocError>
    ensures { IfOk result (λ text. string_bytes text ≡ head_text version.now rules.now) }
{
    let tool = tool_text(alloc, version, rules)?;
    let mut text = String::from_str(
        alloc,
        "{\"$schema\":\"https://json.schemastore.org/sarif-2.1.0.json\",\"version\":\"2.1.0\",\"runs\":[{\"columnKind\":\"unicodeCodePoints\",\"tool\":",
    )?;
    text.push_str(tool.as_str())?;
    text.push_str(",\"results\":[\n")?;
    Ok(text)
}

fn tool_text(alloc: Global, version: &str, rules: &[Rule]) -> Result<String, AllocError>
    ensures { IfOk result (λ text. string_bytes text ≡ compact_text (tool_object version.now rules.now)) }
{
    let text = {
        let object = tool_object(alloc, version, rules)?;
        object.to_string(alloc)?
    };
    Ok(text)
}

fn tool_object(alloc: Global, version: &str, rules: &[Rule]) -> Result<Value, AllocError>
    ensures { IfOk result (λ v. view v ≡ tool_object version.now rules.now) }
{
    json!(in alloc; {
        "driver": {
            "name": "croncheck",
            "version": version,
            "rules": rules_of(alloc, rules)?
        }
    })
}

fn rules_of(alloc: Global, rules: &[Rule]) -> Result<Value, AllocError>
    ensures { IfOk result (λ v. view v ≡ array (items_of (map rule_object rules.now))) }
{
    let items = rule_objects(alloc, rules)?;
    Ok(Value::Array(items))
}

fn rule_objects(alloc: Global, rules: &[Rule]) -> Result<Vec<Value>, AllocError>
    ensures { IfOk result (λ items. map view items.items ≡ map rule_object rules.now) }
{
    let mut items = Vec::new(alloc);
    for rule in rules {
        items.push(rule_object(alloc, *rule)?)?;
    }
    Ok(items)
}

fn rule_object(alloc: Global, rule: Rule) -> Result<Value, AllocError>
    ensures { IfOk result (λ v. view v ≡ rule_object rule) }
{
    let (name, text) = (rule.name, rule.text);
    json!(in alloc; {
        "id": name,
        "helpUri": HELP_URI,
        "shortDescription": text_object(alloc, text)?
    })
}
