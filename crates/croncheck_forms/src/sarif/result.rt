//! A finding as a result.
ghost use Rattle.std.specs.Prelude.{◌≡◌, ◌∷◌, [], map, IfOk, string_bytes};
ghost use Rattle.serde_json.specs.View.{view, items_of};
ghost use Rattle.serde_json.specs.Written.{compact_text};
ghost use Rattle.croncheck_forms.specs.Sarif.{text_object, region, location, result_object};

use super::columns::Columns;
use super::uri::uri_of;
use croncheck_findings::findings::Finding;
use serde_json::{Value, json};
use std::alloc::{AllocError, Global};

/// The text of the result of a finding at a line of a file.
///
/// The only error is lack of memory.
pub fn result_text(
    alloc: Global,
    file: &str,
    line: u64,
    columns: Option<Columns>,
    finding: &Finding,
) -> Result<String, AllocError>
    ensures { IfOk result (λ text. string_bytes text ≡ compact_text (result_object file.now line columns finding.now)) }
{
    let text = {
        let object = result_object(alloc, file, line, columns, finding)?;
        object.to_string(alloc)?
    };
    Ok(text)
}

fn result_object(
    alloc: Global,
    file: &str,
    line: u64,
    columns: Option<Columns>,
    finding: &Finding,
) -> Result<Value, AllocError>
    ensures { IfOk result (λ v. view v ≡ result_object file.now line columns finding.now) }
{
    let (level, name) = (finding.severity.name(), finding.name);
    let text = finding.text.as_str();
    json!(in alloc; {
        "ruleId": name,
        "level": level,
        "message": text_object(alloc, text)?,
        "locations": [location(alloc, file, line, columns)?]
    })
}

/// A text, as a message or a description.
pub(super) fn text_object(alloc: Global, text: &str) -> Result<Value, AllocError>
    ensures { IfOk result (λ v. view v ≡ text_object text.now) }
{
    json!(in alloc; {"text": text})
}

// A region of a file.
fn location(
    alloc: Global,
    file: &str,
    line: u64,
    columns: Option<Columns>,
) -> Result<Value, AllocError>
    ensures { IfOk result (λ v. view v ≡ location file.now line columns) }
{
    let uri = uri_of(alloc, file)?;
    let uri = uri.as_str();
    json!(in alloc; {
        "physicalLocation": {
            "artifactLocation": {"uri": uri},
            "region": region(alloc, line, columns)?
        }
    })
}

fn region(alloc: Global, line: u64, columns: Option<Columns>) -> Result<Value, AllocError>
    ensures { IfOk result (λ v. view v ≡ region line columns) }
{
    match columns {
        Some(columns) => {
            let (start, end) = (columns.start, columns.end);
            json!(in alloc; {"startLine": line, "startColumn": start, "endColumn": end})
        }
        None => json!(in alloc; {"startLine": line}),
    }
}
