//! What is found of a line, below it.
ghost use Rattle.std.specs.Prelude.{◌≡◌, ◌++◌, ◌<◌, length, codes, option_map, IfOk, OnOk, string_bytes};
ghost use Rattle.croncheck_shown.specs.Reported.{field_front, named_text, text_after_word, error_text, said_as, line_below, text_below};

use croncheck_findings::findings::Finding;
use croncheck_output::look::Look;
use croncheck_output::severity::Severity;
use croncheck_warnings::presets::PRESET;
use std::alloc::{AllocError, Global};

/// Findings in order, each on lines of its own, whose line feed stands in front.
pub(crate) fn text_below(alloc: Global, look: Look, found: &[Finding]) -> Result<String, AllocError>
    ensures { IfOk result (λ text. string_bytes text ≡ text_below look found.now) }
{
    let mut text = String::new(alloc);
    push_below(alloc, look, &mut text, found)?;
    Ok(text)
}

/// Puts findings after a text, in the same way.
pub(crate) fn push_below(
    alloc: Global,
    look: Look,
    text: &mut String,
    found: &[Finding],
) -> Result<(), AllocError>
    ensures { OnOk result (string_bytes text.new ≡ string_bytes text.old ++ text_below look found.now) }
{
    let mut rest = found;
    while !rest.is_empty() {
        rest = push_first(alloc, look, text, rest)?;
    }
    Ok(())
}

// Puts the first of some findings after a text. Those after it are left.
#[tactic(auto, using(crate::proofs::Found::one_below))]
fn push_first<'f>(
    alloc: Global,
    look: Look,
    text: &mut String,
    found: &'f [Finding],
) -> Result<&'f [Finding], AllocError>
    requires { 0 < length found.now }
    ensures said { IfOk result (λ rest. string_bytes text.new ++ text_below look rest.now ≡ string_bytes text.old ++ text_below look found.now) }
    ensures shorter { IfOk result (λ rest. length rest.now < length found.now) }
{
    match found {
        [first, rest @ ..] => {
            let said = line_below(alloc, look, first)?;
            text.push_str(said.as_str())?;
            Ok(rest)
        }
        [] => Ok(found),
    }
}

fn line_below(alloc: Global, look: Look, finding: &Finding) -> Result<String, AllocError>
    ensures { IfOk result (λ text. string_bytes text ≡ line_below look finding.now) }
{
    let said = finding_text(alloc, look, finding)?;
    format!(in alloc; "\n  {said}")
}

fn finding_text(alloc: Global, look: Look, finding: &Finding) -> Result<String, AllocError>
    ensures { IfOk result (λ text. string_bytes text ≡ said_as look finding.now.severity finding.now) }
{
    match finding.severity {
        Severity::Error => error_text(alloc, look, finding),
        Severity::Warning => text_after_word(alloc, look, "warning:", finding),
        Severity::Note => text_after_word(alloc, look, "note:", finding),
    }
}

// What an error says: why a line is refused stands alone below it, and what the program of a preset refuses has a name.
fn error_text(alloc: Global, look: Look, finding: &Finding) -> Result<String, AllocError>
    ensures { IfOk result (λ text. string_bytes text ≡ error_text look finding.now) }
{
    if finding.name == PRESET {
        return text_after_word(alloc, look, "error:", finding);
    }
    let text = look.broken_text(alloc, finding.text.as_str())?;
    look.painted_text(alloc, finding.severity, text.as_str())
}

// A word in the colour of a finding, and what the finding says.
fn text_after_word(
    alloc: Global,
    look: Look,
    word: &str,
    finding: &Finding,
) -> Result<String, AllocError>
    ensures { IfOk result (λ text. string_bytes text ≡ text_after_word look word.now finding.now) }
{
    let word = look.painted_text(alloc, finding.severity, word)?;
    let said = named_text(alloc, finding)?;
    let said = look.broken_text(alloc, said.as_str())?;
    format!(in alloc; "{word}{said}")
}

// What a warning or a note says, after the word for which of them it is.
fn named_text(alloc: Global, finding: &Finding) -> Result<String, AllocError>
    ensures { IfOk result (λ text. string_bytes text ≡ named_text finding.now) }
{
    let field = field_front(alloc, finding.field)?;
    let (name, text) = (finding.name, finding.text.as_str());
    format!(in alloc; " {name}: {field}{text}")
}

fn field_front(alloc: Global, field: Option<&'static str>) -> Result<String, AllocError>
    ensures { IfOk result (λ text. string_bytes text ≡ field_front (option_map (λ field. field.now) field.entry)) }
{
    match field {
        Some(field) => format!(in alloc; "{field}: "),
        None => Ok(String::new(alloc)),
    }
}
