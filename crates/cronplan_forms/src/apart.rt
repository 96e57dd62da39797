//! Texts one below the other.
ghost use Rattle.std.specs.Prelude.{◌≡◌, OnOk, string_bytes};
ghost use Rattle.cronplan_forms.specs.Apart.{set_apart};

use std::alloc::AllocError;

/// Appends a text to another one, with an empty line between them if neither is empty.
///
/// The only error is lack of memory; the text's end is then unspecified.
pub(crate) fn push_apart(text: &mut String, part: &str) -> Result<(), AllocError>
    ensures { OnOk result (string_bytes text.new ≡ set_apart (string_bytes text.old) part.now) }
{
    if !text.is_empty() && !part.is_empty() {
        text.push('\n')?;
    }
    text.push_str(part)
}
