//! How texts are shown: broken into lines, and in colours.
ghost use Rattle.std.specs.Prelude.{◌≡◌, IfOk, string_bytes, true};
ghost use Rattle.croncheck_output.specs.Look.{broken_text, color_of, painted_text};

use crate::severity::Severity;
use crate::wrapped::wrapped_text;
use std::alloc::{AllocError, Global};

/// By how many bytes a broken line is shorter than the width: those of the blanks and the word in front of it.
const BYTES_IN_FRONT: usize = 10;

/// What stands between the lines of a text that is broken.
const INDENT: &str = "\n    ";

/// What ends a colour.
const NO_COLOR: &str = "\u{1b}[0m";

/// How texts are shown.
#[derive(Clone, Copy, Drop)]
pub struct Look {
    /// How many columns a line has. `None`: texts aren't broken into lines.
    pub width: Option<usize>,
    /// The words that say how grave a finding is, and refusals, stand in colours.
    pub has_color: bool,
}

impl Look {
    /// A text, broken into lines if lines have a width.
    ///
    /// The only error is lack of memory.
    pub fn broken_text(&self, alloc: Global, text: &str) -> Result<String, AllocError>
        ensures { IfOk result (λ lines. string_bytes lines ≡ broken_text self.now.width text.now) }
    {
        match self.width {
            Some(width) => wrapped_text(alloc, text, width.saturating_sub(BYTES_IN_FRONT), INDENT),
            None => String::from_str(alloc, text),
        }
    }

    /// A text, in the colour of a severity if there are colours.
    ///
    /// The only error is lack of memory.
    pub fn painted_text(
        &self,
        alloc: Global,
        severity: Severity,
        text: &str,
    ) -> Result<String, AllocError>
        ensures { IfOk result (λ shown. string_bytes shown ≡ painted_text self.now.has_color severity text.now) }
    {
        if self.has_color {
            return colored_text(alloc, severity, text);
        }
        String::from_str(alloc, text)
    }
}

fn colored_text(alloc: Global, severity: Severity, text: &str) -> Result<String, AllocError>
    ensures { IfOk result (λ shown. string_bytes shown ≡ painted_text true severity text.now) }
{
    let color = color_of(severity);
    format!(in alloc; "{color}{text}{NO_COLOR}")
}

// What begins the colour of a severity.
fn color_of(severity: Severity) -> &'static str
    ensures { result.now ≡ color_of severity }
{
    match severity {
        Severity::Error => "\u{1b}[31m",
        Severity::Warning => "\u{1b}[33m",
        Severity::Note => "\u{1b}[36m",
    }
}
