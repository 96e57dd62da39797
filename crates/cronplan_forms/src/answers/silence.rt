//! What is said of a time without a start.

use std::fmt;

/// What is said of a time without a start: that nothing starts, or nothing of what is shown, if jobs are left out.
#[derive(Clone, Copy)]
pub(crate) struct Silence {
    /// No job is left out.
    pub is_whole: bool,
}

impl fmt::Display for Silence {
    ghost use Rattle.std.specs.Prelude.{Some};
    ghost use Rattle.cronplan_forms.specs.Answers.{silence_text};

    ghost output = { λ s. Some (silence_text s.is_whole) };

    fn fmt<W: fmt::Write>(&self, f: &mut fmt::Formatter<W>) -> fmt::Result {
        if self.is_whole {
            return f.write_str("nothing starts");
        }
        f.write_str("nothing starts but what is left out")
    }
}
