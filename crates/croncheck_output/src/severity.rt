//! How grave a finding is.
ghost use Rattle.std.specs.Prelude.{◌≡◌};
ghost use Rattle.croncheck_output.specs.Severity.{severity_name};

/// How grave a finding is.
#[derive(Clone, Copy, Drop)]
pub enum Severity {
    /// The line is refused, or cron ignores the file as a whole.
    Error,
    Warning,
    Note,
}

impl Severity {
    /// The word for it: `error`, `warning` or `note`.
    pub fn name(self) -> &'static str
        ensures { result.now ≡ severity_name self }
    {
        match self {
            Severity::Error => "error",
            Severity::Warning => "warning",
            Severity::Note => "note",
        }
    }
}
