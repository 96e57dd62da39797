//! How many fields settings accept.

ghost use Rattle.std.specs.Prelude.{◌≡◌};
ghost use Rattle.croner.specs.parser.Faults.{most_fields};

use super::{CronParser, Seconds, Year};

impl CronParser {
    /// These settings, with any count of fields accepted.
    pub(super) fn for_any_count(&self) -> CronParser {
        let mut parser = *self;
        parser.seconds = Seconds::Optional;
        parser.year = Year::Optional;
        parser
    }

    /// The most fields that the settings accept; 0 if they accept no text.
    pub(super) fn most_fields(&self) -> usize
        ensures { result ≡ most_fields self.now.seconds_field self.now.year_field }
    {
        most_fields(self.seconds, self.year)
    }
}

/// The most fields that settings accept; 0 if they accept no text.
pub fn most_fields(seconds: Seconds, year: Year) -> usize
    ensures { result ≡ most_fields seconds year }
{
    match (seconds, year) {
        (Seconds::Optional, Year::Optional) => 7,
        (Seconds::Optional, Year::Required) => 7,
        (Seconds::Optional, Year::Disallowed) => 6,
        (Seconds::Required, Year::Optional) => 7,
        (Seconds::Required, Year::Required) => 7,
        (Seconds::Required, Year::Disallowed) => 6,
        (Seconds::Disallowed, Year::Optional) => 5,
        (Seconds::Disallowed, Year::Required) => 0,
        (Seconds::Disallowed, Year::Disallowed) => 5,
    }
}
