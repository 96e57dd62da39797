//! How long something lasts.

use jiff_fmt::friendly::SpanPrinter;
use std::fmt;
use std::time::Duration;

/// A number of seconds, as `9h 30m`.
#[derive(Clone, Copy)]
pub struct Lasting {
    pub seconds: u64,
}

impl fmt::Display for Lasting {
    ghost use Rattle.std.specs.Prelude.{Some};
    ghost use Rattle.cronplan_forms.specs.Clocks.{lasting_text};

    ghost output = { λ l. Some (lasting_text l.seconds) };

    fn fmt<W: fmt::Write>(&self, f: &mut fmt::Formatter<W>) -> fmt::Result {
        let text = SpanPrinter::new().unsigned_duration_text(Duration::from_secs(self.seconds));
        f.write_str(text.as_str())
    }
}
