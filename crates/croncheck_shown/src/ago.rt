//! How long ago a run was.
ghost use Rattle.std.specs.Prelude.{◌≡◌, Some};
ghost use Rattle.croncheck_shown.specs.Ago.{ago_front, ago_end, ago_text};

use crate::off::Lasting;
use croncheck_report::settings::Tongue;
use std::fmt;

/// So many seconds that have passed, in the two largest units of which there are some: `11 h 20 min ago`, `3 d ago`, `40 s ago`. What is shorter
/// is left out, not rounded.
#[derive(Clone, Copy)]
pub(crate) struct Ago {
    pub(crate) language: Tongue,
    pub(crate) seconds: u64,
}

impl fmt::Display for Ago {
    ghost output = { λ a. Some (ago_text a.language a.seconds) };

    fn fmt<W: fmt::Write>(&self, f: &mut fmt::Formatter<W>) -> fmt::Result {
        let (front, end) = (ago_front(self.language), ago_end(self.language));
        let lasting = Lasting {
            seconds: self.seconds,
        };
        write!(f, "{front}{lasting}{end}")
    }
}

fn ago_front(language: Tongue) -> &'static str
    ensures { result.now ≡ ago_front language }
{
    match language {
        Tongue::English => "",
        Tongue::Swedish => "för ",
    }
}

fn ago_end(language: Tongue) -> &'static str
    ensures { result.now ≡ ago_end language }
{
    match language {
        Tongue::English => " ago",
        Tongue::Swedish => " sedan",
    }
}
