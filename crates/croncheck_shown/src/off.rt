//! How far off a run is.
ghost use Rattle.std.specs.Prelude.{◌≡◌, Some};
ghost use Rattle.croncheck_shown.specs.Off.{ahead_word, count_text, lasting_text, more_text, off_text};

use croncheck_report::settings::Tongue;
use std::fmt;

/// So many seconds to come, in the two largest units of which there are some: `in 11 h 20 min`, `in 3 d`, `in 40 s`. What is shorter is left
/// out, not rounded.
#[derive(Clone, Copy)]
pub(crate) struct Off {
    pub(crate) language: Tongue,
    pub(crate) seconds: u64,
}

impl fmt::Display for Off {
    ghost output = { λ o. Some (off_text o.language o.seconds) };

    fn fmt<W: fmt::Write>(&self, f: &mut fmt::Formatter<W>) -> fmt::Result {
        let word = ahead_word(self.language);
        let lasting = Lasting {
            seconds: self.seconds,
        };
        write!(f, "{word}{lasting}")
    }
}

fn ahead_word(language: Tongue) -> &'static str
    ensures { result.now ≡ ahead_word language }
{
    match language {
        Tongue::English => "in ",
        Tongue::Swedish => "om ",
    }
}

// So many seconds in two units.
#[derive(Clone, Copy)]
pub(crate) struct Lasting {
    pub(crate) seconds: u64,
}

impl fmt::Display for Lasting {
    ghost output = { λ l. Some (lasting_text l.seconds) };

    fn fmt<W: fmt::Write>(&self, f: &mut fmt::Formatter<W>) -> fmt::Result {
        let all = self.seconds;
        if all < 60 {
            write!(f, "{all} s")
        } else if all < 3_600 {
            let (minutes, rest) = (all / 60, more_units(all % 60, "s"));
            write!(f, "{minutes} min{rest}")
        } else if all < 86_400 {
            let (hours, rest) = (all / 3_600, more_units(all / 60 % 60, "min"));
            write!(f, "{hours} h{rest}")
        } else {
            let (days, rest) = (all / 86_400, more_units(all / 3_600 % 24, "h"));
            write!(f, "{days} d{rest}")
        }
    }
}

// So many of a smaller unit; nothing where there are none.
#[derive(Clone, Copy)]
struct More {
    count: u64,
    unit: &'static str,
}

fn more_units(count: u64, unit: &'static str) -> More
    ensures count { result.count ≡ count }
    ensures unit { result.unit.now ≡ unit.now }
{
    More { count, unit }
}

impl fmt::Display for More {
    ghost output = { λ m. Some (more_text m.count m.unit.now) };

    fn fmt<W: fmt::Write>(&self, f: &mut fmt::Formatter<W>) -> fmt::Result {
        let (count, unit) = (self.count, self.unit);
        if count == 0 {
            Ok(())
        } else {
            write!(f, " {count} {unit}")
        }
    }
}
