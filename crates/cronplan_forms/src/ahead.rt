//! How far a clock is ahead of UTC, as it is shown.
ghost use Rattle.std.specs.Prelude.{◌≡◌};
ghost use Rattle.cronplan_forms.specs.Clocks.{sign_text};

use std::fmt;

/// Seconds ahead of UTC as hours, minutes and, unless 0, seconds: `+02:00`. A negative number is behind UTC.
#[derive(Clone, Copy)]
pub struct Ahead {
    pub seconds: i64,
}

impl fmt::Display for Ahead {
    ghost use Rattle.std.specs.Prelude.{Some};
    ghost use Rattle.cronplan_forms.specs.Clocks.{ahead_text};

    ghost output = { λ a. Some (ahead_text a.seconds) };

    fn fmt<W: fmt::Write>(&self, f: &mut fmt::Formatter<W>) -> fmt::Result {
        let sign = sign_text(self.seconds);
        let length = ClockLength {
            seconds: self.seconds.unsigned_abs(),
        };
        write!(f, "{sign}{length}")
    }
}

// A number of seconds as hours, minutes and, unless 0, seconds.
#[derive(Clone, Copy)]
struct ClockLength {
    seconds: u64,
}

impl fmt::Display for ClockLength {
    ghost use Rattle.std.specs.Prelude.{Some};
    ghost use Rattle.cronplan_forms.specs.Clocks.{clock_length};

    ghost output = { λ l. Some (clock_length l.seconds) };

    fn fmt<W: fmt::Write>(&self, f: &mut fmt::Formatter<W>) -> fmt::Result {
        let all = self.seconds;
        let (hours, minutes) = (all / 3_600, all / 60 % 60);
        let rest = OddSeconds { seconds: all % 60 };
        write!(f, "{hours:02}:{minutes:02}{rest}")
    }
}

// The seconds after hours and minutes; nothing where there are none.
#[derive(Clone, Copy)]
struct OddSeconds {
    seconds: u64,
}

impl fmt::Display for OddSeconds {
    ghost use Rattle.std.specs.Prelude.{Some};
    ghost use Rattle.cronplan_forms.specs.Clocks.{odd_seconds};

    ghost output = { λ o. Some (odd_seconds o.seconds) };

    fn fmt<W: fmt::Write>(&self, f: &mut fmt::Formatter<W>) -> fmt::Result {
        let seconds = self.seconds;
        if seconds == 0 {
            Ok(())
        } else {
            write!(f, ":{seconds:02}")
        }
    }
}

fn sign_text(seconds: i64) -> &'static str
    ensures { result.now ≡ sign_text seconds }
{
    if seconds < 0 { "-" } else { "+" }
}
