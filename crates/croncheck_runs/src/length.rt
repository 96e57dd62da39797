//! Lengths of time in words.
ghost use Rattle.std.specs.Prelude.{◌≡◌, Some};
ghost use Rattle.croncheck_runs.specs.Length.{length_text, unit_text, rest_text, number_text};

use std::fmt;

/// So many seconds as hours, minutes and seconds: `three hours`, `26 hours 30 minutes`, `one minute`.
#[derive(Clone, Copy)]
pub struct Length {
    pub seconds: u64,
}

impl fmt::Display for Length {
    ghost output = { λ l. Some (length_text l.seconds) };

    fn fmt<W: fmt::Write>(&self, f: &mut fmt::Formatter<W>) -> fmt::Result {
        let all = self.seconds;
        let (hours, minutes, seconds) = (
            units_of(all / 3_600, "hour"),
            units_of(all / 60 % 60, "minute"),
            units_of(all % 60, "second"),
        );
        if 3_600 <= all {
            let (minutes, seconds) = (Rest { units: minutes }, Rest { units: seconds });
            write!(f, "{hours}{minutes}{seconds}")
        } else if 60 <= all {
            let seconds = Rest { units: seconds };
            write!(f, "{minutes}{seconds}")
        } else {
            write!(f, "{seconds}")
        }
    }
}

// So many of a unit: `one hour`, `30 minutes`.
#[derive(Clone, Copy)]
struct Units {
    count: u64,
    name: &'static str,
}

fn units_of(count: u64, name: &'static str) -> Units
    ensures count { result.count ≡ count }
    ensures name { result.name.now ≡ name.now }
{
    Units { count, name }
}

impl fmt::Display for Units {
    ghost output = { λ u. Some (unit_text u.count u.name.now) };

    fn fmt<W: fmt::Write>(&self, f: &mut fmt::Formatter<W>) -> fmt::Result {
        let (count, name) = (Number { n: self.count }, self.name);
        if self.count == 1 {
            write!(f, "{count} {name}")
        } else {
            write!(f, "{count} {name}s")
        }
    }
}

// The same after a larger unit: a blank, and so many; nothing where there are none.
#[derive(Clone, Copy)]
struct Rest {
    units: Units,
}

impl fmt::Display for Rest {
    ghost output = { λ r. Some (rest_text r.units.count r.units.name.now) };

    fn fmt<W: fmt::Write>(&self, f: &mut fmt::Formatter<W>) -> fmt::Result {
        let units = self.units;
        if units.count == 0 {
            Ok(())
        } else {
            write!(f, " {units}")
        }
    }
}

// A number, in words from one to twelve.
#[derive(Clone, Copy)]
struct Number {
    n: u64,
}

impl fmt::Display for Number {
    ghost output = { λ number. Some (number_text number.n) };

    fn fmt<W: fmt::Write>(&self, f: &mut fmt::Formatter<W>) -> fmt::Result {
        match self.n {
            1 => f.write_str("one"),
            2 => f.write_str("two"),
            3 => f.write_str("three"),
            4 => f.write_str("four"),
            5 => f.write_str("five"),
            6 => f.write_str("six"),
            7 => f.write_str("seven"),
            8 => f.write_str("eight"),
            9 => f.write_str("nine"),
            10 => f.write_str("ten"),
            11 => f.write_str("eleven"),
            12 => f.write_str("twelve"),
            n => write!(f, "{n}"),
        }
    }
}
