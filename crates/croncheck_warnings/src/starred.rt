//! Which jobs of a crontab cron treats as starred where the clock changes.
ghost use Rattle.std.specs.Prelude.{◌≡◌};
ghost use Rattle.std.specs.Str.{bytes_eq};
ghost use Rattle.crontab.specs.Line.{next};
ghost use Rattle.croncheck_warnings.specs.Starred.{has_clock_star, is_starred};

use crontab::bytes::{Kind, begins_with, cut};

/// The nickname whose hours are a star.
const HOURLY: &str = "@hourly";

/// Whether a job with these times, as they are written, is starred: the text of the minutes or that of the hours begins with a star, or the
/// times are `@hourly`.
pub fn is_starred(times: &[u8]) -> bool
    ensures { result ≡ is_starred times.now }
{
    has_clock_star(times) || is_word(times, HOURLY)
}

// Whether the text of the minutes or that of the hours begins with a star.
fn has_clock_star(times: &[u8]) -> bool
    ensures { result ≡ has_clock_star times.now }
{
    begins_with(times, b'*') || begins_with(next(times), b'*')
}

// What stands after the first word and the blanks after it.
fn next(text: &[u8]) -> &[u8]
    ensures { result.now ≡ next text.now }
{
    let (_, rest) = cut(text, Kind::Word);
    let (_, rest) = cut(rest, Kind::Blank);
    rest
}

fn is_word(text: &[u8], word: &str) -> bool
    ensures { result ≡ bytes_eq text.now word.now }
{
    text == word.as_bytes()
}
