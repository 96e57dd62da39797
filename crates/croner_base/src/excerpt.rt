//! What a message repeats of a text: enough to find the place, and no more.

ghost use Rattle.std.specs.Prelude.{◌≡◌, ◌≤◌, ◌<◌, ◌^◌, length, take, Some};
ghost use Rattle.std.specs.Str.{chars};
ghost use Rattle.croner_base.specs.Excerpt.{excerpt, excerpt_characters, half_excerpt_characters, shown, all_shown, is_among, is_control, ends_a_line, turns_round, has_no_width, has_no_width_above, is_unseen};

use std::fmt;

/// The most characters of a text that a message repeats.
const EXCERPT_CHARACTERS: usize = 64;

/// The most characters of each, where a message repeats both a part and a piece of that part.
const HALF_EXCERPT_CHARACTERS: usize = 32;

/// A text as a message quotes it: whole if it is short enough, otherwise its first characters and how many are left out.
/// It is never cut inside a character. A character that a terminal acts on, or that is invisible, is written as `\t`,
/// `\n`, `\r` or by its number, as `\u{1b}`.
#[derive(Debug, Clone, Copy)]
pub struct Excerpt<'t> {
    text: &'t str,
    most: usize,
    ghost bounded: { most ≤ 64 },
}

impl<'t> Excerpt<'t> {
    /// The excerpt of a text, of at most 64 characters. It takes at most 686 bytes, however long the text is.
    pub fn of(text: &'t str) -> Excerpt<'t>
        ensures text { result.text.now ≡ text.now }
        ensures most { result.most ≡ excerpt_characters }
        ensures short { length text.now < 2 ^ 64 → length (excerpt excerpt_characters text.now) ≤ 686 }
    {
        Excerpt {
            text,
            most: EXCERPT_CHARACTERS,
        }
    }

    /// The excerpt of one of two texts that a message repeats: each has at most 32 characters, and takes at most 366
    /// bytes.
    pub fn of_one_of_two(text: &'t str) -> Excerpt<'t>
        ensures text { result.text.now ≡ text.now }
        ensures most { result.most ≡ half_excerpt_characters }
        ensures short { length text.now < 2 ^ 64 → length (excerpt half_excerpt_characters text.now) ≤ 366 }
    {
        Excerpt {
            text,
            most: HALF_EXCERPT_CHARACTERS,
        }
    }

    fn text(&self) -> &'t str
        ensures { result.now ≡ self.now.text.now }
    {
        self.text
    }

    fn most(&self) -> usize
        ensures value { result ≡ self.now.most }
        ensures bounded { result ≤ 64 }
    {
        self.most
    }
}

/// `'0-60'`, or for a text of 100 characters its first 64 in quotes and ` (characters left out: 36)`.
impl fmt::Display for Excerpt<'_> {
    ghost output = { λ e. Some (excerpt e.most e.text.now) };

    fn fmt<W: fmt::Write>(&self, f: &mut fmt::Formatter<W>) -> fmt::Result {
        let text = self.text();
        let most = self.most();
        let count = character_count(text);
        let front = Front { text, most };
        if count <= most {
            return write!(f, "'{front}'");
        }
        let left_out = count - most;
        write!(f, "'{front}' (characters left out: {left_out})")
    }
}

fn character_count(text: &str) -> usize
    ensures { result ≡ length (chars text.now) }
{
    text.chars().count()
}

/// The first characters of a text, up to a number of them, as a message repeats them.
#[derive(Clone, Copy)]
struct Front<'t> {
    text: &'t str,
    most: usize,
}

impl<'t> Front<'t> {
    fn text(&self) -> &'t str
        ensures { result.now ≡ self.now.text.now }
    {
        self.text
    }
}

impl fmt::Display for Front<'_> {
    ghost output = { λ s. Some (all_shown (take s.most (chars s.text.now))) };

    fn fmt<W: fmt::Write>(&self, f: &mut fmt::Formatter<W>) -> fmt::Result {
        let text = self.text();
        let mut rest = text.chars();
        let mut left = self.most;
        while left > 0 {
            let Some(c) = rest.next() else {
                return Ok(());
            };
            let shown = ShownCharacter::of(c);
            write!(f, "{shown}")?;
            left -= 1;
        }
        Ok(())
    }
}

/// A character as a message repeats it: one that a terminal acts on, or that is invisible, as `\t`, `\n`, `\r` or by its
/// number, as `\u{1b}`.
#[derive(Clone, Copy)]
pub struct ShownCharacter {
    c: char,
}

impl ShownCharacter {
    /// A character, as it is repeated.
    pub fn of(c: char) -> ShownCharacter
        ensures { result.c ≡ c }
    {
        ShownCharacter { c }
    }
}

impl fmt::Display for ShownCharacter {
    ghost output = { λ s. Some (shown s.c) };

    fn fmt<W: fmt::Write>(&self, f: &mut fmt::Formatter<W>) -> fmt::Result {
        let c = self.c;
        match c {
            '\t' => f.write_str("\\t"),
            '\n' => f.write_str("\\n"),
            '\r' => f.write_str("\\r"),
            _ if is_unseen(c) => {
                let code = u32::from(c);
                write!(f, "\\u{{{code:x}}}")
            }
            _ => f.write_char(c),
        }
    }
}

fn is_among(c: char, first: char, last: char) -> bool
    ensures { result ≡ is_among first last c }
{
    first <= c && c <= last
}

fn is_control(c: char) -> bool
    ensures { result ≡ is_control c }
{
    is_among(c, '\0', '\u{1f}') || is_among(c, '\u{7f}', '\u{9f}')
}

fn ends_a_line(c: char) -> bool
    ensures { result ≡ ends_a_line c }
{
    is_among(c, '\u{2028}', '\u{2029}')
}

fn turns_round(c: char) -> bool
    ensures { result ≡ turns_round c }
{
    c == '\u{61c}'
        || is_among(c, '\u{200e}', '\u{200f}')
        || is_among(c, '\u{202a}', '\u{202e}')
        || is_among(c, '\u{2066}', '\u{2069}')
}

fn has_no_width(c: char) -> bool
    ensures { result ≡ has_no_width c }
{
    c == '\u{ad}'
        || c == '\u{34f}'
        || is_among(c, '\u{115f}', '\u{1160}')
        || is_among(c, '\u{17b4}', '\u{17b5}')
        || is_among(c, '\u{180b}', '\u{180f}')
        || is_among(c, '\u{200b}', '\u{200d}')
        || is_among(c, '\u{2060}', '\u{2065}')
        || is_among(c, '\u{206a}', '\u{206f}')
        || c == '\u{3164}'
        || is_among(c, '\u{fe00}', '\u{fe0f}')
        || c == '\u{feff}'
        || c == '\u{ffa0}'
        || is_among(c, '\u{fff0}', '\u{fffb}')
}

fn has_no_width_above(c: char) -> bool
    ensures { result ≡ has_no_width_above c }
{
    is_among(c, '\u{1bca0}', '\u{1bca3}')
        || is_among(c, '\u{1d173}', '\u{1d17a}')
        || is_among(c, '\u{e0000}', '\u{e0fff}')
}

/// Whether a character is a control character, ends a line, reverses the direction of others or has no width.
fn is_unseen(c: char) -> bool
    ensures { result ≡ is_unseen c }
{
    is_control(c) || ends_a_line(c) || turns_round(c) || has_no_width(c) || has_no_width_above(c)
}
