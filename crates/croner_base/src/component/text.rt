//! A part of a list, and the first place of each of its signs: one pass over its text finds them all.

ghost use Rattle.std.specs.Prelude.{◌≡◌, ◌<◌, ◌==◌, nat_lt, if◌then◌else◌};
ghost use Rattle.std.specs.List.{before_first, after_first};
ghost use Rattle.croner_base.specs.Part.{number_of, contains_byte, ends_in_l};
ghost use Rattle.croner_base.specs.Private.Signs.{AreSigns, IsForm, all_at, byte_of, with_byte, place_of, places_up_to};

use std::marker::Model;

/// A byte that tells the forms of parts apart.
#[derive(Clone, Copy)]
pub(super) enum Sign {
    Hash,
    Dash,
    Slash,
    LetterL,
    LetterW,
}

impl Sign {
    pub(super) fn character(self) -> char
        ensures { result ≡ byte_of self }
    {
        match self {
            Sign::Hash => '#',
            Sign::Dash => '-',
            Sign::Slash => '/',
            Sign::LetterL => 'L',
            Sign::LetterW => 'W',
        }
    }
}

/// What a part of a list is, by its signs.
pub(super) enum Form {
    /// A step: it has a `/`.
    Step,
    /// A range: a `-`, and no `/`.
    Range,
    /// A nearest weekday: a `W`, and neither of these.
    Nearest,
    /// The letter `L` alone, capital or small.
    Last,
    /// Anything else.
    Number,
}

/// A place for each sign.
#[derive(Clone, Copy)]
struct Signs {
    hash: usize,
    dash: usize,
    slash: usize,
    letter_l: usize,
    letter_w: usize,
}

impl Signs {
    fn all_at(at: usize) -> Signs
        ensures { result ≡ all_at at }
    {
        Signs {
            hash: at,
            dash: at,
            slash: at,
            letter_l: at,
            letter_w: at,
        }
    }

    /// The place of each sign once one more byte, at a place, is put in front of the text.
    #[inline(always)]
    fn with_byte(self, byte: u8, at: usize) -> Signs
        ensures { result ≡ with_byte self byte at }
    {
        Signs {
            hash: place_if(byte, b'#', at, self.hash),
            dash: place_if(byte, b'-', at, self.dash),
            slash: place_if(byte, b'/', at, self.slash),
            letter_l: place_if(byte, b'L', at, self.letter_l),
            letter_w: place_if(byte, b'W', at, self.letter_w),
        }
    }

    /// The places within the beginning of a text, up to an end.
    #[inline(always)]
    fn places_up_to(self, end: usize) -> Signs
        ensures { result ≡ places_up_to self end }
    {
        Signs {
            hash: lesser_place(self.hash, end),
            dash: lesser_place(self.dash, end),
            slash: lesser_place(self.slash, end),
            letter_l: lesser_place(self.letter_l, end),
            letter_w: lesser_place(self.letter_w, end),
        }
    }

    #[inline(always)]
    fn place(self, sign: Sign) -> usize
        ensures { result ≡ place_of self sign }
    {
        match sign {
            Sign::Hash => self.hash,
            Sign::Dash => self.dash,
            Sign::Slash => self.slash,
            Sign::LetterL => self.letter_l,
            Sign::LetterW => self.letter_w,
        }
    }
}

#[inline(always)]
fn place_if(byte: u8, sign: u8, at: usize, place: usize) -> usize
    ensures { result ≡ (if byte == sign then at else place) }
{
    if byte == sign { at } else { place }
}

#[inline(always)]
fn lesser_place(place: usize, end: usize) -> usize
    ensures { result ≡ (if nat_lt place end then place else end) }
{
    if place < end { place } else { end }
}

/// The first place of each sign, or the length where it isn't there, in one pass from the end.
fn signs_of(text: &[u8]) -> Signs
    ensures { AreSigns text.now result }
{
    let mut at = text.len();
    let mut signs = Signs::all_at(at);
    while at > 0 {
        at -= 1;
        signs = signs.with_byte(text[at], at);
    }
    signs
}

/// A part of a list, or the front of one, and the first place of each sign in it.
#[derive(Drop)]
pub(super) struct Part<'t> {
    text: &'t str,
    signs: Signs,
}

impl<'t> Model for Part<'t> {
    ghost use Rattle.std.specs.Prelude.{ℕ, List};
    ghost use Rattle.croner_base.specs.Private.Signs.{AreSigns};

    ghost Value = { List ℕ };

    ghost view = { λ p. p.text.now };

    ghost invariant = { λ p. AreSigns p.text.now p.signs };
}

impl<'t> Part<'t> {
    pub(super) fn new(text: &'t str) -> Part<'t>
        ensures { result ≡ text.now }
    {
        let signs = signs_of(text.as_bytes());
        Part { text, signs }
    }

    #[inline(always)]
    pub(super) fn text(&self) -> &'t str
        ensures { result.now ≡ self.now }
    {
        self.text
    }

    #[inline(always)]
    pub(super) fn has(&self, sign: Sign) -> bool
        ensures { result ≡ contains_byte (byte_of sign) self.now }
    {
        self.signs.place(sign) < self.text.len()
    }

    /// The text before the first such sign, or all of it where there is none.
    #[inline(always)]
    pub(super) fn part_before(&self, sign: Sign) -> Part<'t>
        ensures { result ≡ before_first (λ b. b == byte_of sign) self.now }
    {
        let end = self.signs.place(sign);
        Part {
            text: &self.text[..end],
            signs: self.signs.places_up_to(end),
        }
    }

    /// The text after the first such sign, or nothing where there is none.
    #[inline(always)]
    pub(super) fn text_after(&self, sign: Sign) -> &'t str
        ensures { result.now ≡ after_first (λ b. b == byte_of sign) self.now }
    {
        let (text, at) = (self.text(), self.signs.place(sign));
        if at < text.len() { &text[at + 1..] } else { "" }
    }

    pub(super) fn ends_in_l(&self) -> bool
        ensures { result ≡ ends_in_l self.now }
    {
        self.text.ends_with('L')
    }

    pub(super) fn form(&self) -> Form
        ensures { IsForm self.now result }
    {
        if self.has(Sign::Slash) {
            Form::Step
        } else if self.has(Sign::Dash) {
            Form::Range
        } else if self.has(Sign::LetterW) {
            Form::Nearest
        } else if self.text == "L" || self.text == "l" {
            Form::Last
        } else {
            Form::Number
        }
    }
}

pub(super) fn number(text: &str) -> Option<u16>
    ensures { result ≡ number_of text.now }
{
    text.parse::<u16>().ok()
}

pub(super) fn has(text: &str, sign: char) -> bool
    requires { sign < 128 }
    ensures { result ≡ contains_byte sign text.now }
{
    text.contains(sign)
}
