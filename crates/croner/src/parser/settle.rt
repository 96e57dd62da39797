//! The third step: the signs `?` and `+` of the day fields are settled. Also what is settled after the last step:
//! Sunday as 7.

ghost use Rattle.std.specs.Prelude.{◌≡◌, ℕ, ◌||◌, ◌==◌, true, false, fold, IfOk, MatchOption, string_bytes, if◌then◌else◌};
ghost use Rattle.croner_base.specs.Field.{has_all};
ghost use Rattle.croner.specs.parser.Grammar.{has_plus, is_star, settled, starred, sunday_moved, weekday_modifiers, without_plus};
ghost use Rattle.croner.specs.Private.parser.Steps.{IsSettled, TakesSunday};
ghost use Rattle.croner.specs.Views.{texts_of};

use super::CronParser;
use super::fields::FieldTexts;
use super::prepare::{has_byte, text_or};
use croner_base::component::{
    ALL_BIT, CronComponent, LAST_BIT, NTH_1ST_BIT, NTH_2ND_BIT, NTH_3RD_BIT, NTH_4TH_BIT,
    NTH_5TH_BIT,
};
use std::alloc::{AllocError, Global};

/// The value of Sunday as 7.
const SUNDAY_AS_SEVEN: u16 = 7;

/// What the signs of the day fields mean: copies of these fields, if they have a `?`, and whether both have to fit.
#[derive(Drop)]
pub struct Settled {
    days: Option<String>,
    days_of_week: Option<String>,
    pub and: bool,
}

impl Settled {
    /// The fields as they are read.
    pub fn fields<'t>(&'t self, written: FieldTexts<'t>) -> FieldTexts<'t>
        ensures { IsSettled (texts_of written.entry) self.now → texts_of result ≡ settled (texts_of written.entry) }
    {
        let weekdays = without_plus(written.days_of_week);
        FieldTexts {
            seconds: written.seconds,
            minutes: written.minutes,
            hours: written.hours,
            days: text_or(&self.days, written.days),
            months: written.months,
            days_of_week: text_or(&self.days_of_week, weekdays),
            years: written.years,
        }
    }
}

impl CronParser {
    /// The day fields with `*` for each `?`, and without one `+` before the weekdays.
    pub(super) fn settle(
        &self,
        alloc: Global,
        written: FieldTexts<'_>,
    ) -> Result<Settled, AllocError>
        ensures { IfOk result (λ f. IsSettled (texts_of written.entry) f × (f.and ≡ (self.now.both_days || has_plus (texts_of written.entry).days_of_week))) }
    {
        let weekdays = without_plus(written.days_of_week);
        let days = replace_questions(alloc, written.days)?;
        let days_of_week = replace_questions(alloc, weekdays)?;
        let and = self.joins(written.days_of_week);
        Ok(Settled {
            days,
            days_of_week,
            and,
        })
    }

    /// Whether both day fields have to fit: by the settings, or by the `+` of the weekday field.
    fn joins(&self, weekdays: &str) -> bool
        ensures { result ≡ (self.now.both_days || has_plus weekdays.now) }
    {
        self.dom_and_dow || has_plus(weekdays)
    }
}

/// Whether a text begins with `+`.
pub fn has_plus(text: &str) -> bool
    ensures { result ≡ has_plus text.now }
{
    match text.as_bytes() {
        [first, ..] => *first == b'+',
        [] => false,
    }
}

/// The text without one leading `+`.
pub fn without_plus(text: &str) -> &str
    ensures { result.now ≡ without_plus text.now }
{
    match text.strip_prefix('+') {
        Some(rest) => rest,
        None => text,
    }
}

/// The text with `*` in place of each `?`, if it has one.
pub fn replace_questions(alloc: Global, text: &str) -> Result<Option<String>, AllocError>
    ensures { IfOk result (λ t. MatchOption t (starred text.now ≡ text.now) (λ t. string_bytes t ≡ starred text.now)) }
{
    if !has_byte(text, b'?') {
        return Ok(None);
    }
    let mut written = String::with_capacity(alloc, text.len())?;
    for c in text.chars() {
        written.push(star_for(c))?;
    }
    Ok(Some(written))
}

/// `*` for `?`, and any other character for itself.
fn star_for(c: char) -> char
    ensures { result ≡ (if c == 63 then 42 else c) }
{
    if c == '?' { '*' } else { c }
}

/// Whether a field is written as a star.
pub fn is_star(text: &str) -> bool
    ensures { result ≡ is_star text.now }
{
    text == "*"
}

/// Moves weekday 7 to 0, for every modifier; in Quartz mode it stays.
pub fn settle_weekdays(weekdays: &mut CronComponent, quartz: bool)
    requires { quartz ≡ false → (bit : ℕ) → has_all 127 bit ≡ true → TakesSunday weekdays.old.shape bit }
    ensures { weekdays.new ≡ (if quartz then weekdays.old else fold sunday_moved weekdays.old weekday_modifiers) }
{
    if quartz {
        return;
    }
    move_sunday(weekdays, ALL_BIT);
    move_sunday(weekdays, NTH_1ST_BIT);
    move_sunday(weekdays, NTH_2ND_BIT);
    move_sunday(weekdays, NTH_3RD_BIT);
    move_sunday(weekdays, NTH_4TH_BIT);
    move_sunday(weekdays, NTH_5TH_BIT);
    move_sunday(weekdays, LAST_BIT);
}

/// Moves weekday 7 with one modifier to 0.
fn move_sunday(weekdays: &mut CronComponent, bit: u8)
    requires { TakesSunday weekdays.old.shape bit }
    ensures moved { weekdays.new ≡ sunday_moved weekdays.old bit }
    ensures shape { weekdays.new.shape ≡ weekdays.old.shape }
{
    let Ok(has_seven) = weekdays.is_bit_set(SUNDAY_AS_SEVEN, bit) else {
        unreachable!()
    };
    if has_seven {
        let Ok(()) = weekdays.unset_bit(SUNDAY_AS_SEVEN, bit) else {
            unreachable!()
        };
        let Ok(()) = weekdays.set_bit(0, bit) else {
            unreachable!()
        };
    }
}
