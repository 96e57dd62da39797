//! Which differences hold of a text.
ghost use Rattle.std.specs.Prelude.{◌≡◌, IfOk, IfErr, map, filter, option_map};
ghost use Rattle.croner_presets.specs.Differences.{first_word, is_nickname, has_capital, is_midnight, is_every, has_zone, any_field, any_day_field, any_named_field, has_name_without, has_other_name, has_plus, has_plus_digit, has_question_elsewhere, has_not_one_open_day, has_star_in_list, has_star_in_day_list, has_star_in_any_list, has_step_of_open_day, has_last_in_list, has_second_hash, has_nth_in_list, has_nearest_in_list, has_large_step, has_days_before_last, has_range_down, is_lone_star, has_star_among_days, of_fields, holds_of_fields, holds, AreDifferences};
ghost use Rattle.croner_presets.specs.Views.{fields_seen};

use crate::difference::Difference;
use crate::fields::{Fields, fields_of, words_of};
use crate::frequent::means_frequent;
use crate::part::{Form, begins_with, has, has_part, is_digit_at, text_after};
use crate::preset::Preset;
use croner::errors::CronError;
use std::alloc::Global;

/// The differences between how a program reads this text and how the parser of its preset does: exactly those of
/// [`differences_looked_for`](Preset::differences_looked_for) that hold, in that order.
///
/// Each is about a form in the text, not about the whole text: where the text is otherwise wrong, both may refuse it. The only error is
/// `OutOfMemory`.
///
/// ```
/// let found = differences(alloc, Preset::Kubernetes, "0 9 * * 7")?; // [Difference::SundayAsSeven]
/// ```
pub fn differences(alloc: Global, preset: Preset, text: &str) -> Result<Vec<Difference>, CronError>
    ensures ok { IfOk result (λ found. AreDifferences preset text.now found.items) }
    ensures err { IfErr result (λ e. e ≡ CronError.OutOfMemory) }
{
    let raised = text.to_ascii_uppercase(alloc)?;
    let words = words_of(alloc, raised.as_str())?;
    those_that_hold(
        alloc,
        preset,
        text,
        words.as_slice(),
        preset.differences_looked_for(),
    )
}

// Those of some differences that hold of a text with these words.
fn those_that_hold(
    alloc: Global,
    preset: Preset,
    text: &str,
    words: &[&str],
    differences: &[Difference],
) -> Result<Vec<Difference>, CronError>
    ensures ok { IfOk result (λ found. found.items ≡ filter (holds preset text.now (map (λ w. w.now) words.now)) differences.now) }
    ensures err { IfErr result (λ e. e ≡ CronError.OutOfMemory) }
{
    let mut found = Vec::new(alloc);
    for difference in differences {
        if holds(alloc, preset, text, words, *difference)? {
            found.push(*difference)?;
        }
    }
    Ok(found)
}

fn holds(
    alloc: Global,
    preset: Preset,
    text: &str,
    words: &[&str],
    difference: Difference,
) -> Result<bool, CronError>
    ensures ok { IfOk result (λ yes. yes ≡ holds preset text.now (map (λ w. w.now) words.now) difference) }
    ensures err { IfErr result (λ e. e ≡ CronError.OutOfMemory) }
{
    match difference {
        Difference::NicknameInCapitals => Ok(is_nickname(words) && has_capital(text)),
        Difference::Nickname => Ok(is_nickname(words)),
        Difference::Midnight => Ok(is_midnight(words) && !has_capital(text)),
        Difference::Every => Ok(is_every(words) && !has_capital(text)),
        Difference::ZoneInFront => Ok(has_zone(text, words)),
        Difference::Frequent => means_frequent(alloc, preset, text),
        _ => Ok(holds_of_fields(fields_of(preset, words), difference)),
    }
}

fn first_word<'t>(words: &[&'t str]) -> &'t str
    ensures { result.now ≡ first_word (map (λ w. w.now) words.now) }
{
    match words {
        [word, ..] => word,
        [] => "",
    }
}

fn is_nickname(words: &[&str]) -> bool
    ensures { result ≡ is_nickname (map (λ w. w.now) words.now) }
{
    first_word(words).starts_with('@')
}

fn has_capital(text: &str) -> bool
    ensures { result ≡ has_capital text.now }
{
    text.as_bytes().iter().any(|byte| byte.is_ascii_uppercase())
}

fn is_midnight(words: &[&str]) -> bool
    ensures { result ≡ is_midnight (map (λ w. w.now) words.now) }
{
    first_word(words) == "@MIDNIGHT" && words.len() == 1
}

fn is_every(words: &[&str]) -> bool
    ensures { result ≡ is_every (map (λ w. w.now) words.now) }
{
    first_word(words) == "@EVERY" && words.len() == 2
}

fn has_zone(text: &str, words: &[&str]) -> bool
    ensures { result ≡ has_zone text.now (map (λ w. w.now) words.now) }
{
    (begins_with(text, "TZ=") || begins_with(text, "CRON_TZ=")) && 1 < words.len()
}

// ---- the fields

// Whether a difference of fields holds, if there are fields.
fn holds_of_fields(fields: Option<Fields<'_>>, difference: Difference) -> bool
    ensures { result ≡ of_fields (λ t. holds_of_fields t difference) (option_map fields_seen fields.entry) }
{
    match fields {
        Some(fields) => fields.holds(difference),
        None => false,
    }
}

fn has_name(field: &str) -> bool
    ensures { result ≡ has_name_without field.now }
{
    has_part(Form::MonthName, field) || has_part(Form::WeekdayName, field)
}

fn has_star_in_list(field: &str) -> bool
    ensures { result ≡ has_star_in_list field.now }
{
    has(field, ',') && has_part(Form::Star, field)
}

fn has_star_in_day_list(field: &str) -> bool
    ensures { result ≡ has_star_in_day_list field.now }
{
    has(field, ',') && (has_part(Form::Star, field) || has_part(Form::Open, field))
}

fn has_step_of_open_day(field: &str) -> bool
    ensures { result ≡ has_step_of_open_day field.now }
{
    has(field, '?') && has(field, '/')
}

fn has_last_in_list(field: &str) -> bool
    ensures { result ≡ has_last_in_list field.now }
{
    has(field, 'L') && has(field, ',')
}

fn has_second_hash(field: &str) -> bool
    ensures { result ≡ has_second_hash field.now }
{
    has(text_after(field, '#'), '#')
}

fn has_nth_in_list(field: &str) -> bool
    ensures { result ≡ has_nth_in_list field.now }
{
    (has(field, ',') && has_part(Form::Nth, field)) && !has_second_hash(field)
}

fn has_nearest_in_list(field: &str) -> bool
    ensures { result ≡ has_nearest_in_list field.now }
{
    (has(field, ',') && has_part(Form::Nearest, field)) && !has(field, 'L')
}

fn has_days_before_last(field: &str) -> bool
    ensures { result ≡ has_days_before_last field.now }
{
    (begins_with(field, "L-") && !has(field, ',')) && is_digit_at(field, 2)
}

fn is_lone_star(field: &str) -> bool
    ensures { result ≡ is_lone_star field.now }
{
    field == "*" || field == "?"
}

impl Fields<'_> {
    fn any_field_has(&self, form: Form) -> bool
        ensures { result ≡ any_field form (fields_seen self.now) }
    {
        has_part(form, self.seconds)
            || has_part(form, self.minutes)
            || has_part(form, self.hours)
            || has_part(form, self.days)
            || has_part(form, self.months)
            || has_part(form, self.weekdays)
            || has_part(form, self.years)
    }

    fn any_day_field_has(&self, form: Form) -> bool
        ensures { result ≡ any_day_field form (fields_seen self.now) }
    {
        has_part(form, self.days) || has_part(form, self.weekdays)
    }

    fn any_named_field_has(&self, form: Form) -> bool
        ensures { result ≡ any_named_field form (fields_seen self.now) }
    {
        has_part(form, self.months) || has_part(form, self.weekdays)
    }

    fn has_other_name(&self) -> bool
        ensures { result ≡ has_other_name (fields_seen self.now) }
    {
        has_name(self.seconds)
            || has_name(self.minutes)
            || has_name(self.hours)
            || has_name(self.days)
            || has_part(Form::WeekdayName, self.months)
            || has_part(Form::MonthName, self.weekdays)
            || has_name(self.years)
    }

    fn has_plus(&self) -> bool
        ensures { result ≡ has_plus (fields_seen self.now) }
    {
        self.weekdays.starts_with('+')
    }

    fn has_plus_digit(&self) -> bool
        ensures { result ≡ has_plus_digit (fields_seen self.now) }
    {
        self.has_plus() && is_digit_at(self.weekdays, 1)
    }

    fn has_question_elsewhere(&self) -> bool
        ensures { result ≡ has_question_elsewhere (fields_seen self.now) }
    {
        has_part(Form::QuestionMark, self.minutes)
            || has_part(Form::QuestionMark, self.hours)
            || has_part(Form::QuestionMark, self.months)
    }

    fn has_not_one_open_day(&self) -> bool
        ensures { result ≡ has_not_one_open_day (fields_seen self.now) }
    {
        if has(self.days, '?') {
            has(self.weekdays, '?')
        } else {
            !has(self.weekdays, '?')
        }
    }

    fn has_star_in_any_list(&self) -> bool
        ensures { result ≡ has_star_in_any_list (fields_seen self.now) }
    {
        has_star_in_list(self.seconds)
            || has_star_in_list(self.minutes)
            || has_star_in_list(self.hours)
            || has_star_in_day_list(self.days)
            || has_star_in_list(self.months)
            || has_star_in_day_list(self.weekdays)
            || has_star_in_list(self.years)
    }

    fn has_large_step(&self) -> bool
        ensures { result ≡ has_large_step (fields_seen self.now) }
    {
        has_part(Form::StepAbove(59), self.seconds)
            || has_part(Form::StepAbove(59), self.minutes)
            || has_part(Form::StepAbove(23), self.hours)
            || has_part(Form::StepAbove(31), self.days)
            || has_part(Form::StepAbove(12), self.months)
            || has_part(Form::StepAbove(7), self.weekdays)
    }

    fn has_range_down(&self) -> bool
        ensures { result ≡ has_range_down (fields_seen self.now) }
    {
        has_part(Form::Down, self.seconds)
            || has_part(Form::Down, self.minutes)
            || has_part(Form::Down, self.hours)
            || has_part(Form::Down, self.days)
            || has_part(Form::Down, self.months)
            || has_part(Form::Down, self.weekdays)
    }

    fn has_star_among_days(&self) -> bool
        ensures { result ≡ has_star_among_days (fields_seen self.now) }
    {
        !(is_lone_star(self.days) || is_lone_star(self.weekdays))
            && self.any_day_field_has(Form::All)
    }

    // Whether a difference of fields holds; one of the whole text doesn't.
    fn holds(&self, difference: Difference) -> bool
        ensures { result ≡ holds_of_fields (fields_seen self.now) difference }
    {
        match difference {
            Difference::SundayAsSeven => has_part(Form::Seven, self.weekdays),
            Difference::RangeToSunday => has_part(Form::ToSunday, self.weekdays),
            Difference::OtherName => self.has_other_name(),
            Difference::DayModifier => self.any_day_field_has(Form::Modified),
            Difference::QuestionMark => has(self.days, '?') || has(self.weekdays, '?'),
            Difference::Plus => self.has_plus(),
            Difference::PlusBeforeName => self.has_plus() && !self.has_plus_digit(),
            Difference::StepWithoutStart => self.any_field_has(Form::WithoutStart),
            Difference::EmptyPart => self.any_field_has(Form::Empty),
            Difference::NotOneOpenDay => self.has_not_one_open_day(),
            Difference::LastInList => {
                has_last_in_list(self.days) || has_last_in_list(self.weekdays)
            }
            Difference::LastByHash => has_part(Form::LastByHash, self.weekdays),
            Difference::SecondNth => has_second_hash(self.weekdays),
            Difference::LargeStep => self.has_large_step(),
            Difference::MixedRange => self.any_named_field_has(Form::Mixed),
            Difference::QuestionMarkElsewhere => self.has_question_elsewhere(),
            Difference::StarInList => self.has_star_in_any_list(),
            Difference::DaysBeforeLast => has_days_before_last(self.days),
            Difference::RangeDown => self.has_range_down(),
            Difference::RangeModified => self.any_day_field_has(Form::RangeModified),
            Difference::StepOfZero => self.any_field_has(Form::StepOfZero),
            Difference::LongName => self.any_named_field_has(Form::LongName),
            Difference::DayZero => has_part(Form::Zero, self.days),
            Difference::StarAmongDays => self.has_star_among_days(),
            Difference::SundayToSunday => has_part(Form::SundayToSunday, self.weekdays),
            Difference::PlusBeforeNumber => self.has_plus_digit(),
            Difference::StepToSunday => has_part(Form::ReachesSeven, self.weekdays),
            Difference::NthInList => has_nth_in_list(self.weekdays),
            Difference::NthOfRange => has_part(Form::NthOfRange, self.weekdays),
            Difference::NearestInList => has_nearest_in_list(self.days),
            Difference::LateNearest => has_part(Form::LateNearest, self.days),
            Difference::LoneLastWeekday => self.weekdays == "L",
            Difference::StepOfName => self.any_named_field_has(Form::StepOfName),
            Difference::StepOfOpenDay => {
                has_step_of_open_day(self.days) || has_step_of_open_day(self.weekdays)
            }
            Difference::DayStepFromZero => has_part(Form::StarStep, self.days),
            Difference::YearStepFrom1970 => has_part(Form::YearStep, self.years),
            Difference::NicknameInCapitals
            | Difference::Nickname
            | Difference::Midnight
            | Difference::Every
            | Difference::ZoneInFront
            | Difference::Frequent => false,
        }
    }
}
