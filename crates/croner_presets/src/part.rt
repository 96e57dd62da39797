//! The parts of a field's list, each by its text alone.
ghost use Rattle.std.specs.Prelude.{◌≡◌, ◌<◌, ◌-◌, ◌==◌, slice_index, option_map};
ghost use Rattle.std.specs.List.{list_any, before_first, after_first};
ghost use Rattle.croner_base.specs.Part.{number_of, contains_byte};
ghost use Rattle.croner_presets.specs.Parts.{front_of_step, is_digit_at, is_capital, has_step, step_of, is_range, low_side, high_side, high_value, is_starred, is_number, is_above, month_of, weekday_of, name_of, is_name, is_sunday, begins_with_text, begins_with_name, has_side, ends_at_sunday, starts_at_sunday, descends, goes_down, is_mixed, is_modified, steps_above, is_long_name, weekday_number, leads_to_seven, reaches_seven, names_all, is_late_nearest, is_last_by_hash, begins_with_value, is_range_modified, reaches_other_years, passes, is_year_step, is_of, has_part, is_some};

/// A form of a part.
#[derive(Clone, Copy, Drop)]
pub(crate) enum Form {
    /// No text.
    Empty,
    /// A side is 7.
    Seven,
    /// A range from another day to `SUN`.
    ToSunday,
    /// A range from Sunday to `SUN`.
    SundayToSunday,
    /// A side is the name of a month.
    MonthName,
    /// A side is the name of a weekday.
    WeekdayName,
    /// It ends with `L` or `W`, or has a `#`.
    Modified,
    /// A step without a start.
    WithoutStart,
    /// A star, and nothing else.
    Star,
    /// A question mark, and nothing else.
    Open,
    /// A question mark in place of a star.
    QuestionMark,
    /// A star with a step above 1.
    StarStep,
    /// Its first side is 0.
    Zero,
    /// A range that goes down.
    Down,
    /// A range from a name to a number, or from a number to a name.
    Mixed,
    /// A step above this, after a star, a number or nothing.
    StepAbove(u16),
    /// A step of 0.
    StepOfZero,
    /// A name with more letters.
    LongName,
    /// A name with a step.
    StepOfName,
    /// All values: a star or a question mark, with no step but 1.
    All,
    /// A weekday with a step that leads to the value 7.
    ReachesSeven,
    /// `29W`, `30W` or `31W`.
    LateNearest,
    /// It has a `#`, and no range.
    Nth,
    /// A range with a `#` after it.
    NthOfRange,
    /// `#L`, behind no range.
    LastByHash,
    /// It ends with `W`, and has no range.
    Nearest,
    /// A range that ends with `L` or `W`.
    RangeModified,
    /// A star, or nothing, with a step by which other years are reached from 1970 than from the year 1.
    YearStep,
}

/// The names of months, from January, and of weekdays, from Sunday.
const MONTHS: [&str; 12] = [
    "JAN", "FEB", "MAR", "APR", "MAY", "JUN", "JUL", "AUG", "SEP", "OCT", "NOV", "DEC",
];

const WEEKDAYS: [&str; 7] = ["SUN", "MON", "TUE", "WED", "THU", "FRI", "SAT"];

/// How many letters a name has.
const NAME_LENGTH: usize = 3;

/// How many years lie between the parser's first year, 1, and that of Quartz, 1970.
const YEARS_BETWEEN: u16 = 1969;

#[tactic(auto, using(crate::proofs::Splits::text_before))]
fn text_before(text: &str, sign: char) -> &str
    requires { sign < 128 }
    ensures { result.now ≡ before_first (λ b. b == sign) text.now }
{
    match text.split_once(sign) {
        Some((before, _)) => before,
        None => text,
    }
}

#[tactic(auto, using(crate::proofs::Splits::text_after))]
pub(crate) fn text_after(text: &str, sign: char) -> &str
    requires { sign < 128 }
    ensures { result.now ≡ after_first (λ b. b == sign) text.now }
{
    match text.split_once(sign) {
        Some((_, after)) => after,
        None => "",
    }
}

/// Whether a text has this character of ASCII.
pub(crate) fn has(text: &str, sign: char) -> bool
    requires { sign < 128 }
    ensures { result ≡ contains_byte sign text.now }
{
    text.contains(sign)
}

fn number(text: &str) -> Option<u16>
    ensures { result ≡ number_of text.now }
{
    text.parse::<u16>().ok()
}

fn is_number(n: u16, text: &str) -> bool
    ensures { result ≡ is_number n text.now }
{
    match number(text) {
        Some(m) => m == n,
        None => false,
    }
}

fn is_above(n: u16, text: &str) -> bool
    ensures { result ≡ is_above n text.now }
{
    match number(text) {
        Some(m) => n < m,
        None => false,
    }
}

fn month(name: &str) -> Option<u16>
    ensures { result ≡ month_of name.now }
{
    match name {
        "JAN" => Some(1),
        "FEB" => Some(2),
        "MAR" => Some(3),
        "APR" => Some(4),
        "MAY" => Some(5),
        "JUN" => Some(6),
        "JUL" => Some(7),
        "AUG" => Some(8),
        "SEP" => Some(9),
        "OCT" => Some(10),
        "NOV" => Some(11),
        "DEC" => Some(12),
        _ => None,
    }
}

fn weekday(name: &str) -> Option<u16>
    ensures { result ≡ weekday_of name.now }
{
    match name {
        "SUN" => Some(1),
        "MON" => Some(2),
        "TUE" => Some(3),
        "WED" => Some(4),
        "THU" => Some(5),
        "FRI" => Some(6),
        "SAT" => Some(7),
        _ => None,
    }
}

fn name(text: &str) -> Option<u16>
    ensures { result ≡ name_of text.now }
{
    match month(text) {
        Some(n) => Some(n),
        None => weekday(text),
    }
}

fn is_name(text: &str) -> bool
    ensures { result ≡ is_name text.now }
{
    name(text).is_some()
}

/// Whether a text begins with another.
pub(crate) fn begins_with(text: &str, front: &str) -> bool
    ensures { result ≡ begins_with_text front.now text.now }
{
    text.as_bytes().starts_with(front.as_bytes())
}

fn begins_with_any(part: &str, names: &[&str]) -> bool
    ensures { result ≡ list_any (λ name. begins_with_text name.now part.now) names.now }
{
    names.iter().any(|name| begins_with(part, name))
}

fn begins_with_name(part: &str) -> bool
    ensures { result ≡ begins_with_name part.now }
{
    begins_with_any(part, &MONTHS) || begins_with_any(part, &WEEKDAYS)
}

fn is_starred(part: &str) -> bool
    ensures { result ≡ is_starred part.now }
{
    part.starts_with('*') || part.starts_with('?')
}

fn front_of_step(part: &str) -> &str
    ensures { result.now ≡ front_of_step part.now }
{
    text_before(part, '/')
}

fn has_step(part: &str) -> bool
    ensures { result ≡ has_step part.now }
{
    has(part, '/')
}

fn step_of(part: &str) -> &str
    ensures { result.now ≡ step_of part.now }
{
    text_after(part, '/')
}

fn is_range(part: &str) -> bool
    ensures { result ≡ is_range part.now }
{
    has(front_of_step(part), '-')
}

fn low_side(part: &str) -> &str
    ensures { result.now ≡ low_side part.now }
{
    text_before(front_of_step(part), '-')
}

fn high_side(part: &str) -> &str
    ensures { result.now ≡ high_side part.now }
{
    text_after(front_of_step(part), '-')
}

fn high_value(part: &str) -> &str
    ensures { result.now ≡ high_value part.now }
{
    text_before(high_side(part), '#')
}

fn is_sunday(text: &str) -> bool
    ensures { result ≡ is_sunday text.now }
{
    text == "SUN"
}

fn has_number(n: u16, part: &str) -> bool
    ensures { result ≡ has_side (is_number n) part.now }
{
    !is_starred(part)
        && (is_number(n, low_side(part)) || (is_range(part) && is_number(n, high_side(part))))
}

fn has_month(part: &str) -> bool
    ensures { result ≡ has_side (λ side. is_some (month_of side)) part.now }
{
    !is_starred(part)
        && (month(low_side(part)).is_some() || (is_range(part) && month(high_side(part)).is_some()))
}

fn has_weekday(part: &str) -> bool
    ensures { result ≡ has_side (λ side. is_some (weekday_of side)) part.now }
{
    !is_starred(part)
        && (weekday(low_side(part)).is_some()
            || (is_range(part) && weekday(high_side(part)).is_some()))
}

fn ends_at_sunday(part: &str) -> bool
    ensures { result ≡ ends_at_sunday part.now }
{
    is_range(part) && is_sunday(high_side(part))
}

fn starts_at_sunday(part: &str) -> bool
    ensures { result ≡ starts_at_sunday part.now }
{
    is_sunday(low_side(part)) || is_number(0, low_side(part))
}

fn descends(a: Option<u16>, b: Option<u16>) -> bool
    ensures { result ≡ descends a b }
{
    match (a, b) {
        (Some(a), Some(b)) => b < a,
        (Some(_), None) | (None, Some(_)) | (None, None) => false,
    }
}

fn goes_down(part: &str) -> bool
    ensures { result ≡ goes_down part.now }
{
    is_range(part)
        && (descends(number(low_side(part)), number(high_value(part)))
            || descends(name(low_side(part)), name(high_value(part))))
}

fn is_mixed(part: &str) -> bool
    ensures { result ≡ is_mixed part.now }
{
    is_range(part)
        && ((is_name(low_side(part)) && number(high_value(part)).is_some())
            || (number(low_side(part)).is_some() && is_name(high_value(part))))
}

fn is_modified(part: &str) -> bool
    ensures { result ≡ is_modified part.now }
{
    !is_starred(part)
        && (part != "JUL" && (has(part, '#') || (part.ends_with('L') || part.ends_with('W'))))
}

fn is_capital_at(text: &str, at: usize) -> bool
    ensures { result ≡ is_capital (slice_index text.now at) }
{
    match text.as_bytes().get(at) {
        Some(byte) => byte.is_ascii_uppercase(),
        None => false,
    }
}

/// Whether there is a decimal digit at a place of a text.
pub(crate) fn is_digit_at(text: &str, at: usize) -> bool
    ensures { result ≡ is_digit_at at text.now }
{
    match text.as_bytes().get(at) {
        Some(byte) => byte.is_ascii_digit(),
        None => false,
    }
}

fn steps_above(n: u16, part: &str) -> bool
    ensures { result ≡ steps_above n part.now }
{
    has_step(part) && (!is_range(part) && (!is_capital_at(part, 0) && is_above(n, step_of(part))))
}

fn is_long_name(part: &str) -> bool
    ensures { result ≡ is_long_name part.now }
{
    begins_with_name(part)
        && (is_capital_at(part, NAME_LENGTH)
            && part.as_bytes().get(NAME_LENGTH).copied() != Some(b'L'))
}

fn names_all(part: &str) -> bool
    ensures { result ≡ names_all part.now }
{
    (low_side(part) == "*" || low_side(part) == "?")
        && (!has_step(part) || is_number(1, step_of(part)))
}

// The number of a weekday from 0 for Sunday, by its name too.
fn weekday_number(text: &str) -> Option<u16>
    ensures { result ≡ weekday_number text.now }
{
    match number(text) {
        Some(n) => Some(n),
        None => weekday_from_zero(text),
    }
}

fn weekday_from_zero(name: &str) -> Option<u16>
    ensures { result ≡ option_map (λ n. n - 1) (weekday_of name.now) }
{
    match weekday(name) {
        Some(n) => Some(n.saturating_sub(1)),
        None => None,
    }
}

fn leads_to_seven(day: Option<u16>, step: Option<u16>) -> bool
    ensures { result ≡ leads_to_seven day step }
{
    match (day, step) {
        (Some(day), Some(step)) => day < 7 && 0 < step && (7 - day) % step == 0,
        (Some(_), None) | (None, Some(_)) | (None, None) => false,
    }
}

fn reaches_seven(part: &str) -> bool
    ensures { result ≡ reaches_seven part.now }
{
    has_step(part)
        && (!is_range(part)
            && leads_to_seven(weekday_number(low_side(part)), number(step_of(part))))
}

fn is_late_nearest(part: &str) -> bool
    ensures { result ≡ is_late_nearest part.now }
{
    part == "29W" || (part == "30W" || part == "31W")
}

fn is_last_by_hash(part: &str) -> bool
    ensures { result ≡ is_last_by_hash part.now }
{
    !is_range(part) && text_after(part, '#') == "L"
}

fn begins_with_value(text: &str) -> bool
    ensures { result ≡ begins_with_value text.now }
{
    is_digit_at(text, 0) || begins_with_name(text)
}

fn is_range_modified(part: &str) -> bool
    ensures { result ≡ is_range_modified part.now }
{
    (is_range(part) && (begins_with_value(part) && begins_with_value(high_side(part))))
        && ((part.ends_with('L') || part.ends_with('W')) && !has(part, '#'))
}

fn reaches_other_years(step: u16) -> bool
    ensures { result ≡ reaches_other_years step }
{
    0 < step && YEARS_BETWEEN % step != 0
}

fn has_year_step(step: Option<u16>) -> bool
    ensures { result ≡ passes reaches_other_years step }
{
    match step {
        Some(step) => reaches_other_years(step),
        None => false,
    }
}

fn is_year_step(part: &str) -> bool
    ensures { result ≡ is_year_step part.now }
{
    (front_of_step(part) == "*" || front_of_step(part).is_empty())
        && has_year_step(number(step_of(part)))
}

fn is_of(form: Form, part: &str) -> bool
    ensures { result ≡ is_of form part.now }
{
    match form {
        Form::Empty => part.is_empty(),
        Form::Seven => has_number(7, part),
        Form::ToSunday => ends_at_sunday(part) && !starts_at_sunday(part),
        Form::SundayToSunday => ends_at_sunday(part) && starts_at_sunday(part),
        Form::MonthName => has_month(part),
        Form::WeekdayName => has_weekday(part),
        Form::Modified => is_modified(part),
        Form::WithoutStart => part.starts_with('/'),
        Form::Star => part == "*",
        Form::Open => part == "?",
        Form::QuestionMark => low_side(part) == "?",
        Form::StarStep => front_of_step(part) == "*" && is_above(1, step_of(part)),
        Form::Zero => !is_starred(part) && is_number(0, low_side(part)),
        Form::Down => goes_down(part),
        Form::Mixed => is_mixed(part),
        Form::StepAbove(n) => steps_above(n, part),
        Form::StepOfZero => has_step(part) && is_number(0, step_of(part)),
        Form::LongName => is_long_name(part),
        Form::StepOfName => begins_with_name(part) && has_step(part),
        Form::All => names_all(part),
        Form::ReachesSeven => reaches_seven(part),
        Form::LateNearest => is_late_nearest(part),
        Form::Nth => !is_range(part) && has(part, '#'),
        Form::NthOfRange => is_range(part) && has(high_side(part), '#'),
        Form::LastByHash => is_last_by_hash(part),
        Form::Nearest => !is_range(part) && part.ends_with('W'),
        Form::RangeModified => is_range_modified(part),
        Form::YearStep => is_year_step(part),
    }
}

/// Whether a part of a field's list has this form.
pub(crate) fn has_part(form: Form, field: &str) -> bool
    ensures { result ≡ has_part form field.now }
{
    for part in field.split(',') {
        if is_of(form, part) {
            return true;
        }
    }
    false
}
