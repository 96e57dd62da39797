//! Reading the members of a question.

use crate::{Fault, Result};
use croner::time::{CivilDateTime, CronDateTime, Direction, Weekday};
use jiff::civil::DateTime;
use serde_json::Value;

/// The member of that name.
pub fn member<'v>(question: &'v Value, name: &str) -> Result<&'v Value> {
    question.get(name).ok_or(Fault::Malformed)
}

/// A text.
pub fn text<'v>(question: &'v Value, name: &str) -> Result<&'v str> {
    word(member(question, name)?)
}

/// A value that is a text.
pub fn word(value: &Value) -> Result<&str> {
    value.as_str().ok_or(Fault::Malformed)
}

/// A yes or no.
pub fn flag(question: &Value, name: &str) -> Result<bool> {
    member(question, name)?.as_bool().ok_or(Fault::Malformed)
}

/// A yes or no that may be left out, for no.
pub fn switch(question: &Value, name: &str) -> Result<bool> {
    match question.get(name) {
        None => Ok(false),
        Some(switch) => switch.as_bool().ok_or(Fault::Malformed),
    }
}

/// A list.
pub fn list<'v>(question: &'v Value, name: &str) -> Result<&'v [Value]> {
    items(member(question, name)?)
}

/// The items of a list.
pub fn items(value: &Value) -> Result<&[Value]> {
    let items = value.as_array().ok_or(Fault::Malformed)?;
    Ok(items.as_slice())
}

/// The items of a list that has exactly that many.
pub fn parts<const N: usize>(value: &Value) -> Result<&[Value; N]> {
    match items(value)?.try_into() {
        Ok(parts) => Ok(parts),
        Err(_) => Err(Fault::Malformed),
    }
}

/// The value as a whole number of a narrower type.
pub fn number<N: TryFrom<i64>>(value: &Value) -> Result<N>
where
    N::Error: Drop,
{
    let wide = value.as_i64().ok_or(Fault::Malformed)?;
    match N::try_from(wide) {
        Ok(narrow) => Ok(narrow),
        Err(_) => Err(Fault::Malformed),
    }
}

/// A whole number.
pub fn number_at<N: TryFrom<i64>>(question: &Value, name: &str) -> Result<N>
where
    N::Error: Drop,
{
    number(member(question, name)?)
}

/// A list of three whole numbers.
pub fn three_numbers<N: TryFrom<i64>>(question: &Value, name: &str) -> Result<(N, u32, u32)>
where
    N::Error: Drop,
{
    let [first, second, third] = parts::<3>(member(question, name)?)?;
    let (second, third) = (number(second)?, number(third)?);
    Ok((number(first)?, second, third))
}

/// A weekday as its number from Sunday.
pub fn weekday(question: &Value, name: &str) -> Result<Weekday> {
    let days: u32 = number_at(question, name)?;
    if days > 6 {
        return Err(Fault::Malformed);
    }
    Ok(Weekday::from_days_from_sunday(days))
}

/// A direction by its name.
pub fn direction(question: &Value) -> Result<Direction> {
    match text(question, "direction")? {
        "forward" => Ok(Direction::Forward),
        "backward" => Ok(Direction::Backward),
        _ => Err(Fault::Malformed),
    }
}

/// A date and time as the list of its six parts.
pub fn civil(question: &Value, name: &str) -> Result<CivilDateTime> {
    Ok(civil_value(question, name)?.to_civil())
}

/// A date and time as a value of civil time.
pub fn civil_value(question: &Value, name: &str) -> Result<DateTime> {
    let [year, month, day, hour, minute, second] = parts::<6>(member(question, name)?)?;
    Ok(DateTime::new(
        number(year)?,
        number(month)?,
        number(day)?,
        number(hour)?,
        number(minute)?,
        number(second)?,
        0,
    )?)
}
