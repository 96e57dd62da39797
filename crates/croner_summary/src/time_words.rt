//! The times of a day in words.

ghost use Rattle.std.specs.Prelude.{◌≡◌, ◌<◌, ◌++◌, true, length, IsSome};
ghost use Rattle.std.specs.List.{list_all};
ghost use Rattle.croner_summary.specs.Private.Appended.{Appends};
ghost use Rattle.croner_summary.specs.Words.{every_text, span_text, term_text, unit_text};
ghost use Rattle.croner_summary.specs.TimeWords.{are_times, at_second, stretch_at_step, beside_text, stretch_by_hours, stretch_by_minutes, each_hour_text, ends_text, from_minutes, hour_case, stretch_in_hour, stretch_in_hours, is_every, is_one, is_sole, is_to_the_end, is_whole_day, listed_minutes, many_seconds, minute_case, minutes_and_hours, minutes_head, minutes_text, of_hours, part_text, parts_text, second_case, seconds_text, stepped_hourly, stretch_of, stretch_text, stretched, time_text, times_text, unit_of, untimed, value_of};

use crate::language::{Style, SummaryLanguage, Term, TimeUnit};
use crate::phrase::Piece;
use crate::words::{
    Kind, head_step, only_piece, write_clock, write_every, write_list, write_number, write_span,
    write_term, write_unit,
};
use croner_base::errors::CronError;

/// The last minute of an hour.
const LAST_MINUTE: u16 = 59;

/// The minutes of an hour.
const MINUTES: u16 = 60;

/// The hours of a day.
const HOURS: u16 = 24;

/// The most single values that are written as times of day.
const MOST_TIMES: usize = 6;

/// A part of the day that is stepped through, by minutes or by hours.
#[derive(Debug, Clone, Copy)]
pub struct Stretch {
    by_hours: bool,
    step: u16,
    from_hour: u16,
    from_minute: u16,
    to_hour: u16,
    to_minute: u16,
}

/// A stretch by minutes.
fn stretch_by_minutes(
    step: u16,
    from_hour: u16,
    from_minute: u16,
    to_hour: u16,
    to_minute: u16,
) -> Stretch
    ensures { result ≡ stretch_by_minutes step from_hour from_minute to_hour to_minute }
{
    Stretch {
        by_hours: false,
        step,
        from_hour,
        from_minute,
        to_hour,
        to_minute,
    }
}

/// A stretch by hours, at one minute of each.
fn stretch_by_hours(step: u16, from_hour: u16, to_hour: u16, minute: u16) -> Stretch
    ensures { result ≡ stretch_by_hours step from_hour to_hour minute }
{
    Stretch {
        by_hours: true,
        step,
        from_hour,
        from_minute: minute,
        to_hour,
        to_minute: minute,
    }
}

/// Minutes within one hour.
fn stretch_in_hour(minutes: Option<Piece>, hour: u16) -> Option<Stretch>
    ensures { result ≡ stretch_in_hour minutes hour }
{
    match minutes {
        Some(Piece::Every) => Some(stretch_by_minutes(1, hour, 0, hour, LAST_MINUTE)),
        Some(Piece::EveryNth(n)) => {
            Some(stretch_by_minutes(n, hour, 0, hour, MINUTES.saturating_sub(n)))
        }
        Some(Piece::Range(first, last)) => Some(stretch_by_minutes(1, hour, first, hour, last)),
        Some(Piece::RangeNth(first, last, n)) => Some(stretch_by_minutes(
            n, hour, first, hour, last,
        )),
        Some(Piece::One(_)) => None,
        None => None,
    }
}

/// Minutes of hours in a row.
fn stretch_in_hours(minutes: Option<Piece>, first: u16, last: u16) -> Option<Stretch>
    ensures { result ≡ stretch_in_hours minutes first last }
{
    match minutes {
        Some(Piece::Every) => Some(stretch_by_minutes(1, first, 0, last, LAST_MINUTE)),
        Some(Piece::EveryNth(n)) => {
            Some(stretch_by_minutes(n, first, 0, last, MINUTES.saturating_sub(n)))
        }
        Some(Piece::One(minute)) => Some(stretch_by_hours(1, first, last, minute)),
        Some(Piece::Range(_, _)) => None,
        Some(Piece::RangeNth(_, _, _)) => None,
        None => None,
    }
}

/// A minute of hours at a step.
fn stretch_at_step(minutes: Option<Piece>, first: u16, last: u16, n: u16) -> Option<Stretch>
    ensures { result ≡ stretch_at_step minutes first last n }
{
    match minutes {
        Some(Piece::One(minute)) => Some(stretch_by_hours(n, first, last, minute)),
        _ => None,
    }
}

/// Minutes and hours as one part of the day, if they are one.
fn stretch_of(minutes: Option<Piece>, hours: Option<Piece>) -> Option<Stretch>
    ensures { result ≡ stretch_of minutes hours }
{
    match hours {
        Some(Piece::One(hour)) => stretch_in_hour(minutes, hour),
        Some(Piece::Range(first, last)) => stretch_in_hours(minutes, first, last),
        Some(Piece::RangeNth(first, last, n)) => stretch_at_step(minutes, first, last, n),
        Some(Piece::EveryNth(n)) => stretch_at_step(minutes, 0, HOURS.saturating_sub(n), n),
        Some(Piece::Every) => None,
        None => None,
    }
}

/// The unit of a stretch.
fn unit_of(by_hours: bool) -> TimeUnit
    ensures { result ≡ unit_of by_hours }
{
    if by_hours {
        TimeUnit::Hour
    } else {
        TimeUnit::Minute
    }
}

/// Whether a stretch is full hours of the whole day, at a step.
fn is_whole_day(stretch: Stretch) -> bool
    ensures { result ≡ is_whole_day stretch }
{
    stretch.by_hours
        && stretch.from_hour == 0
        && stretch.from_minute == 0
        && u32::from(stretch.to_hour) + u32::from(stretch.step) == u32::from(HOURS)
}

/// Writes from when to when.
#[tactic(auto, unfolding(crate::specs::TimeWords::ends_text))]
fn write_ends(
    text: &mut String,
    language: SummaryLanguage,
    stretch: Stretch,
) -> Result<(), CronError>
    ensures { Appends (ends_text language stretch) text.old text.new result }
{
    write_term(text, language, Term::FromTime)?;
    write_clock(text, stretch.from_hour, stretch.from_minute, 0)?;
    write_term(text, language, Term::To)?;
    write_clock(text, stretch.to_hour, stretch.to_minute, 0)
}

/// Writes the ends of a stretch, unless it is the whole day.
#[tactic(auto, unfolding(crate::specs::TimeWords::part_text))]
fn write_part(
    text: &mut String,
    language: SummaryLanguage,
    stretch: Stretch,
) -> Result<(), CronError>
    ensures { Appends (part_text language stretch) text.old text.new result }
{
    if is_whole_day(stretch) {
        return Ok(());
    }
    write_ends(text, language, stretch)
}

/// Writes a stretch.
#[tactic(auto, unfolding(crate::specs::TimeWords::stretch_text))]
fn write_stretch(
    text: &mut String,
    language: SummaryLanguage,
    stretch: Stretch,
) -> Result<(), CronError>
    ensures { Appends (stretch_text language stretch) text.old text.new result }
{
    write_every(text, language, stretch.step, unit_of(stretch.by_hours))?;
    write_part(text, language, stretch)
}

/// Writes minutes by their numbers.
fn write_at_minutes(text: &mut String, style: Style, minutes: &[Piece]) -> Result<(), CronError>
    ensures { Appends (term_text style.language Term.At ++ unit_text style TimeUnit.Minute minutes.now) text.old text.new result }
{
    write_term(text, style.language, Term::At)?;
    write_unit(text, style, TimeUnit::Minute, minutes)
}

/// Writes every nth minute of some.
fn write_stepped_minutes(
    text: &mut String,
    language: SummaryLanguage,
    first: u16,
    last: u16,
    n: u16,
) -> Result<(), CronError>
    ensures { Appends (every_text language n TimeUnit.Minute ++ (term_text language Term.FromMinute ++ span_text language Kind.Number first last)) text.old text.new result }
{
    write_every(text, language, n, TimeUnit::Minute)?;
    write_term(text, language, Term::FromMinute)?;
    write_span(text, language, Kind::Number, first, last)
}

/// Writes minutes at the head of a text.
#[tactic(auto, unfolding(crate::specs::TimeWords::minutes_head))]
fn write_minutes_head(
    text: &mut String,
    style: Style,
    minutes: &[Piece],
    one: Option<Piece>,
) -> Result<(), CronError>
    ensures { Appends (minutes_head style minutes.now one) text.old text.new result }
{
    match one {
        Some(Piece::Every) => write_every(text, style.language, 1, TimeUnit::Minute),
        Some(Piece::EveryNth(n)) => write_every(text, style.language, n, TimeUnit::Minute),
        Some(Piece::RangeNth(first, last, n)) => {
            write_stepped_minutes(text, style.language, first, last, n)
        }
        Some(Piece::One(_)) => write_at_minutes(text, style, minutes),
        Some(Piece::Range(_, _)) => write_at_minutes(text, style, minutes),
        None => write_at_minutes(text, style, minutes),
    }
}

/// Writes the hours after minutes.
#[tactic(auto, unfolding(crate::specs::TimeWords::of_hours))]
fn write_of_hours(text: &mut String, style: Style, hours: &[Piece]) -> Result<(), CronError>
    ensures { Appends (of_hours style hours.now) text.old text.new result }
{
    write_term(text, style.language, Term::Of)?;
    write_unit(text, style, TimeUnit::Hour, hours)
}

/// Writes minutes of hours that have no form of their own.
#[tactic(auto, unfolding(crate::specs::TimeWords::minutes_and_hours))]
fn write_minutes_and_hours(
    text: &mut String,
    style: Style,
    minutes: &[Piece],
    hours: &[Piece],
) -> Result<(), CronError>
    ensures { Appends (minutes_and_hours style minutes.now hours.now) text.old text.new result }
{
    write_minutes_head(text, style, minutes, only_piece(minutes))?;
    write_of_hours(text, style, hours)
}

/// Writes a step and other values beside it.
#[tactic(auto, unfolding(crate::specs::TimeWords::beside_text))]
fn write_beside(text: &mut String, style: Style, n: u16, minutes: &[Piece]) -> Result<(), CronError>
    requires { 0 < length minutes.now }
    ensures { Appends (beside_text style n minutes.now) text.old text.new result }
{
    write_every(text, style.language, n, TimeUnit::Minute)?;
    write_term(text, style.language, Term::AndAt)?;
    write_unit(text, style, TimeUnit::Minute, &minutes[1..])
}

/// Writes a list of minutes of each hour, which may begin with a step.
#[tactic(auto, unfolding(crate::specs::TimeWords::listed_minutes))]
fn write_listed_minutes(
    text: &mut String,
    style: Style,
    minutes: &[Piece],
    hours: &[Piece],
    head: Option<u16>,
) -> Result<(), CronError>
    requires { IsSome head → 0 < length minutes.now }
    ensures { Appends (listed_minutes style minutes.now hours.now head) text.old text.new result }
{
    match head {
        None => write_minutes_and_hours(text, style, minutes, hours),
        Some(n) => {
            write_beside(text, style, n, minutes)?;
            write_of_hours(text, style, hours)
        }
    }
}

/// Whether a step goes on to the end of the hour.
fn is_to_the_end(last: u16, n: u16) -> bool
    ensures { result ≡ is_to_the_end last n }
{
    u32::from(LAST_MINUTE) < u32::from(last) + u32::from(n)
}

/// Writes the minutes of a step.
#[tactic(auto, unfolding(crate::specs::TimeWords::from_minutes))]
fn write_from_minutes(
    text: &mut String,
    language: SummaryLanguage,
    first: u16,
    last: u16,
    n: u16,
) -> Result<(), CronError>
    ensures { Appends (from_minutes language first last n) text.old text.new result }
{
    write_term(text, language, Term::FromMinute)?;
    if is_to_the_end(last, n) {
        return write_number(text, first);
    }
    write_span(text, language, Kind::Number, first, last)
}

/// Writes a step of minutes of each hour.
#[tactic(auto, unfolding(crate::specs::TimeWords::stepped_hourly))]
fn write_stepped_hourly(
    text: &mut String,
    style: Style,
    first: u16,
    last: u16,
    n: u16,
    hours: &[Piece],
) -> Result<(), CronError>
    ensures { Appends (stepped_hourly style first last n hours.now) text.old text.new result }
{
    write_every(text, style.language, n, TimeUnit::Minute)?;
    write_from_minutes(text, style.language, first, last, n)?;
    write_of_hours(text, style, hours)
}

/// Writes minutes of each hour.
#[tactic(auto, unfolding(crate::specs::TimeWords::each_hour_text))]
fn write_each_hour(
    text: &mut String,
    style: Style,
    minutes: &[Piece],
    hours: &[Piece],
    one: Option<Piece>,
) -> Result<(), CronError>
    ensures { Appends (each_hour_text style minutes.now hours.now one) text.old text.new result }
{
    match one {
        Some(Piece::Every) => write_every(text, style.language, 1, TimeUnit::Minute),
        Some(Piece::EveryNth(n)) => write_every(text, style.language, n, TimeUnit::Minute),
        Some(Piece::One(0)) => write_every(text, style.language, 1, TimeUnit::Hour),
        Some(Piece::One(_)) => write_minutes_and_hours(text, style, minutes, hours),
        Some(Piece::Range(_, _)) => write_minutes_and_hours(text, style, minutes, hours),
        Some(Piece::RangeNth(first, last, n)) => {
            write_stepped_hourly(text, style, first, last, n, hours)
        }
        None => write_listed_minutes(text, style, minutes, hours, head_step(minutes)),
    }
}

/// Writes a stretch, or the minutes and hours where there is none.
#[tactic(auto, unfolding(crate::specs::TimeWords::stretched))]
fn write_stretched(
    text: &mut String,
    style: Style,
    minutes: &[Piece],
    hours: &[Piece],
    stretch: Option<Stretch>,
) -> Result<(), CronError>
    ensures { Appends (stretched style minutes.now hours.now stretch) text.old text.new result }
{
    match stretch {
        Some(stretch) => write_stretch(text, style.language, stretch),
        None => write_minutes_and_hours(text, style, minutes, hours),
    }
}

/// Whether it is each value.
pub(crate) fn is_every(one: Option<Piece>) -> bool
    ensures { result ≡ is_every one }
{
    match one {
        Some(Piece::Every) => true,
        _ => false,
    }
}

/// Writes minutes and hours, at second 0.
#[tactic(auto, unfolding(crate::specs::TimeWords::minutes_text))]
fn write_minutes(
    text: &mut String,
    style: Style,
    minutes: &[Piece],
    hours: &[Piece],
) -> Result<(), CronError>
    ensures { Appends (minutes_text style minutes.now hours.now) text.old text.new result }
{
    if is_every(only_piece(hours)) {
        return write_each_hour(text, style, minutes, hours, only_piece(minutes));
    }
    write_stretched(
        text,
        style,
        minutes,
        hours,
        stretch_of(only_piece(minutes), only_piece(hours)),
    )
}

/// Whether a piece is one value.
fn is_one(piece: Piece) -> bool
    ensures { result ≡ is_one piece }
{
    match piece {
        Piece::One(_) => true,
        _ => false,
    }
}

/// Whether each piece is one value.
pub(crate) fn are_ones(pieces: &[Piece]) -> bool
    ensures { result ≡ list_all is_one pieces.now }
{
    pieces.iter().all(|piece| is_one(*piece))
}

/// Whether there is one piece, of one value.
pub(crate) fn is_sole(one: Option<Piece>) -> bool
    ensures { result ≡ is_sole one }
{
    match one {
        Some(piece) => is_one(piece),
        None => false,
    }
}

/// The one value; 0 where there isn't one.
pub(crate) fn value_of(one: Option<Piece>) -> u16
    ensures { result ≡ value_of one }
{
    match one {
        Some(Piece::One(value)) => value,
        _ => 0,
    }
}

/// Whether the values are single, and few enough to be written as times of day.
#[tactic(auto, unfolding(crate::specs::TimeWords::are_times))]
fn are_times(pieces: &[Piece]) -> bool
    ensures { result ≡ are_times pieces.now }
{
    pieces.len() <= MOST_TIMES && are_ones(pieces)
}

/// Writes a time that has no form of its own.
#[tactic(auto, unfolding(crate::specs::TimeWords::parts_text))]
fn write_parts(
    text: &mut String,
    style: Style,
    seconds: &[Piece],
    minutes: &[Piece],
    hours: &[Piece],
) -> Result<(), CronError>
    ensures { Appends (parts_text style seconds.now minutes.now hours.now) text.old text.new result }
{
    write_term(text, style.language, Term::At)?;
    write_unit(text, style, TimeUnit::Second, seconds)?;
    write_term(text, style.language, Term::Of)?;
    write_unit(text, style, TimeUnit::Minute, minutes)?;
    write_of_hours(text, style, hours)
}

/// Writes the second after minutes and hours, unless it is 0.
#[tactic(auto, unfolding(crate::specs::TimeWords::at_second))]
fn write_at_second(
    text: &mut String,
    language: SummaryLanguage,
    second: u16,
) -> Result<(), CronError>
    ensures { Appends (at_second language second) text.old text.new result }
{
    if second == 0 {
        return Ok(());
    }
    write_term(text, language, Term::AtSecond)?;
    write_number(text, second)
}

/// Writes minutes and hours at a second, where they aren't written as times of day.
#[tactic(auto, unfolding(crate::specs::TimeWords::untimed))]
fn write_untimed(
    text: &mut String,
    style: Style,
    second: u16,
    minutes: &[Piece],
    hours: &[Piece],
) -> Result<(), CronError>
    ensures { Appends (untimed style second minutes.now hours.now) text.old text.new result }
{
    write_minutes(text, style, minutes, hours)?;
    write_at_second(text, style.language, second)
}

/// Writes times of day.
#[tactic(auto, unfolding(crate::specs::TimeWords::times_text))]
fn write_times(
    text: &mut String,
    style: Style,
    kind: Kind,
    pieces: &[Piece],
) -> Result<(), CronError>
    ensures { Appends (times_text style kind pieces.now) text.old text.new result }
{
    write_term(text, style.language, Term::AtTime)?;
    write_list(text, style, kind, pieces)
}

/// Writes single minutes of one hour as times of day.
#[tactic(auto, unfolding(crate::specs::TimeWords::hour_case))]
fn write_hour_case(
    text: &mut String,
    style: Style,
    second: u16,
    minutes: &[Piece],
    hours: &[Piece],
    one: Option<Piece>,
) -> Result<(), CronError>
    ensures { Appends (hour_case style second minutes.now hours.now one) text.old text.new result }
{
    match one {
        Some(Piece::One(hour)) => {
            if are_times(minutes) {
                return write_times(text, style, Kind::MinuteOf(hour, second), minutes);
            }
            write_untimed(text, style, second, minutes, hours)
        }
        _ => write_untimed(text, style, second, minutes, hours),
    }
}

/// Writes one minute of single hours as times of day.
#[tactic(auto, unfolding(crate::specs::TimeWords::minute_case))]
fn write_minute_case(
    text: &mut String,
    style: Style,
    second: u16,
    minutes: &[Piece],
    hours: &[Piece],
    one: Option<Piece>,
) -> Result<(), CronError>
    ensures { Appends (minute_case style second minutes.now hours.now one) text.old text.new result }
{
    match one {
        Some(Piece::One(minute)) => {
            if are_times(hours) {
                return write_times(text, style, Kind::HourAt(minute, second), hours);
            }
            write_hour_case(text, style, second, minutes, hours, only_piece(hours))
        }
        _ => write_hour_case(text, style, second, minutes, hours, only_piece(hours)),
    }
}

/// Writes seconds of each minute.
#[tactic(auto, unfolding(crate::specs::TimeWords::seconds_text))]
fn write_seconds(
    text: &mut String,
    style: Style,
    seconds: &[Piece],
    minutes: &[Piece],
    hours: &[Piece],
    one: Option<Piece>,
) -> Result<(), CronError>
    ensures { Appends (seconds_text style seconds.now minutes.now hours.now one) text.old text.new result }
{
    match one {
        Some(Piece::Every) => write_every(text, style.language, 1, TimeUnit::Second),
        Some(Piece::EveryNth(n)) => write_every(text, style.language, n, TimeUnit::Second),
        _ => write_parts(text, style, seconds, minutes, hours),
    }
}

/// Writes more seconds than one.
#[tactic(auto, unfolding(crate::specs::TimeWords::many_seconds))]
fn write_many_seconds(
    text: &mut String,
    style: Style,
    seconds: &[Piece],
    minutes: &[Piece],
    hours: &[Piece],
    one: Option<Piece>,
) -> Result<(), CronError>
    ensures { Appends (many_seconds style seconds.now minutes.now hours.now one) text.old text.new result }
{
    if is_every(only_piece(minutes)) && is_every(only_piece(hours)) {
        return write_seconds(text, style, seconds, minutes, hours, one);
    }
    write_parts(text, style, seconds, minutes, hours)
}

/// Writes the times of a day, given the one piece of the seconds, if there is one.
#[tactic(auto, unfolding(crate::specs::TimeWords::second_case))]
fn write_second_case(
    text: &mut String,
    style: Style,
    seconds: &[Piece],
    minutes: &[Piece],
    hours: &[Piece],
    one: Option<Piece>,
) -> Result<(), CronError>
    ensures { Appends (second_case style seconds.now minutes.now hours.now one) text.old text.new result }
{
    match one {
        Some(Piece::One(second)) => {
            write_minute_case(text, style, second, minutes, hours, only_piece(minutes))
        }
        _ => write_many_seconds(text, style, seconds, minutes, hours, one),
    }
}

/// Writes the times of a day.
#[tactic(auto, unfolding(crate::specs::TimeWords::time_text))]
pub(crate) fn write_time(
    text: &mut String,
    style: Style,
    seconds: &[Piece],
    minutes: &[Piece],
    hours: &[Piece],
) -> Result<(), CronError>
    ensures { Appends (time_text style seconds.now minutes.now hours.now) text.old text.new result }
{
    write_second_case(text, style, seconds, minutes, hours, only_piece(seconds))
}
