//! The text of a summary.

ghost use Rattle.std.specs.Prelude.{◌≡◌, ◌<◌, true, false, Some, None, MatchOption, MatchResult};
ghost use Rattle.croner_summary.specs.DayWords.{is_some};
ghost use Rattle.croner_summary.specs.Texts.{are_all_told, are_days_told, cut_style, date_text, is_month_told, is_season_first, is_short, is_told, is_week_told, is_whole, season_text, term_of_no_day, term_of_nothing, some_text, styled_text, text_of, whole_style};
ghost use Rattle.croner_summary.specs.Private.Appended.{Appends};
ghost use Rattle.croner_words.specs.Writes.{Writes};

use crate::day_words::{has_parts, is_some, names_month_day, names_weekday, write_days};
use crate::days::{Days, MonthDays, Weekdays};
use crate::language::{Style, SummaryLanguage, Term};
use crate::month_words::{write_months, write_years};
use crate::phrase::Phrase;
use crate::summary::Summary;
use crate::time_words::{is_every, write_time};
use crate::words::{only_piece, write_term, write_text};
use croner_base::errors::CronError;
use std::alloc::Global;
use std::fmt;

/// The bytes that most texts fit in. They are reserved at once.
const TEXT_ROOM: usize = 96;

/// The most bytes of a text that leaves nothing out. Also the most pieces of a list in it, since more would take more bytes.
const MOST_BYTES: u16 = 400;

/// How many pieces of each list a text that is cut has.
const CUT_PIECES: u16 = 3;

/// The term for missing days, unless some are named.
fn term_unless(names: bool, term: Term) -> Option<Term>
    ensures { MatchOption result (names ≡ true) (λ told. (names ≡ false) × (told ≡ term)) }
{
    if names { None } else { Some(term) }
}

/// The term for days that name nothing, if they do not.
#[tactic(auto, unfolding(crate::specs::Texts::term_of_no_day))]
fn term_of_no_day(days: &Days) -> Option<Term>
    ensures { result ≡ term_of_no_day days.now }
{
    match days {
        Days::Every => None,
        Days::OfMonth(month) => term_unless(names_month_day(month), Term::NoMonthDay),
        Days::OfWeek(week) => term_unless(names_weekday(week), Term::NoWeekday),
        Days::Either(month, week) => {
            term_unless(names_month_day(month) || names_weekday(week), Term::NoDay)
        }
        Days::Both(month, week) => {
            if !names_month_day(month) {
                return Some(Term::NoMonthDay);
            }
            term_unless(names_weekday(week), Term::NoWeekday)
        }
    }
}

/// The term for the first field that names nothing, if there is one.
#[tactic(auto, unfolding(crate::specs::Texts::term_of_nothing))]
fn term_of_nothing(summary: &Summary) -> Option<Term>
    ensures { result ≡ term_of_nothing summary.now }
{
    if !is_some(&summary.seconds) {
        return Some(Term::NoSecond);
    }
    if !is_some(&summary.minutes) {
        return Some(Term::NoMinute);
    }
    if !is_some(&summary.hours) {
        return Some(Term::NoHour);
    }
    if !is_some(&summary.months) {
        return Some(Term::NoMonth);
    }
    if !is_some(&summary.years) {
        return Some(Term::NoYear);
    }
    term_of_no_day(&summary.days)
}

/// Writes the months and the years.
#[tactic(auto, unfolding(crate::specs::Texts::season_text))]
fn write_season(text: &mut String, style: Style, summary: &Summary) -> Result<(), CronError>
    ensures { Appends (season_text style summary.now) text.old text.new result }
{
    write_months(text, style, &summary.months.pieces)?;
    write_years(text, style, &summary.years.pieces)
}

/// Whether the months and the years come before the days: these have several parts, of which the months and years would seem to
/// limit only the last.
#[tactic(auto, unfolding(crate::specs::Texts::is_season_first))]
fn is_season_first(summary: &Summary) -> bool
    ensures { result ≡ is_season_first summary.now }
{
    has_parts(&summary.days)
        && !(is_every(only_piece(&summary.months.pieces))
            && is_every(only_piece(&summary.years.pieces)))
}

/// Writes the days, the months and the years.
#[tactic(auto, unfolding(crate::specs::Texts::date_text))]
fn write_date(text: &mut String, style: Style, summary: &Summary) -> Result<(), CronError>
    ensures { Appends (date_text style summary.now) text.old text.new result }
{
    if is_season_first(summary) {
        write_season(text, style, summary)?;
        write_text(text, ":")?;
        return write_days(text, style, &summary.days);
    }
    write_days(text, style, &summary.days)?;
    write_season(text, style, summary)
}

/// Writes the times and the dates.
#[tactic(auto, unfolding(crate::specs::Texts::some_text))]
fn write_some(text: &mut String, style: Style, summary: &Summary) -> Result<(), CronError>
    ensures { Appends (some_text style summary.now) text.old text.new result }
{
    write_time(
        text,
        style,
        &summary.seconds.pieces,
        &summary.minutes.pieces,
        &summary.hours.pieces,
    )?;
    write_date(text, style, summary)
}

/// Writes the text.
#[tactic(auto, unfolding(crate::specs::Texts::styled_text))]
fn write_styled(text: &mut String, style: Style, summary: &Summary) -> Result<(), CronError>
    ensures { Appends (styled_text style summary.now) text.old text.new result }
{
    match term_of_nothing(summary) {
        Some(term) => write_term(text, style.language, term),
        None => write_some(text, style, summary),
    }
}

/// The text in a style.
fn styled_text(alloc: Global, style: Style, summary: &Summary) -> Result<String, CronError>
    ensures { Writes (styled_text style summary.now) result }
{
    let mut text = String::with_capacity(alloc, TEXT_ROOM)?;
    write_styled(&mut text, style, summary)?;
    Ok(text)
}

/// The style of a text that leaves nothing out.
fn whole_style(language: SummaryLanguage) -> Style
    ensures { result ≡ whole_style language }
{
    Style {
        language,
        most: MOST_BYTES,
    }
}

/// The style of a text that is cut.
fn cut_style(language: SummaryLanguage) -> Style
    ensures { result ≡ cut_style language }
{
    Style {
        language,
        most: CUT_PIECES,
    }
}

/// Whether a phrase has no more pieces than a cut text has.
#[tactic(auto, unfolding(crate::specs::Texts::is_told))]
fn is_told(phrase: &Phrase) -> bool
    ensures { result ≡ is_told phrase.now }
{
    phrase.pieces.len() <= usize::from(CUT_PIECES)
}

/// Whether no list of weekdays has more pieces than that.
#[tactic(auto, unfolding(crate::specs::Texts::is_week_told))]
fn is_week_told(week: &Weekdays) -> bool
    ensures { result ≡ is_week_told week.now }
{
    is_told(&week.each)
        && is_told(&week.first)
        && is_told(&week.second)
        && is_told(&week.third)
        && is_told(&week.fourth)
        && is_told(&week.fifth)
        && is_told(&week.last)
}

/// Whether no list of days of the month has more pieces than that.
#[tactic(auto, unfolding(crate::specs::Texts::is_month_told))]
fn is_month_told(month: &MonthDays) -> bool
    ensures { result ≡ is_month_told month.now }
{
    is_told(&month.numbers) && is_told(&month.nearest)
}

/// Whether no list of days has more pieces than that.
#[tactic(auto, unfolding(crate::specs::Texts::are_days_told))]
fn are_days_told(days: &Days) -> bool
    ensures { result ≡ are_days_told days.now }
{
    match days {
        Days::Every => true,
        Days::OfMonth(month) => is_month_told(month),
        Days::OfWeek(week) => is_week_told(week),
        Days::Either(month, week) => is_month_told(month) && is_week_told(week),
        Days::Both(month, week) => is_month_told(month) && is_week_told(week),
    }
}

/// Whether no list has more pieces than a cut text has.
#[tactic(auto, unfolding(crate::specs::Texts::are_all_told))]
fn are_all_told(summary: &Summary) -> bool
    ensures { result ≡ are_all_told summary.now }
{
    is_told(&summary.seconds)
        && is_told(&summary.minutes)
        && is_told(&summary.hours)
        && are_days_told(&summary.days)
        && is_told(&summary.months)
        && is_told(&summary.years)
}

impl Summary {
    /// The summary in words, as a line without a full stop. The phrases determine it exactly. Days in several parts come after the
    /// months and years that limit them.
    ///
    /// A text of more than 400 bytes is cut: of a list of more than three pieces it has the first three, and how many more there
    /// are. A step beside other values comes before these. [`is_whole`](Self::is_whole) says whether anything is left out.
    ///
    /// The only error is `OutOfMemory`.
    ///
    /// ```
    /// let job = Cron::from_str(alloc, "0-20/3 9 * * MON-FRI")?;
    /// let summary = Summary::of(alloc, &job)?;
    /// let text = summary.text(alloc, &SummaryLanguage::English)?; // Every 3 minutes from 09:00 to 09:18, Monday to Friday
    /// ```
    #[tactic(auto, unfolding(crate::specs::Texts::text_of, crate::specs::Texts::is_short))]
    pub fn text(&self, alloc: Global, language: &SummaryLanguage) -> Result<String, CronError>
        ensures { Writes (text_of language.now self.now) result }
    {
        let whole = styled_text(alloc, whole_style(*language), self)?;
        if whole.len() <= usize::from(MOST_BYTES) {
            return Ok(whole);
        }
        styled_text(alloc, cut_style(*language), self)
    }

    /// Whether the text in a language leaves nothing out: it isn't cut, or no list has more than three pieces.
    ///
    /// The only error is `OutOfMemory`.
    #[tactic(auto, unfolding(crate::specs::Texts::is_whole, crate::specs::Texts::is_short))]
    pub fn is_whole(&self, alloc: Global, language: &SummaryLanguage) -> Result<bool, CronError>
        ensures { MatchResult result (λ whole. whole ≡ is_whole language.now self.now) (λ e. e ≡ CronError.OutOfMemory) }
    {
        if are_all_told(self) {
            return Ok(true);
        }
        let whole = styled_text(alloc, whole_style(*language), self)?;
        Ok(whole.len() <= usize::from(MOST_BYTES))
    }
}

/// The English text.
impl fmt::Display for Summary {
    ghost use Rattle.std.specs.Prelude.{Some};
    ghost use Rattle.croner_summary.specs.declared.language.SummaryLanguage.TheVariants.{English};
    ghost use Rattle.croner_summary.specs.Texts.{text_of};

    ghost output = { λ s. Some (text_of English s) };

    fn fmt<W: fmt::Write>(&self, f: &mut fmt::Formatter<W>) -> fmt::Result {
        let alloc = *self.seconds.pieces.allocator();
        match self.text(alloc, &SummaryLanguage::English) {
            Ok(text) => f.write_str(text.as_str()),
            Err(_) => Err(fmt::Error),
        }
    }
}
