//! How many dates a plan may have that shows each of them.

use croncheck_moments::moment::date_at;
use croncheck_runs::runs::Listing;
use cronplan_forms::{FileAsked, PlanAsked};
use jiff::Span;
use jiff::civil::Date;
use jiff::tz::TimeZone;

/// The most dates of a page, of the picture of a week's hours and of the grid of a month.
pub const MOST_DATES: i64 = 400;

/// The last date that a plan may have which shows each of its dates, if it is to have later ones: its first date is the one that the zone's
/// clock shows at `first`. `None` for any other plan, and for what isn't one.
pub fn latest_date(
    asked: &PlanAsked,
    zone: &TimeZone<'_>,
    first: i64,
    listing: Listing,
) -> Option<Date> {
    let Listing::Until(last) = listing else {
        return None;
    };
    if !shows_each_date(asked) {
        return None;
    }
    let span = Span::new().days(MOST_DATES - 1);
    let latest = date_at(zone, first)?.checked_add(span).ok()?;
    match date_at(zone, last) {
        Some(date) if date <= latest => None,
        Some(_) | None => Some(latest),
    }
}

fn shows_each_date(asked: &PlanAsked) -> bool {
    asked.questions.week.is_some() || asked.questions.month || is_page(asked.file)
}

fn is_page(file: Option<FileAsked>) -> bool {
    match file {
        Some(FileAsked::Page) => true,
        Some(FileAsked::Calendar(_) | FileAsked::Json) | None => false,
    }
}
