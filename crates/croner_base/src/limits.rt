//! Limits that more than one crate uses.

use crate::time::{YEAR_LOWER_LIMIT, YEAR_UPPER_LIMIT};

/// The greatest second of a minute.
pub const LAST_SECOND: u32 = 59;

/// The greatest minute of an hour.
pub const LAST_MINUTE: u32 = 59;

/// The greatest hour of a day.
pub const LAST_HOUR: u32 = 23;

/// The greatest month of a year.
pub const LAST_MONTH: u32 = 12;

/// The days of a week.
pub const DAYS_PER_WEEK: u32 = 7;

/// The seconds of a day on a wall clock.
pub const SECONDS_PER_DAY: u32 = 86_400;

/// The day number of -9999-01-01, the first date of `jiff`.
pub(crate) const FIRST_DAY_NUMBER: i64 = -4_371_587;

/// The days from 0000-01-01 to 1970-01-01.
const DAYS_TO_EPOCH: i64 = 719_528;

/// The first year that a pattern can name.
const SEARCHED_FROM: i64 = YEAR_LOWER_LIMIT as i64;

/// The year after the last one.
const SEARCHED_UNTIL: i64 = YEAR_UPPER_LIMIT as i64 + 1;

/// The first wall second of the years that a pattern can name: 0001-01-01T00:00:00. Each year before them has 365 days, and
/// each leap year one more.
pub const FIRST_SEARCHED_SECOND: i64 = (365 * SEARCHED_FROM + (SEARCHED_FROM + 3) / 4
    - (SEARCHED_FROM + 99) / 100
    + (SEARCHED_FROM + 399) / 400
    - DAYS_TO_EPOCH)
    * SECONDS_PER_DAY as i64;

/// The last one: 5000-12-31T23:59:59.
pub const LAST_SEARCHED_SECOND: i64 = (365 * SEARCHED_UNTIL + (SEARCHED_UNTIL + 3) / 4
    - (SEARCHED_UNTIL + 99) / 100
    + (SEARCHED_UNTIL + 399) / 400
    - DAYS_TO_EPOCH)
    * SECONDS_PER_DAY as i64
    - 1;

/// The most seconds that the clock of a calm zone is moved forward at once.
pub const GAP_LIMIT_SECONDS: u32 = 86_400;

/// From minus this year to this year each second plus any offset is an instant of `jiff` and of a table, so a zoned
/// date-time and a table's clock hold it.
pub(crate) const YEAR_LIMIT: i32 = 9_998;
