//! The times from which searches start.

use jiff::civil::DateTime;
use jiff::tz::Offset;
use jiff::{Error, Timestamp};
use std::alloc::{AllocError, Global};

/// How many times there are from which to start.
const COUNT: u32 = 64;

/// 2024-01-01T00:00:00, in seconds from 1970-01-01T00:00:00.
pub const FIRST_SECOND: i64 = 1_704_067_200;

/// The last second before 2024-06-03T00:00:00, a Monday, in UTC.
pub const BEFORE_MONDAY: i64 = 1_717_372_799;

/// The times lie within this many seconds from the first one: ten years of 365 days.
const SPAN_SECONDS: u64 = 315_360_000;

/// The state before the first time.
const SEED: u64 = 0x9e37_79b9_7f4a_7c15;

const FACTOR: u64 = 6_364_136_223_846_793_005;

const INCREMENT: u64 = 1_442_695_040_888_963_407;

// The next state.
fn following(state: u64) -> u64 {
    state.wrapping_mul(FACTOR).wrapping_add(INCREMENT)
}

// The second of a state: its upper 31 bits, taken into the span.
fn second_of(state: u64) -> i64 {
    FIRST_SECOND + ((state >> 33) % SPAN_SECONDS) as i64
}

/// The seconds from 1970-01-01T00:00:00 from which searches start.
pub fn seconds(alloc: Global) -> Result<Vec<i64>, AllocError> {
    let mut seconds = Vec::new(alloc);
    let mut state = SEED;
    for _ in 0..COUNT {
        state = following(state);
        seconds.push(second_of(state))?;
    }
    Ok(seconds)
}

/// How many seconds lie between two of the times that are far from each other.
const FAR_APART_SECONDS: i64 = 450_000_000;

/// As many seconds from 1970-01-01T00:00:00, spread over the 912 years before 2024-01-01T00:00:00.
pub fn far_seconds(alloc: Global) -> Result<Vec<i64>, AllocError> {
    let mut seconds = Vec::new(alloc);
    let mut second = FIRST_SECOND;
    for _ in 0..COUNT {
        second = second.saturating_sub(FAR_APART_SECONDS);
        seconds.push(second)?;
    }
    Ok(seconds)
}

/// What a wall clock shows at a second.
pub fn civil_at(second: i64) -> Result<DateTime, Error> {
    Ok(Offset::UTC.to_datetime(Timestamp::from_second(second)?))
}
