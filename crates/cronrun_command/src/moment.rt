//! Reading the date and time that a search starts from.
ghost use Rattle.std.specs.Prelude.{◌≡◌, ℕ, Some, IsSome, IfSome};
ghost use Rattle.cronrun_command.specs.Moment.{IsTwoDigits, IsFourDigits, AreDateNumbers, IsDateText, IsTimeText, IsDateTimeText};
ghost use Rattle.croner_base.specs.declared.time.civil.CivilDate.{CivilDate};
ghost use Rattle.croner_base.specs.declared.time.civil.CivilTime.{CivilTime};
ghost use Rattle.croner_base.specs.declared.time.civil.CivilDateTime.{CivilDateTime};

use croner::time::{CivilDate, CivilDateTime, CivilTime};

// The number that two ASCII digits write.
fn two_digits(tens: u8, ones: u8) -> Option<u32>
    ensures reads { IfSome result (IsTwoDigits tens ones) }
    ensures finds { (n : ℕ) → IsTwoDigits tens ones n → IsSome result }
{
    if !tens.is_ascii_digit() || !ones.is_ascii_digit() {
        return None;
    }
    Some(10 * (tens - b'0') as u32 + (ones - b'0') as u32)
}

// The number that four ASCII digits write.
fn four_digits(thousands: u8, hundreds: u8, tens: u8, ones: u8) -> Option<u32>
    ensures reads { IfSome result (IsFourDigits thousands hundreds tens ones) }
    ensures finds { (n : ℕ) → IsFourDigits thousands hundreds tens ones n → IsSome result }
{
    let century = two_digits(thousands, hundreds)?;
    let year = two_digits(tens, ones)?;
    Some(100 * century + year)
}

// The year, month and day of `YYYY-MM-DD`, real or not.
fn date_numbers(text: &[u8]) -> Option<(u32, u32, u32)>
    ensures reads { IfSome result (λ n. AreDateNumbers text.now n.0 n.1 n.2) }
    ensures finds { (year month day : ℕ) → AreDateNumbers text.now year month day → result ≡ Some (year, month, day) }
{
    let [y1, y2, y3, y4, b'-', m1, m2, b'-', d1, d2] = text else {
        return None;
    };
    let year = four_digits(*y1, *y2, *y3, *y4)?;
    let month = two_digits(*m1, *m2)?;
    let day = two_digits(*d1, *d2)?;
    Some((year, month, day))
}

// `YYYY-MM-DD`, a real date.
fn read_date(text: &[u8]) -> Option<CivilDate>
    ensures reads { IfSome result (IsDateText text.now) }
    ensures finds { (d : CivilDate) → IsDateText text.now d → IsSome result }
{
    let (year, month, day) = date_numbers(text)?;
    CivilDate::from_ymd_opt(year as i32, month, day)
}

// `HH:MM:SS`, a time of day.
fn read_time(text: &[u8]) -> Option<CivilTime>
    ensures reads { IfSome result (IsTimeText text.now) }
    ensures finds { (t : CivilTime) → IsTimeText text.now t → IsSome result }
{
    let [h1, h2, b':', m1, m2, b':', s1, s2] = text else {
        return None;
    };
    let hour = two_digits(*h1, *h2)?;
    let minute = two_digits(*m1, *m2)?;
    let second = two_digits(*s1, *s2)?;
    CivilTime::from_hms_opt(hour, minute, second)
}

/// Reads `YYYY-MM-DDTHH:MM:SS`: exactly 19 ASCII characters, the years 0000 to 9999, a real date
/// and time of day. `None` for every other text.
pub fn read_datetime(text: &str) -> Option<CivilDateTime>
    ensures reads { IfSome result (IsDateTimeText text.now) }
    ensures finds { (c : CivilDateTime) → IsDateTimeText text.now c → IsSome result }
{
    let bytes = text.as_bytes();
    if bytes.len() != 19 || bytes[10] != b'T' {
        return None;
    }
    let date = read_date(&bytes[..10])?;
    let time = read_time(&bytes[11..])?;
    Some(CivilDateTime::new(date, time))
}
