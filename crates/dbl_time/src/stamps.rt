ghost use Rattle.std.specs.Prelude.{◌≡◌, ◌≤◌, ◌<◌, ◌++◌, length, IsTrue, OnOk, IfSome};
ghost use Rattle.std.specs.String.{string_bytes};
ghost use Rattle.jiff_core.specs.Calendar.{IsEpochDay, IsWithin};
ghost use Rattle.dbl_time.specs.Dates.{IsInYears};
ghost use Rattle.dbl_time.specs.Clocks.{day_micros};
ghost use Rattle.dbl_time.specs.Stamps.{joined_stamp, stamp_of, is_sign, sign_place};
ghost use Rattle.dbl_time.specs.Stamps.{is_offset_size, offset_size, signed_offset, offset_of};
ghost use Rattle.dbl_time.specs.Stamps.{joined_instant, instant_of, is_instant, day_of_stamp};
ghost use Rattle.dbl_time.specs.Stamps.{clock_of_stamp, stamp_text, zulu_text, moment_room};

use crate::clocks::{clock, push_seconds, push_six, push_time, seconds_within};
use crate::dates::{parse_date, push_date};
use crate::shapes::{byte_at, bytes_before, bytes_from, is_shaped, two};
use std::alloc::AllocError;

const DAY_MICROS: i64 = 86_400_000_000;

const FIRST_INSTANT: i64 = -62_135_596_800_000_000;

const LAST_INSTANT: i64 = 253_402_300_799_999_999;

fn joined_stamp(day: Option<i32>, clock: Option<u64>) -> Option<i64>
    requires day { IfSome day (λ n. IsEpochDay n) }
    requires clock { IfSome clock (λ n. n < 90000000000) }
    ensures value { result ≡ joined_stamp day clock }
    ensures bound { IfSome result (λ z. IsWithin moment_room z) }
{
    match (day, clock) {
        (Some(day), Some(clock)) => Some(day as i64 * DAY_MICROS + clock as i64),
        _ => None,
    }
}

/// Parses a timestamp, a date, one space and a time before 24:00:00, as microseconds since
/// 1970-01-01 00:00:00. PostgreSQL's manual, "Date/Time Types".
pub fn parse_timestamp(text: &[u8]) -> Option<i64>
    ensures value { result ≡ stamp_of text.now }
    ensures bound { IfSome result (λ z. IsWithin moment_room z) }
{
    if byte_at(text, 10) == b' ' {
        joined_stamp(
            parse_date(bytes_before(text, 10)),
            clock(bytes_from(text, 11)),
        )
    } else {
        None
    }
}

fn is_plus_or_minus(byte: u8) -> bool
    ensures { result ≡ is_sign byte }
{
    byte == b'+' || byte == b'-'
}

/// Whether a text is `HH`, `HH:MM` or `HH:MM:SS`.
fn is_shaped_as_offset(text: &[u8]) -> bool
    ensures { result ≡ is_offset_size text.now }
{
    is_shaped(b"99", text) || is_shaped(b"99:99", text) || is_shaped(b"99:99:99", text)
}

/// The seconds of an offset, without its sign.
#[tactic(auto, unfolding(crate::specs::Stamps::offset_size))]
fn size_of_offset(text: &[u8]) -> Option<u32>
    ensures value { result ≡ offset_size text.now }
    ensures bound { IfSome result (λ n. n < 86400) }
{
    if is_shaped_as_offset(text) {
        seconds_within(15, two(text, 0), two(text, 3), two(text, 6))
    } else {
        None
    }
}

fn signed_offset(sign: u8, size: Option<u32>) -> Option<i32>
    requires { IfSome size (λ n. n < 86400) }
    ensures value { result ≡ signed_offset sign size }
    ensures bound { IfSome result (λ z. IsWithin 86400 z) }
{
    match size {
        Some(seconds) if sign == b'+' => Some(seconds as i32),
        Some(seconds) if sign == b'-' => Some(-(seconds as i32)),
        _ => None,
    }
}

/// The seconds by which a clock with this offset is ahead of UTC.
fn offset(text: &[u8]) -> Option<i32>
    ensures value { result ≡ offset_of text.now }
    ensures bound { IfSome result (λ z. IsWithin 86400 z) }
{
    signed_offset(byte_at(text, 0), size_of_offset(bytes_from(text, 1)))
}

fn joined_instant(moment: Option<i64>, offset: Option<i32>) -> Option<i64>
    requires moment { IfSome moment (λ z. IsWithin moment_room z) }
    requires offset { IfSome offset (λ z. IsWithin 86400 z) }
    ensures { result ≡ joined_instant moment offset }
{
    match (moment, offset) {
        (Some(moment), Some(offset)) => Some(moment - offset as i64 * 1_000_000),
        _ => None,
    }
}

/// The index of the offset's sign after the first 19 bytes, which are date and time.
#[tactic(auto, unfolding(crate::specs::Stamps::sign_place))]
fn place_of_sign(text: &[u8]) -> Option<usize>
    ensures value { result ≡ sign_place text.now }
    ensures bound { IfSome result (λ n. n ≤ length text.now) }
{
    bytes_from(text, 19)
        .iter()
        .position(|byte| is_plus_or_minus(*byte))
}

/// Parses a timestamp with an offset, `+` or `-` and `HH`, `HH:MM` or `HH:MM:SS`, as microseconds
/// since 1970-01-01 00:00:00 UTC, in any year. PostgreSQL's manual, "Date/Time Types".
pub fn parse_instant(text: &[u8]) -> Option<i64>
    ensures { result ≡ instant_of text.now }
{
    match place_of_sign(text) {
        Some(place) => joined_instant(
            parse_timestamp(bytes_before(text, 19 + place)),
            offset(bytes_from(text, 19 + place)),
        ),
        None => None,
    }
}

/// Whether an instant, in microseconds since 1970-01-01 00:00:00, is in the years 1 to 9999.
pub fn is_in_years(instant: &i64) -> bool
    ensures { result ≡ is_instant instant.now }
{
    *instant >= FIRST_INSTANT && *instant <= LAST_INSTANT
}

/// The day of an instant in the years 1 to 9999, and the microseconds since its midnight.
fn day_and_clock(moment: &i64) -> (i32, u64)
    requires { IsTrue (is_instant moment.now) }
    ensures day { result.0 ≡ day_of_stamp moment.now }
    ensures in_years { IsInYears result.0 }
    ensures clock { result.1 ≡ clock_of_stamp moment.now }
    ensures in_day { result.1 < day_micros }
{
    let day = moment.div_euclid(DAY_MICROS) as i32;
    let clock = moment.rem_euclid(DAY_MICROS) as u64;
    (day, clock)
}

/// Appends a timestamp, in microseconds since 1970-01-01 00:00:00, as PostgreSQL prints it: a date,
/// one space and a time with the shortest fraction.
#[tactic(auto, unfolding(crate::specs::Stamps::stamp_text))]
pub fn push_timestamp(text: &mut String, moment: &i64) -> Result<(), AllocError>
    requires { IsTrue (is_instant moment.now) }
    ensures { OnOk result (string_bytes text.new ≡ string_bytes text.old ++ stamp_text moment.now) }
{
    let (day, clock) = day_and_clock(moment);
    push_date(text, &day)?;
    text.push(' ')?;
    push_time(text, clock)
}

/// Appends an instant, in microseconds since 1970-01-01 00:00:00 UTC, as
/// `YYYY-MM-DDTHH:MM:SS.ffffffZ` (RFC 3339).
#[tactic(auto, unfolding(crate::specs::Stamps::zulu_text))]
pub fn push_zulu(text: &mut String, instant: &i64) -> Result<(), AllocError>
    requires { IsTrue (is_instant instant.now) }
    ensures { OnOk result (string_bytes text.new ≡ string_bytes text.old ++ zulu_text instant.now) }
{
    let (day, clock) = day_and_clock(instant);
    push_date(text, &day)?;
    text.push('T')?;
    push_seconds(text, (clock / 1_000_000) as u32)?;
    text.push('.')?;
    push_six(text, (clock % 1_000_000) as u32)?;
    text.push('Z')
}
