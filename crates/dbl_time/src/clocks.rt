ghost use Rattle.std.specs.Prelude.{◌≡◌, ◌≤◌, ◌<◌, ◌++◌, ◌/◌, ◌%◌, Option, OnOk, IfSome};
ghost use Rattle.std.specs.List.{list_all};
ghost use Rattle.std.specs.Char.{is_ascii_digit};
ghost use Rattle.std.specs.String.{string_bytes};
ghost use Rattle.dbl_time.specs.Clocks.{clock_seconds, seconds_of, is_fraction};
ghost use Rattle.dbl_time.specs.Clocks.{fraction_micros, fraction_of, joined_clock, clock_of};
ghost use Rattle.dbl_time.specs.Clocks.{day_micros, time_of, short_digits, digit_units};
ghost use Rattle.dbl_time.specs.Clocks.{fraction_text, seconds_text, clock_text, six_digits};

use crate::shapes::{
    are_digits, byte_at, bytes_before, bytes_from, digit, is_shaped, push_digit, push_two, two,
};
use std::alloc::AllocError;

const DAY_MICROS: u64 = 86_400_000_000;

/// The values in microseconds of a fraction's six digits.
const DIGIT_UNITS: [u32; 6] = [100_000, 10_000, 1_000, 100, 10, 1];

/// The seconds in a number of hours, minutes and seconds, if the hours are within the limit and the
/// others below 60.
#[tactic(auto, unfolding(crate::specs::Clocks::clock_seconds))]
pub fn seconds_within(limit: u32, hours: u32, minutes: u32, seconds: u32) -> Option<u32>
    requires { limit < 24 }
    ensures value { result ≡ clock_seconds limit hours minutes seconds }
    ensures bound { IfSome result (λ n. n < 86400) }
{
    if hours > limit {
        return None;
    }
    if minutes > 59 {
        return None;
    }
    if seconds > 59 {
        return None;
    }
    Some(3600 * hours + 60 * minutes + seconds)
}

/// The seconds since midnight of a text `HH:MM:SS`.
#[tactic(auto, unfolding(crate::specs::Clocks::seconds_of))]
fn seconds(text: &[u8]) -> Option<u32>
    ensures value { result ≡ seconds_of text.now }
    ensures bound { IfSome result (λ n. n < 86400) }
{
    if is_shaped(b"99:99:99", text) {
        seconds_within(23, two(text, 0), two(text, 3), two(text, 6))
    } else {
        None
    }
}

fn is_point_and_digits(text: &[u8]) -> bool
    ensures { result ≡ is_fraction text.now }
{
    if byte_at(text, 0) != b'.' {
        return false;
    }
    if text.len() < 2 {
        return false;
    }
    if text.len() > 7 {
        return false;
    }
    are_digits(bytes_from(text, 1))
}

fn fraction_value(text: &[u8]) -> u32
    ensures value { result ≡ fraction_micros text.now }
    ensures bound { result < 30_000_000 }
{
    100_000 * digit(text, 1)
        + 10_000 * digit(text, 2)
        + 1_000 * digit(text, 3)
        + 100 * digit(text, 4)
        + 10 * digit(text, 5)
        + digit(text, 6)
}

/// The microseconds of a fraction of a second; 0 if it is absent.
#[tactic(auto, unfolding(crate::specs::Clocks::fraction_of))]
fn fraction(text: &[u8]) -> Option<u32>
    ensures value { result ≡ fraction_of text.now }
    ensures bound { IfSome result (λ n. n < 30000000) }
{
    if text.is_empty() {
        Some(0)
    } else if is_point_and_digits(text) {
        Some(fraction_value(text))
    } else {
        None
    }
}

fn joined_clock(seconds: Option<u32>, micros: Option<u32>) -> Option<u64>
    requires seconds { IfSome seconds (λ n. n < 86400) }
    requires micros { IfSome micros (λ n. n < 30000000) }
    ensures value { result ≡ joined_clock seconds micros }
    ensures bound { IfSome result (λ n. n < 90000000000) }
{
    match (seconds, micros) {
        (Some(seconds), Some(micros)) => Some(1_000_000 * seconds as u64 + micros as u64),
        _ => None,
    }
}

/// The microseconds since midnight of a text that is a time before 24:00:00.
pub fn clock(text: &[u8]) -> Option<u64>
    ensures value { result ≡ clock_of text.now }
    ensures bound { IfSome result (λ n. n < 90000000000) }
{
    joined_clock(
        seconds(bytes_before(text, 8)),
        fraction(bytes_from(text, 8)),
    )
}

/// Parses a time, `HH:MM:SS` with an optional fraction of 1 to 6 digits, or `24:00:00`, as
/// microseconds since midnight. PostgreSQL's manual, "Date/Time Types".
pub fn parse_time(text: &[u8]) -> Option<u64>
    ensures value { result ≡ time_of text.now }
    ensures bound { IfSome result (λ n. n < 90000000000) }
{
    if text == b"24:00:00".as_slice() {
        Some(DAY_MICROS)
    } else {
        clock(text)
    }
}

/// Appends the shortest fraction, nothing for 0.
fn push_fraction(text: &mut String, micros: u32) -> Result<(), AllocError>
    requires { micros < 1000000 }
    ensures { OnOk result (string_bytes text.new ≡ string_bytes text.old ++ fraction_text micros) }
{
    if micros == 0 {
        return Ok(());
    }
    text.push('.')?;
    let mut left = micros;
    for unit in DIGIT_UNITS.iter() {
        if left == 0 {
            return Ok(());
        }
        push_digit(text, left / *unit)?;
        left %= *unit;
    }
    Ok(())
}

/// Appends a number of seconds as `HH:MM:SS`.
pub fn push_seconds(text: &mut String, seconds: u32) -> Result<(), AllocError>
    requires { seconds ≤ 86400 }
    ensures { OnOk result (string_bytes text.new ≡ string_bytes text.old ++ seconds_text seconds) }
{
    push_two(text, seconds / 3600)?;
    text.push(':')?;
    push_two(text, seconds / 60 % 60)?;
    text.push(':')?;
    push_two(text, seconds % 60)
}

/// Appends a time of day, or 24:00:00, in microseconds since midnight: `HH:MM:SS` and the shortest
/// fraction (ISO 8601).
pub fn push_time(text: &mut String, micros: u64) -> Result<(), AllocError>
    requires { micros ≤ day_micros }
    ensures { OnOk result (string_bytes text.new ≡ string_bytes text.old ++ clock_text micros) }
{
    push_seconds(text, (micros / 1_000_000) as u32)?;
    push_fraction(text, (micros % 1_000_000) as u32)
}

/// Appends a number as six digits.
pub fn push_six(text: &mut String, number: u32) -> Result<(), AllocError>
    requires { number < 1000000 }
    ensures { OnOk result (string_bytes text.new ≡ string_bytes text.old ++ six_digits number) }
{
    push_two(text, number / 10_000)?;
    push_two(text, number / 100 % 100)?;
    push_two(text, number % 100)
}
