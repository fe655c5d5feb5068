ghost use Rattle.std.specs.Prelude.{◌≡◌, ◌<◌, ◌++◌, pos, true, OnOk, IfSome};
ghost use Rattle.std.specs.String.{string_bytes};
ghost use Rattle.jiff_core.specs.Calendar.{IsEpochDay, days_from_civil};
ghost use Rattle.dbl_time.specs.Dates.{is_day, number_of_day, day_of};
ghost use Rattle.dbl_time.specs.Dates.{date_parts_text, date_text, IsInYears};

use crate::shapes::{four, is_shaped, push_four, push_two, two};
use jiff_core::civil::Date;
use std::alloc::AllocError;

/// The days since 1970-01-01 of a date, if the calendar has it in a year from 1 to 9999.
fn day_number(year: u32, month: u32, day: u32) -> Option<i32>
    ensures value { result ≡ number_of_day year month day }
    ensures bound { IfSome result (λ n. IsEpochDay n) }
{
    if year < 1 || year > 9999 || month < 1 || month > 12 || day < 1 || day > 31 {
        return None;
    }
    match Date::new(year as i16, month as i8, day as i8) {
        Ok(date) => Some(date.to_unix_epoch_day()),
        Err(_) => None,
    }
}

/// Parses a date `YYYY-MM-DD` of the years 1 to 9999 as days since 1970-01-01. PostgreSQL's manual,
/// "Date/Time Types", the style ISO.
#[tactic(auto, unfolding(crate::specs::Dates::day_of))]
pub fn parse_date(text: &[u8]) -> Option<i32>
    ensures value { result ≡ day_of text.now }
    ensures bound { IfSome result (λ n. IsEpochDay n) }
{
    if is_shaped(b"9999-99-99", text) {
        day_number(four(text, 0), two(text, 5), two(text, 8))
    } else {
        None
    }
}

fn push_parts(text: &mut String, year: u32, month: u32, day: u32) -> Result<(), AllocError>
    requires year { year < 10000 }
    requires month { month < 100 }
    requires day { day < 100 }
    ensures { OnOk result
        (string_bytes text.new ≡ string_bytes text.old ++ date_parts_text year month day) }
{
    push_four(text, year)?;
    text.push('-')?;
    push_two(text, month)?;
    text.push('-')?;
    push_two(text, day)
}

/// The year, month and day of a day in the years 1 to 9999.
fn civil(day: &i32) -> (u32, u32, u32)
    requires { IsInYears day.now }
    ensures is_day { is_day result.0 result.1 result.2 ≡ true }
    ensures number { days_from_civil (pos result.0) result.1 result.2 ≡ day.now }
{
    match Date::from_unix_epoch_day(*day as i64) {
        Ok(date) => (date.year as u32, date.month as u32, date.day as u32),
        Err(_) => unreachable!(),
    }
}

/// Appends a day, in days since 1970-01-01, as `YYYY-MM-DD` (ISO 8601).
pub fn push_date(text: &mut String, day: &i32) -> Result<(), AllocError>
    requires { IsInYears day.now }
    ensures { OnOk result (string_bytes text.new ≡ string_bytes text.old ++ date_text day.now) }
{
    let (year, month, day_of_month) = civil(day);
    push_parts(text, year, month, day_of_month)
}
