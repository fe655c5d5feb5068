ghost use Rattle.std.specs.Prelude.{◌≡◌, Some, None, not};
ghost use Rattle.std.specs.List.{position};
ghost use Rattle.std.specs.Char.{is_ascii_digit};
ghost use Rattle.dbl_value_types.specs.Values.{value_of};
ghost use Rattle.dbl_value_types.specs.Faults.{has_long_year, is_beyond, is_moved_out};
ghost use Rattle.dbl_value_types.specs.Faults.{is_date_range, value_fault};

use dbl_time::{byte_at, is_in_years, parse_instant};
use dbl_value_types::{PgType, ValueError};

/// The index of the first byte that isn't a digit.
fn place_after_digits(text: &[u8]) -> Option<usize>
    ensures { result ≡ position (λ c. not (is_ascii_digit c)) text.now }
{
    text.iter().position(|byte| !byte.is_ascii_digit())
}

/// Whether a text begins with five or more digits and a `-`.
fn begins_with_long_year(text: &[u8]) -> bool
    ensures { result ≡ has_long_year text.now }
{
    match place_after_digits(text) {
        Some(digits) if digits >= 5 => byte_at(text, digits) == b'-',
        _ => false,
    }
}

/// Whether PostgreSQL writes the text for a date outside the years 1 to 9999.
fn is_beyond_years(text: &[u8]) -> bool
    ensures { result ≡ is_beyond text.now }
{
    text == b"infinity".as_slice()
        || text == b"-infinity".as_slice()
        || text.ends_with(b" BC")
        || begins_with_long_year(text)
        || text.starts_with(b"0000-")
}

/// Whether the UTC instant of the text is outside the years 1 to 9999.
fn is_out_in_utc(text: &[u8]) -> bool
    ensures { result ≡ is_moved_out text.now }
{
    match parse_instant(text) {
        Some(instant) => !is_in_years(&instant),
        None => false,
    }
}

fn is_out_of_range(ty: PgType, text: &[u8]) -> bool
    ensures { result ≡ is_date_range ty text.now }
{
    match ty {
        PgType::Date | PgType::Timestamp => is_beyond_years(text),
        PgType::Timestamptz => is_beyond_years(text) || is_out_in_utc(text),
        _ => false,
    }
}

/// The fault of a text that is no value of the type.
pub fn fault(ty: PgType, text: &str) -> ValueError
    requires { value_of ty text.now ≡ None }
    ensures { value_fault ty text.now ≡ Some result }
{
    if is_out_of_range(ty, text.as_bytes()) {
        ValueError::DateRange
    } else {
        ValueError::BadText
    }
}
