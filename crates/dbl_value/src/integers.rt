ghost use Rattle.std.specs.Prelude.{◌≡◌, ◌^◌, nat_lt, slice_index};
ghost use Rattle.dbl_value_types.specs.Decimals.{integer_of, is_plain, digits_of};

use dbl_time::are_digits;

fn without_minus(bytes: &[u8]) -> &[u8]
    ensures { result.now ≡ digits_of bytes.now }
{
    if !bytes.is_empty() && bytes[0] == b'-' {
        &bytes[1..]
    } else {
        bytes
    }
}

fn begins_above_zero(bytes: &[u8]) -> bool
    ensures { result ≡ nat_lt 48 (slice_index bytes.now 0) }
{
    !bytes.is_empty() && bytes[0] > b'0'
}

/// Whether a text is `0`, or digits that begin with no 0 after an optional minus.
fn is_plain_decimal(text: &str) -> bool
    ensures { result ≡ is_plain text.now }
{
    let digits = without_minus(text.as_bytes());
    text == "0" || (are_digits(digits) && begins_above_zero(digits))
}

/// Parses a 16-bit integer.
pub fn int2(text: &str) -> Option<i16>
    ensures { result ≡ integer_of (2 ^ 15) text.now }
{
    if !is_plain_decimal(text) {
        return None;
    }
    match text.parse::<i16>() {
        Ok(number) => Some(number),
        Err(_) => None,
    }
}

/// Parses a 32-bit integer.
pub fn int4(text: &str) -> Option<i32>
    ensures { result ≡ integer_of (2 ^ 31) text.now }
{
    if !is_plain_decimal(text) {
        return None;
    }
    match text.parse::<i32>() {
        Ok(number) => Some(number),
        Err(_) => None,
    }
}

/// Parses a 64-bit integer.
pub fn int8(text: &str) -> Option<i64>
    ensures { result ≡ integer_of (2 ^ 63) text.now }
{
    if !is_plain_decimal(text) {
        return None;
    }
    match text.parse::<i64>() {
        Ok(number) => Some(number),
        Err(_) => None,
    }
}
