ghost use Rattle.std.specs.Prelude.{◌≡◌, ◌+◌, ◌<◌, ◌++◌, ◌∷◌, [], OnOk, take, drop, slice_index};
ghost use Rattle.std.specs.List.{list_all};
ghost use Rattle.std.specs.Char.{is_ascii_digit};
ghost use Rattle.std.specs.String.{string_bytes};
ghost use Rattle.dbl_time.specs.Shapes.{is_lower_hex, stands_for, has_shape, digit_at};
ghost use Rattle.dbl_time.specs.Shapes.{two_at, four_at, two_digits, four_digits};

use std::alloc::AllocError;

/// Whether a byte is a lower-case hexadecimal digit, `0` to `9` or `a` to `f`.
pub fn is_lower_hex_digit(byte: u8) -> bool
    ensures { result ≡ is_lower_hex byte }
{
    byte.is_ascii_digit() || (byte >= b'a' && byte <= b'f')
}

fn may_stand(place: u8, byte: u8) -> bool
    ensures { result ≡ stands_for place byte }
{
    match place {
        b'9' => byte.is_ascii_digit(),
        b'x' => is_lower_hex_digit(byte),
        _ => byte == place,
    }
}

/// Whether all bytes are decimal digits.
pub fn are_digits(bytes: &[u8]) -> bool
    ensures { result ≡ list_all is_ascii_digit bytes.now }
{
    bytes.iter().all(|byte| byte.is_ascii_digit())
}

/// Whether a text matches a shape, byte for byte: `9` matches a decimal digit, `x` a lower-case
/// hexadecimal digit, and any other byte itself.
pub fn is_shaped(shape: &[u8], text: &[u8]) -> bool
    ensures { result ≡ has_shape shape.now text.now }
{
    if shape.len() != text.len() {
        return false;
    }
    for (place, byte) in text.iter().enumerate() {
        if !may_stand(shape[place], *byte) {
            return false;
        }
    }
    true
}

/// The byte at an index; 0 past the end.
pub fn byte_at(text: &[u8], place: usize) -> u8
    ensures { result ≡ slice_index text.now place }
{
    if place < text.len() { text[place] } else { 0 }
}

/// The bytes before an index.
pub fn bytes_before(text: &[u8], place: usize) -> &[u8]
    ensures { result.now ≡ take place text.now }
{
    if place < text.len() {
        &text[..place]
    } else {
        text
    }
}

/// The bytes from an index on.
pub fn bytes_from(text: &[u8], place: usize) -> &[u8]
    ensures { result.now ≡ drop place text.now }
{
    if place < text.len() {
        &text[place..]
    } else {
        &text[text.len()..]
    }
}

/// The value of the digit at an index; 0 past the end.
pub fn digit(text: &[u8], place: usize) -> u32
    ensures value { result ≡ digit_at text.now place }
    ensures bound { result < 208 }
{
    (byte_at(text, place) as u32).saturating_sub(48)
}

/// The value of the two digits from an index on.
pub fn two(text: &[u8], place: usize) -> u32
    requires { place < 100 }
    ensures value { result ≡ two_at text.now place }
    ensures bound { result < 2288 }
{
    10 * digit(text, place) + digit(text, place + 1)
}

/// The value of the four digits from an index on.
pub fn four(text: &[u8], place: usize) -> u32
    requires { place < 90 }
    ensures value { result ≡ four_at text.now place }
    ensures bound { result < 300_000 }
{
    100 * two(text, place) + two(text, place + 2)
}

/// Appends a digit.
pub fn push_digit(text: &mut String, number: u32) -> Result<(), AllocError>
    requires { number < 10 }
    ensures { OnOk result (string_bytes text.new ≡ string_bytes text.old ++ (48 + number) ∷ []) }
{
    text.push((b'0' + number as u8) as char)
}

/// Appends a number as two digits.
pub fn push_two(text: &mut String, number: u32) -> Result<(), AllocError>
    requires { number < 100 }
    ensures { OnOk result (string_bytes text.new ≡ string_bytes text.old ++ two_digits number) }
{
    push_digit(text, number / 10)?;
    push_digit(text, number % 10)
}

/// Appends a number as four digits.
pub fn push_four(text: &mut String, number: u32) -> Result<(), AllocError>
    requires { number < 10_000 }
    ensures { OnOk result (string_bytes text.new ≡ string_bytes text.old ++ four_digits number) }
{
    push_digit(text, number / 1000)?;
    push_digit(text, number / 100 % 10)?;
    push_digit(text, number / 10 % 10)?;
    push_digit(text, number % 10)
}
