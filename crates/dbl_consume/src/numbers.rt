//! JSON numbers.
ghost use Rattle.std.specs.Prelude.{◌≡◌, ◌<◌, ◌==◌, length, slice_index, true, false, IsTrue};
ghost use Rattle.std.specs.Prelude.{option_map};
ghost use Rattle.serde_json.specs.Read.{number_of, number_from, float_of};
ghost use Rattle.dbl_consume.specs.JsonValues.{num_of, num_in};

use fast_float::Numeral;

/// A JSON number.
#[derive(Clone, Copy)]
pub(crate) enum JsonNumber {
    Unsigned(u64),
    /// An integer below 0.
    Negative(i64),
    /// A number that isn't a 64-bit integer.
    Float(f64),
}

fn float_of(negative: bool, numeral: &Numeral<'_>) -> Option<JsonNumber>
    ensures { option_map num_of result ≡ float_of negative numeral.now }
{
    let float = numeral.to_float::<f64>(negative);
    if float.is_finite() {
        Some(JsonNumber::Float(float))
    } else {
        None
    }
}

fn positive_number(numeral: &Numeral<'_>) -> Option<JsonNumber>
    ensures { option_map num_of result ≡ number_from false numeral.now }
{
    match numeral.to_u64() {
        Some(n) => Some(JsonNumber::Unsigned(n)),
        None => float_of(false, numeral),
    }
}

fn negative_number(numeral: &Numeral<'_>) -> Option<JsonNumber>
    ensures { option_map num_of result ≡ number_from true numeral.now }
{
    if let Some(n) = numeral.to_i64(true) {
        if n < 0 {
            return Some(JsonNumber::Negative(n));
        }
    }
    float_of(true, numeral)
}

fn has_minus(bytes: &[u8]) -> bool
    ensures value { result ≡ (slice_index bytes.now 0 == 45) }
    ensures some { IsTrue result → 0 < length bytes.now }
{
    !bytes.is_empty() && bytes[0] == b'-'
}

/// The number that a JSON number's text represents, if it is within the range of 64-bit floats.
pub(crate) fn number_of(text: &str) -> Option<JsonNumber>
    ensures { option_map num_of result ≡ number_of text.now }
{
    let bytes = text.as_bytes();
    if has_minus(bytes) {
        negative_number(&Numeral::scan(&bytes[1..]))
    } else {
        positive_number(&Numeral::scan(bytes))
    }
}

/// The number that a JSON number's text represents.
pub(crate) fn number_in(text: &str) -> JsonNumber
    ensures { num_of result ≡ num_in text.now }
{
    match number_of(text) {
        Some(number) => number,
        None => JsonNumber::Unsigned(0),
    }
}
