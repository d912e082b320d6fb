// The number of a token.
ghost use Rattle.std.specs.Prelude.{◌≡◌, ◌<◌, ◌==◌, true, false, IsTrue, IfSome, Some, length, option_map, slice_index};
ghost use Rattle.serde_json.specs.Data.{unsigned};
ghost use Rattle.serde_json.specs.Read.{float_of, number_from, number_of};
ghost use Rattle.json_tree.specs.Numbers.{number_view};

use fast_float::Numeral;

/// So many digits always fit 64 bits.
const MAX_SHORT: usize = 19;

/// A number: an integer of 64 bits from 0 on, one below 0, or the float nearest to any other.
#[derive(Clone, Copy, Drop)]
pub enum Number {
    Unsigned(u64),
    Negative(i64),
    Float(f64),
}

/// The number of a token of JSON, if it is in range.
#[inline(always)]
pub fn number_of_text(text: &str) -> Option<Number>
    ensures { option_map number_view result ≡ number_of text.now }
{
    let bytes = text.as_bytes();
    match short_digits(bytes) {
        Some(value) => Some(Number::Unsigned(value)),
        None => scanned(bytes),
    }
}

/// The value of 1 to 19 digits, if the token is nothing else.
#[inline(always)]
fn short_digits(bytes: &[u8]) -> Option<u64>
    ensures { IfSome result (λ value. number_of bytes.now ≡ Some (unsigned value)) }
{
    if bytes.is_empty() || bytes.len() > MAX_SHORT {
        return None;
    }
    let mut value: u64 = 0;
    for byte in bytes {
        if !byte.is_ascii_digit() {
            return None;
        }
        value = value * 10 + u64::from(*byte - b'0');
    }
    Some(value)
}

/// The number of any token, by its sign and its parts.
#[inline(never)]
fn scanned(bytes: &[u8]) -> Option<Number>
    ensures { option_map number_view result ≡ number_of bytes.now }
{
    if has_minus(bytes) {
        negative(&Numeral::scan(&bytes[1..]))
    } else {
        unsigned(&Numeral::scan(bytes))
    }
}

fn has_minus(bytes: &[u8]) -> bool
    ensures value { result ≡ (slice_index bytes.now 0 == 45) }
    ensures len { IsTrue result → 0 < length bytes.now }
{
    !bytes.is_empty() && bytes[0] == b'-'
}

fn unsigned(numeral: &Numeral<'_>) -> Option<Number>
    ensures { option_map number_view result ≡ number_from false numeral.now }
{
    match numeral.to_u64() {
        Some(value) => Some(Number::Unsigned(value)),
        None => nearest(false, numeral),
    }
}

fn negative(numeral: &Numeral<'_>) -> Option<Number>
    ensures { option_map number_view result ≡ number_from true numeral.now }
{
    if let Some(value) = numeral.to_i64(true) {
        if value < 0 {
            return Some(Number::Negative(value));
        }
    }
    nearest(true, numeral)
}

fn nearest(negative: bool, numeral: &Numeral<'_>) -> Option<Number>
    ensures { option_map number_view result ≡ float_of negative numeral.now }
{
    let value = numeral.to_float::<f64>(negative);
    if value.is_finite() {
        Some(Number::Float(value))
    } else {
        None
    }
}
