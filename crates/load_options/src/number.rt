ghost use Rattle.std.specs.Prelude.{◌≡◌};
ghost use Rattle.std.specs.Char.{is_ascii_digit};
ghost use Rattle.std.specs.List.{list_all};
ghost use Rattle.load_options.specs.Numbers as numbers;

/// The greatest number of digits.
const MOST_DIGITS: usize = 20;

/// Whether these are decimal digits.
fn are_digits(bytes: &[u8]) -> bool
    ensures { result ≡ list_all is_ascii_digit bytes.now }
{
    bytes.iter().all(|byte| byte.is_ascii_digit())
}

/// The number, if it is from `low` to `high`.
fn within(number: u64, low: u64, high: u64) -> Option<u64>
    ensures { result ≡ numbers.within low high number }
{
    if low <= number && number <= high {
        Some(number)
    } else {
        None
    }
}

/// The number of a text of 1 to 20 decimal digits, if it is from `low` to `high`.
pub(crate) fn number_in(text: &str, low: u64, high: u64) -> Option<u64>
    ensures { result ≡ numbers.number_in low high text.now }
{
    if text.len() > MOST_DIGITS || !are_digits(text.as_bytes()) {
        return None;
    }
    within(text.parse::<u64>().ok()?, low, high)
}
