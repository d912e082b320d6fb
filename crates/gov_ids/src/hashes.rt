// Hashes: their hex digits, read and printed.
ghost use Rattle.std.specs.Prelude.{◌≡◌, ◌≢◌, ◌↔◌, ◌<◌, length, true, Some, IsOk, IsErrOf};
ghost use Rattle.std.specs.List.{AllPass, list_all};
ghost use Rattle.hex.specs.Hex.{hex_digit_value, is_hex_digit};
ghost use Rattle.gov_ids.specs.Spelling.{hash_of};

use crate::IdFault;

/// Reads the 56 hex digits, in either case, of a key's, a script's or a pool's hash. (Own)
pub fn hash28(text: &str) -> Result<[u8; 28], IdFault>
    ensures value { result ≡ hash_of 28 text.now }
    ensures ok { IsOk result ↔ ((length text.now ≡ 56) × AllPass is_hex_digit text.now) }
    ensures bad_length { IsErrOf result IdFault.BadLength ↔ (length text.now ≢ 56) }
    ensures bad_hex { IsErrOf result IdFault.BadHex
        ↔ ((length text.now ≡ 56) × ¬ (AllPass is_hex_digit text.now)) }
{
    read_hash::<28>(text.as_bytes())
}

/// Reads the 64 hex digits, in either case, of a transaction's or a document's hash. (Own)
pub fn hash32(text: &str) -> Result<[u8; 32], IdFault>
    ensures value { result ≡ hash_of 32 text.now }
    ensures ok { IsOk result ↔ ((length text.now ≡ 64) × AllPass is_hex_digit text.now) }
    ensures bad_length { IsErrOf result IdFault.BadLength ↔ (length text.now ≢ 64) }
    ensures bad_hex { IsErrOf result IdFault.BadHex
        ↔ ((length text.now ≡ 64) × ¬ (AllPass is_hex_digit text.now)) }
{
    read_hash::<32>(text.as_bytes())
}

// The `N` bytes of the digits. No branch depends on a digit: a processor cannot predict them.
pub fn read_hash<const N: usize>(digits: &[u8]) -> Result<[u8; N], IdFault>
    ensures { result ≡ hash_of N digits.now }
{
    if digits.len() % 2 != 0 || digits.len() / 2 != N {
        return Err(IdFault::BadLength);
    }
    if !are_digits(digits) {
        return Err(IdFault::BadHex);
    }
    let mut hash = [0; N];
    'bytes: for i in 0..N {
        hash[i] = value(digits[2 * i]) * 16 + value(digits[2 * i + 1]);
    }
    Ok(hash)
}

// Whether all are hex digits, in either case.
fn are_digits(digits: &[u8]) -> bool
    ensures { result ≡ list_all is_hex_digit digits.now }
{
    let mut are = true;
    for digit in digits {
        are &= digit.is_ascii_hexdigit();
    }
    are
}

// The value of a hex digit.
fn value(digit: u8) -> u8
    requires { is_hex_digit digit ≡ true }
    ensures digit { hex_digit_value digit ≡ Some result }
    ensures fits { result < 16 }
{
    digit % 16 + 9 * (digit / 64)
}
