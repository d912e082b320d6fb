// The order of hashes by their bytes. Eight bytes are compared at a time, as a number.
ghost use Rattle.std.specs.Prelude.{◌≡◌, ◌+◌, ◌≤◌, length};
ghost use Rattle.std.specs.Cmp.Lexicographic.{slice_cmp};
ghost use Rattle.std.specs.Ordering.{nat_cmp};
ghost use Rattle.gov_ids.specs.Words.{number_at};

use std::cmp::Ordering;

/// The order of two hashes of 32 bytes.
pub fn order32(a: &[u8; 32], b: &[u8; 32]) -> Ordering
    ensures { result ≡ slice_cmp nat_cmp a.now b.now }
{
    let (x, y) = (word(a, 0), word(b, 0));
    if x != y {
        return x.cmp(&y);
    }
    let (x, y) = (word(a, 8), word(b, 8));
    if x != y {
        return x.cmp(&y);
    }
    let (x, y) = (word(a, 16), word(b, 16));
    if x != y {
        return x.cmp(&y);
    }
    word(a, 24).cmp(&word(b, 24))
}

/// The order of two hashes of 28 bytes.
pub fn order28(a: &[u8; 28], b: &[u8; 28]) -> Ordering
    ensures { result ≡ slice_cmp nat_cmp a.now b.now }
{
    let (x, y) = (word(a, 0), word(b, 0));
    if x != y {
        return x.cmp(&y);
    }
    let (x, y) = (word(a, 8), word(b, 8));
    if x != y {
        return x.cmp(&y);
    }
    let (x, y) = (word(a, 16), word(b, 16));
    if x != y {
        return x.cmp(&y);
    }
    half_word(a, 24).cmp(&half_word(b, 24))
}

/// The eight bytes from index `at` on, as a number.
fn word(bytes: &[u8], at: usize) -> u64
    requires { at + 8 ≤ length bytes.now }
    ensures { result ≡ number_at 8 at bytes.now }
{
    u64::from_be_bytes([
        bytes[at],
        bytes[at + 1],
        bytes[at + 2],
        bytes[at + 3],
        bytes[at + 4],
        bytes[at + 5],
        bytes[at + 6],
        bytes[at + 7],
    ])
}

/// The four bytes from index `at` on, as a number.
fn half_word(bytes: &[u8], at: usize) -> u32
    requires { at + 4 ≤ length bytes.now }
    ensures { result ≡ number_at 4 at bytes.now }
{
    u32::from_be_bytes([bytes[at], bytes[at + 1], bytes[at + 2], bytes[at + 3]])
}
