//! Pools and their future terms.
ghost use Rattle.std.specs.Prelude.{◌≡◌, option_map};
ghost use Rattle.book_kinds.specs.Pools.{halves, key_of, retires_of, terms_of, unit_of};

use book_records::{Pool, PoolTerms};
use coin_frac::Unit;
use gov_ids::{PoolId, hash32, read_account, read_pool};
use line_kinds::{LineKind, read_number, word};
use no_memory::NoMemory;
use state_lines::{push_next_line, push_pool_line};

/// What is before the first slash and after it.
fn cut_in_two(text: &str) -> Option<(&str, &str)>
    ensures { option_map (λ p. (p.0.now, p.1.now)) result ≡ halves 47 text.now }
{
    text.split_once('/')
}

/// Reads a fraction from 0 to 1, as two numbers with a slash between them. (Own)
#[tactic(auto, unfolding(crate::specs::Pools::unit_of))]
pub fn read_unit(text: &str) -> Option<Unit>
    ensures { result ≡ unit_of text.now }
{
    let (num, den) = cut_in_two(text)?;
    let num = read_number(num)?;
    let den = read_number(den)?;
    Unit::new(num, den).ok()
}

/// Reads the hash of a key, or no word.
fn read_key(text: &str) -> Option<Option<[u8; 32]>>
    ensures { result ≡ key_of text.now }
{
    if text.is_empty() {
        Some(None)
    } else {
        Some(Some(hash32(text).ok()?))
    }
}

/// Reads when a pool retires.
fn read_retires(text: &str) -> Option<Option<u64>>
    ensures { result ≡ retires_of text.now }
{
    match text {
        "never" => Some(None),
        _ => Some(Some(read_number(text)?)),
    }
}

/// Reads the terms of a pool.
fn read_terms(cost: &str, pledge: &str, margin: &str, account: &str, key: &str) -> Option<PoolTerms>
    ensures { result ≡ terms_of cost.now pledge.now margin.now account.now key.now }
{
    let cost = read_number(cost)?;
    let pledge = read_number(pledge)?;
    let margin = read_unit(margin)?;
    let account = read_account(account)?;
    let key = read_key(key)?;
    Some(PoolTerms {
        cost,
        pledge,
        margin,
        account,
        key,
    })
}

/// The lines of pools, without future terms. (Own)
pub struct PoolLines;

impl LineKind for PoolLines {
    type Item = (PoolId, Pool);

    ghost use Rattle.book_kinds.specs.Pools.{is_pool_line, pool_in, pool_line};

    ghost words = { pool_line };

    ghost form = { is_pool_line };

    ghost reading = { pool_in };

    fn laws() {}

    fn read(texts: &[&str]) -> Option<(PoolId, Pool)> {
        let id = read_pool(word(texts, 1))?;
        let deposit = read_number(word(texts, 3))?;
        let terms = read_terms(
            word(texts, 5),
            word(texts, 7),
            word(texts, 9),
            word(texts, 11),
            word(texts, 15),
        )?;
        let retires = read_retires(word(texts, 13))?;
        Some((
            id,
            Pool {
                deposit,
                terms,
                future: None,
                retires,
            },
        ))
    }

    fn push(pool: &(PoolId, Pool), out: &mut Vec<u8>) -> Result<(), NoMemory> {
        push_pool_line(out, 0, &pool.0, &pool.1)
    }
}

/// The lines of future terms of pools. (Own)
pub struct NextLines;

impl LineKind for NextLines {
    type Item = (PoolId, PoolTerms);

    ghost use Rattle.book_kinds.specs.Pools.{is_next_line, next_in, next_line};

    ghost words = { next_line };

    ghost form = { is_next_line };

    ghost reading = { next_in };

    fn laws() {}

    fn read(texts: &[&str]) -> Option<(PoolId, PoolTerms)> {
        let id = read_pool(word(texts, 1))?;
        let terms = read_terms(
            word(texts, 3),
            word(texts, 5),
            word(texts, 7),
            word(texts, 9),
            word(texts, 11),
        )?;
        Some((id, terms))
    }

    fn push(next: &(PoolId, PoolTerms), out: &mut Vec<u8>) -> Result<(), NoMemory> {
        push_next_line(out, 0, &next.0, &next.1)
    }
}
