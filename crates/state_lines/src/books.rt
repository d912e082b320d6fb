//! The lines of the books of a state: DReps, pools, accounts, and outputs with their assets.
ghost use Rattle.std.specs.Prelude.{◌≡◌, ◌++◌, Some, OnOk};
ghost use Rattle.gov_ids.specs.Spelling.{drep_text, pool_text};
ghost use Rattle.text_model.specs.StateLines.{account_words, asset_words, drep_words, key_words, next_words, output_words, pool_words, registration_words, retires_text, terms_words};
ghost use Rattle.text_model.specs.Words.{line_of, or_none, spaced};
ghost use Rattle.report.specs.WordTexts.{word_text};

use book_records::{DrepState, Entry, Output, Pool, PoolTerms, Registered};
use coin_frac::NoMemory;
use gov_ids::{AssetId, Credential, Drep, OutRef, PoolId};
use report::{Word, end_line, push_digits, push_line, push_parts};

/// A pool, or none.
fn pool_word(pool: &Option<PoolId>) -> Word<'_>
    ensures { word_text result ≡ or_none pool_text pool.now }
{
    match pool {
        None => Word::Text("none"),
        Some(pool) => Word::Pool(pool),
    }
}

/// What a vote is delegated to, or none.
fn drep_word(drep: &Option<Drep>) -> Word<'_>
    ensures { word_text result ≡ or_none drep_text drep.now }
{
    match drep {
        None => Word::Text("none"),
        Some(drep) => Word::Drep(drep),
    }
}

/// When a pool retires.
fn retires_word(retires: &Option<u64>) -> Word<'_>
    ensures { word_text result ≡ retires_text retires.now }
{
    match retires {
        None => Word::Text("never"),
        Some(epoch) => Word::Number(*epoch),
    }
}

/// Appends the line of a DRep. After an out-of-memory error the buffer may hold anything. (Own)
pub fn push_drep_line(
    out: &mut Vec<u8>,
    line: u64,
    credential: &Credential,
    drep: &DrepState,
) -> Result<(), NoMemory>
    ensures { OnOk result (out.new.items ≡ out.old.items ++ line_of line (drep_words (credential.now, drep.now))) }
{
    push_line(
        out,
        line,
        &[
            Word::Text("drep"),
            Word::Credential(credential),
            Word::Text("deposit"),
            Word::Number(drep.deposit),
            Word::Text("expiry"),
            Word::Number(drep.expiry),
        ],
    )
}

/// Adds a pool's terms.
fn push_terms(out: &mut Vec<u8>, terms: &PoolTerms) -> Result<(), NoMemory>
    ensures { OnOk result (out.new.items ≡ out.old.items ++ spaced (terms_words terms.now)) }
{
    push_parts(
        out,
        &[
            Word::Text("cost"),
            Word::Number(terms.cost),
            Word::Text("pledge"),
            Word::Number(terms.pledge),
            Word::Text("margin"),
            Word::Fraction(terms.margin.num(), terms.margin.den()),
            Word::Text("account"),
            Word::Account(&terms.account),
        ],
    )
}

/// Adds the key of a pool, where its terms state one.
fn push_key(out: &mut Vec<u8>, key: &Option<[u8; 32]>) -> Result<(), NoMemory>
    ensures { OnOk result (out.new.items ≡ out.old.items ++ spaced (key_words key.now)) }
{
    match key {
        None => Ok(()),
        Some(key) => push_parts(out, &[Word::Text("key"), Word::Hash(key)]),
    }
}

/// Adds a pool.
fn push_pool<'a>(out: &mut Vec<u8>, id: &'a PoolId, pool: &'a Pool) -> Result<(), NoMemory>
    ensures { OnOk result (out.new.items ≡ out.old.items ++ spaced (pool_words id.now pool.now)) }
{
    push_parts(
        out,
        &[
            Word::Text("pool"),
            Word::Pool(id),
            Word::Text("deposit"),
            Word::Number(pool.deposit),
        ],
    )?;
    push_terms(out, &pool.terms)?;
    push_parts(out, &[Word::Text("retires"), retires_word(&pool.retires)])?;
    push_key(out, &pool.terms.key)
}

/// Appends the line of a pool. After an out-of-memory error the buffer may hold anything. (Own)
pub fn push_pool_line(
    out: &mut Vec<u8>,
    line: u64,
    id: &PoolId,
    pool: &Pool,
) -> Result<(), NoMemory>
    ensures { OnOk result (out.new.items ≡ out.old.items ++ line_of line (pool_words id.now pool.now)) }
{
    push_digits(out, line)?;
    push_pool(out, id, pool)?;
    end_line(out)
}

/// Appends the line of a pool's future terms. (Own)
/// After an out-of-memory error the buffer may hold anything.
pub fn push_next_line(
    out: &mut Vec<u8>,
    line: u64,
    id: &PoolId,
    terms: &PoolTerms,
) -> Result<(), NoMemory>
    ensures { OnOk result (out.new.items ≡ out.old.items ++ line_of line (next_words id.now terms.now)) }
{
    push_digits(out, line)?;
    push_next(out, id, terms)?;
    end_line(out)
}

/// Adds a pool's future terms.
fn push_next(out: &mut Vec<u8>, id: &PoolId, terms: &PoolTerms) -> Result<(), NoMemory>
    ensures { OnOk result (out.new.items ≡ out.old.items ++ spaced (next_words id.now terms.now)) }
{
    push_parts(out, &[Word::Text("next"), Word::Pool(id)])?;
    push_terms(out, terms)?;
    push_key(out, &terms.key)
}

/// Adds the registration of an account.
fn push_registered(out: &mut Vec<u8>, registered: &Registered) -> Result<(), NoMemory>
    ensures { OnOk result (out.new.items ≡ out.old.items ++ spaced (registration_words (Some registered.now))) }
{
    push_parts(
        out,
        &[
            Word::Text("deposit"),
            Word::Number(registered.deposit),
            Word::Text("rewards"),
            Word::Number(registered.rewards),
            Word::Text("pool"),
            pool_word(&registered.pool),
            Word::Text("drep"),
            drep_word(&registered.drep),
        ],
    )
}

/// Adds the registration of a credential, or that there is none.
fn push_registration(out: &mut Vec<u8>, registered: &Option<Registered>) -> Result<(), NoMemory>
    ensures { OnOk result (out.new.items ≡ out.old.items ++ spaced (registration_words registered.now)) }
{
    match registered {
        None => push_parts(out, &[Word::Text("unregistered")]),
        Some(registered) => push_registered(out, registered),
    }
}

/// Adds a credential that holds stake or is registered.
fn push_account(out: &mut Vec<u8>, credential: &Credential, entry: &Entry) -> Result<(), NoMemory>
    ensures { OnOk result (out.new.items ≡ out.old.items ++ spaced (account_words (credential.now, entry.now))) }
{
    push_parts(
        out,
        &[
            Word::Text("account"),
            Word::Credential(credential),
            Word::Text("stake"),
            Word::Number(entry.stake),
        ],
    )?;
    push_registration(out, &entry.registered)
}

/// Appends the line of a credential that holds stake or is registered. (Own)
/// After an out-of-memory error the buffer may hold anything.
pub fn push_account_line(
    out: &mut Vec<u8>,
    line: u64,
    credential: &Credential,
    entry: &Entry,
) -> Result<(), NoMemory>
    ensures { OnOk result (out.new.items ≡ out.old.items ++ line_of line (account_words (credential.now, entry.now))) }
{
    push_digits(out, line)?;
    push_account(out, credential, entry)?;
    end_line(out)
}

/// Appends the line of an unspent output. (Own)
/// After an out-of-memory error the buffer may hold anything.
pub fn push_output_line<'a>(
    out: &mut Vec<u8>,
    line: u64,
    reference: &'a OutRef,
    output: &'a Output,
) -> Result<(), NoMemory>
    ensures { OnOk result (out.new.items ≡ out.old.items ++ line_of line (output_words (reference.now, output.now))) }
{
    push_line(
        out,
        line,
        &[
            Word::Text("output"),
            Word::Output(reference),
            Word::Address(&output.address),
            Word::Number(output.lovelace),
        ],
    )
}

/// Appends the line of an asset of an output. (Own)
/// After an out-of-memory error the buffer may hold anything.
pub fn push_asset_line(out: &mut Vec<u8>, line: u64, held: &(AssetId, u64)) -> Result<(), NoMemory>
    ensures { OnOk result (out.new.items ≡ out.old.items ++ line_of line (asset_words held.now)) }
{
    push_line(
        out,
        line,
        &[
            Word::Text("asset"),
            Word::Script(&held.0.policy),
            Word::AssetName(&held.0.name),
            Word::Number(held.1),
        ],
    )
}
