//! A line of what is frozen that a print of a state does not have.
ghost use Rattle.std.specs.Prelude.{◌≡◌, ◌++◌, OnOk};
ghost use Rattle.certificate_model.specs.Certificate.{mark_words};
ghost use Rattle.frozen_print.specs.Frozen.{frozen_words};
ghost use Rattle.frozen_print.specs.Words.{account_text_of, pool_words, words_of_epoch};
ghost use Rattle.report.specs.WordTexts.{word_text};
ghost use Rattle.text_forms.specs.Snapshots.{expiry_words};
ghost use Rattle.text_model.specs.Words.{line_of};

use gov_ids::{Account, Credential, PoolId};
use no_memory::NoMemory;
use report::{Printed, Word, push_line};
use snapshots::FrozenPool;

/// Such a line, as what it is printed from.
#[derive(Drop)]
pub(crate) enum FrozenLine<'a> {
    /// The epoch that ends, and its version and treasury at its beginning.
    Epoch(u64, (u32, u32), u64),
    /// A DRep with its expiry.
    Drep(&'a (Credential, u64)),
    /// A pool of mark with its reward account.
    Pool(&'a FrozenPool),
    /// The stake of a pool of mark, in lovelace.
    Mark(&'a (PoolId, u64)),
}

// The reward account of a pool, or none.
fn account_word(account: &Option<Account>) -> Word<'_>
    ensures { word_text result ≡ account_text_of account.now }
{
    match account {
        None => Word::Text("none"),
        Some(account) => Word::Account(account),
    }
}

// Appends the line of the epoch that ends.
fn push_epoch(
    out: &mut Vec<u8>,
    line: u64,
    epoch: u64,
    version: (u32, u32),
    treasury: u64,
) -> Result<(), NoMemory>
    ensures { OnOk result (out.new.items ≡ out.old.items ++ line_of line (words_of_epoch epoch version treasury)) }
{
    push_line(
        out,
        line,
        &[
            Word::Text("certificate"),
            Word::Text("epoch"),
            Word::Number(epoch),
            Word::Text("version"),
            Word::Version(version.0, version.1),
            Word::Text("treasury"),
            Word::Number(treasury),
        ],
    )
}

// Appends the line of a DRep.
fn push_drep<'a>(out: &mut Vec<u8>, line: u64, drep: &'a (Credential, u64)) -> Result<(), NoMemory>
    ensures { OnOk result (out.new.items ≡ out.old.items ++ line_of line (expiry_words drep.now)) }
{
    push_line(
        out,
        line,
        &[
            Word::Text("drep"),
            Word::Credential(&drep.0),
            Word::Text("expiry"),
            Word::Number(drep.1),
        ],
    )
}

// Appends the line of a pool.
fn push_pool<'a>(out: &mut Vec<u8>, line: u64, pool: &'a FrozenPool) -> Result<(), NoMemory>
    ensures { OnOk result (out.new.items ≡ out.old.items ++ line_of line (pool_words pool.now)) }
{
    push_line(
        out,
        line,
        &[
            Word::Text("pool"),
            Word::Pool(&pool.pool),
            Word::Text("account"),
            account_word(&pool.account),
        ],
    )
}

// Appends the line of the stake of a pool.
fn push_mark<'a>(out: &mut Vec<u8>, line: u64, stake: &'a (PoolId, u64)) -> Result<(), NoMemory>
    ensures { OnOk result (out.new.items ≡ out.old.items ++ line_of line (mark_words stake.now)) }
{
    push_line(
        out,
        line,
        &[
            Word::Text("mark"),
            Word::Pool(&stake.0),
            Word::Number(stake.1),
        ],
    )
}

// Appends any of these lines.
fn push_frozen(out: &mut Vec<u8>, line: u64, shown: &FrozenLine<'_>) -> Result<(), NoMemory>
    ensures { OnOk result (out.new.items ≡ out.old.items ++ line_of line (frozen_words shown.now)) }
{
    match shown {
        FrozenLine::Epoch(epoch, version, treasury) => {
            push_epoch(out, line, *epoch, *version, *treasury)
        }
        FrozenLine::Drep(drep) => push_drep(out, line, drep),
        FrozenLine::Pool(pool) => push_pool(out, line, pool),
        FrozenLine::Mark(stake) => push_mark(out, line, stake),
    }
}

impl Printed for FrozenLine<'_> {
    ghost use Rattle.frozen_print.specs.Frozen.{frozen_words};

    ghost words = { frozen_words };

    fn push_line(&self, out: &mut Vec<u8>, line: u64) -> Result<(), NoMemory> {
        push_frozen(out, line, self)
    }
}
