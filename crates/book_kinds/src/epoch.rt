//! What an epoch froze of DReps, of the accounts of pools, and of proposals.
ghost use Rattle.std.specs.Prelude.{◌≡◌};
ghost use Rattle.gov_ids.specs.Spelling.{account_of, account_text};
ghost use Rattle.text_model.specs.Words.{or_none};
ghost use Rattle.report.specs.WordTexts.{word_text};
ghost use Rattle.book_kinds.specs.Words.{or_none_of};

use gov_ids::{
    Account, ActionId, Credential, PoolId, read_account, read_action_id, read_credential, read_pool,
};
use line_kinds::{LineKind, read_number, word};
use no_memory::NoMemory;
use report::{Word, push_line};

/// The lines of DReps with their expiries. (Own)
pub struct ExpiryLines;

impl LineKind for ExpiryLines {
    type Item = (Credential, u64);

    ghost use Rattle.text_forms.specs.Books.{is_frozen_drep};
    ghost use Rattle.text_forms.specs.Snapshots.{expiry_words};
    ghost use Rattle.book_kinds.specs.Frozen.{expiry_in};

    ghost words = { expiry_words };

    ghost form = { is_frozen_drep };

    ghost reading = { expiry_in };

    fn laws() {}

    fn read(texts: &[&str]) -> Option<(Credential, u64)> {
        let credential = read_credential(word(texts, 1))?;
        let expiry = read_number(word(texts, 3))?;
        Some((credential, expiry))
    }

    fn push(drep: &(Credential, u64), out: &mut Vec<u8>) -> Result<(), NoMemory> {
        push_line(
            out,
            0,
            &[
                Word::Text("drep"),
                Word::Credential(&drep.0),
                Word::Text("expiry"),
                Word::Number(drep.1),
            ],
        )
    }
}

/// Reads an account, or `none`.
fn read_account_or_none(text: &str) -> Option<Option<Account>>
    ensures { result ≡ or_none_of account_of text.now }
{
    match text {
        "none" => Some(None),
        _ => Some(Some(read_account(text)?)),
    }
}

/// An account, or none.
fn account_word(account: &Option<Account>) -> Word<'_>
    ensures { word_text result ≡ or_none account_text account.now }
{
    match account {
        None => Word::Text("none"),
        Some(account) => Word::Account(account),
    }
}

/// The lines of pools with their reward accounts, none where a pool had left. (Own)
pub struct PoolAccountLines;

impl LineKind for PoolAccountLines {
    type Item = (PoolId, Option<Account>);

    ghost use Rattle.book_kinds.specs.Frozen.{is_pool_account_line, pool_account_in, pool_account_line};

    ghost words = { pool_account_line };

    ghost form = { is_pool_account_line };

    ghost reading = { pool_account_in };

    fn laws() {}

    fn read(texts: &[&str]) -> Option<(PoolId, Option<Account>)> {
        let pool = read_pool(word(texts, 1))?;
        let account = read_account_or_none(word(texts, 3))?;
        Some((pool, account))
    }

    fn push(pool: &(PoolId, Option<Account>), out: &mut Vec<u8>) -> Result<(), NoMemory> {
        push_line(
            out,
            0,
            &[
                Word::Text("pool"),
                Word::Pool(&pool.0),
                Word::Text("account"),
                account_word(&pool.1),
            ],
        )
    }
}

/// The lines of ids of proposals. (Own)
pub struct ProposalIdLines;

impl LineKind for ProposalIdLines {
    type Item = ActionId;

    ghost use Rattle.text_forms.specs.Ids.{is_action_id};
    ghost use Rattle.book_kinds.specs.Frozen.{proposal_id_in, proposal_id_line};

    ghost words = { proposal_id_line };

    ghost form = { is_action_id };

    ghost reading = { proposal_id_in };

    fn laws() {}

    fn read(texts: &[&str]) -> Option<ActionId> {
        read_action_id(word(texts, 1))
    }

    fn push(id: &ActionId, out: &mut Vec<u8>) -> Result<(), NoMemory> {
        push_line(out, 0, &[Word::Text("proposal"), Word::Action(id)])
    }
}
