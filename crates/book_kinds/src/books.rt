//! Used ids, DReps, accounts and rewards.
ghost use Rattle.std.specs.Prelude.{◌≡◌, map};
ghost use Rattle.book_kinds.specs.Books.{registered_in, registration_in};

use crate::words::{read_drep_or_none, read_pool_or_none, read_tx_id};
use book_records::{DrepState, Entry, Registered};
use gov_ids::{Credential, TxId, read_credential};
use line_kinds::{LineKind, read_number, word};
use no_memory::NoMemory;
use report::{Word, push_line};
use state_lines::{push_account_line, push_drep_line, push_pending_reward_line};

/// The lines of used ids. (Own)
pub struct UsedLines;

impl LineKind for UsedLines {
    type Item = TxId;

    ghost use Rattle.checkpoint_model.specs.Checkpoint.{used_words};
    ghost use Rattle.text_forms.specs.Ids.{is_tx_id};
    ghost use Rattle.book_kinds.specs.Books.{used_in};

    ghost words = { used_words };

    ghost form = { is_tx_id };

    ghost reading = { used_in };

    fn laws() {}

    fn read(texts: &[&str]) -> Option<TxId> {
        read_tx_id(word(texts, 1))
    }

    fn push(id: &TxId, out: &mut Vec<u8>) -> Result<(), NoMemory> {
        push_line(out, 0, &[Word::Text("used"), Word::Hash(&id.0)])
    }
}

/// The lines of DReps. (Own)
pub struct DrepLines;

impl LineKind for DrepLines {
    type Item = (Credential, DrepState);

    ghost use Rattle.text_forms.specs.Books.{is_drep};
    ghost use Rattle.text_model.specs.StateLines.{drep_words};
    ghost use Rattle.book_kinds.specs.Books.{drep_in};

    ghost words = { drep_words };

    ghost form = { is_drep };

    ghost reading = { drep_in };

    fn laws() {}

    fn read(texts: &[&str]) -> Option<(Credential, DrepState)> {
        let credential = read_credential(word(texts, 1))?;
        let deposit = read_number(word(texts, 3))?;
        let expiry = read_number(word(texts, 5))?;
        Some((credential, DrepState { deposit, expiry }))
    }

    fn push(drep: &(Credential, DrepState), out: &mut Vec<u8>) -> Result<(), NoMemory> {
        push_drep_line(out, 0, &drep.0, &drep.1)
    }
}

/// The lines of pending rewards. (Own)
pub struct RewardLines;

impl LineKind for RewardLines {
    type Item = (Credential, u64);

    ghost use Rattle.text_forms.specs.Books.{is_amount};
    ghost use Rattle.text_model.specs.StateLines.{pending_reward_words};
    ghost use Rattle.book_kinds.specs.Books.{reward_in};

    ghost words = { pending_reward_words };

    ghost form = { is_amount };

    ghost reading = { reward_in };

    fn laws() {}

    fn read(texts: &[&str]) -> Option<(Credential, u64)> {
        let credential = read_credential(word(texts, 2))?;
        let reward = read_number(word(texts, 3))?;
        Some((credential, reward))
    }

    fn push(reward: &(Credential, u64), out: &mut Vec<u8>) -> Result<(), NoMemory> {
        push_pending_reward_line(out, 0, reward)
    }
}

/// Reads a registration.
fn read_registered(texts: &[&str]) -> Option<Registered>
    ensures { result ≡ registered_in (map (λ w. w.now) texts.now) }
{
    let deposit = read_number(word(texts, 5))?;
    let rewards = read_number(word(texts, 7))?;
    let pool = read_pool_or_none(word(texts, 9))?;
    let drep = read_drep_or_none(word(texts, 11))?;
    Some(Registered {
        deposit,
        rewards,
        pool,
        drep,
    })
}

/// Reads a registration, or that there is none.
fn read_registration(texts: &[&str]) -> Option<Option<Registered>>
    ensures { result ≡ registration_in (map (λ w. w.now) texts.now) }
{
    match word(texts, 4) {
        "unregistered" => Some(None),
        _ => Some(Some(read_registered(texts)?)),
    }
}

/// The lines of credentials that hold stake or are registered. (Own)
pub struct AccountLines;

impl LineKind for AccountLines {
    type Item = (Credential, Entry);

    ghost use Rattle.text_forms.specs.Books.{is_entry};
    ghost use Rattle.text_model.specs.StateLines.{account_words};
    ghost use Rattle.book_kinds.specs.Books.{account_in};

    ghost words = { account_words };

    ghost form = { is_entry };

    ghost reading = { account_in };

    fn laws() {}

    fn read(texts: &[&str]) -> Option<(Credential, Entry)> {
        let credential = read_credential(word(texts, 1))?;
        let stake = read_number(word(texts, 3))?;
        let registered = read_registration(texts)?;
        Some((credential, Entry { stake, registered }))
    }

    fn push(account: &(Credential, Entry), out: &mut Vec<u8>) -> Result<(), NoMemory> {
        push_account_line(out, 0, &account.0, &account.1)
    }
}
