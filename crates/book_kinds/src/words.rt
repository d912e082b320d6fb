//! Words of a line.
ghost use Rattle.std.specs.Prelude.{◌≡◌};
ghost use Rattle.gov_ids.specs.Spelling.{drep_of, pool_of};
ghost use Rattle.book_kinds.specs.Words.{hot_state_of, or_none_of, tx_id_of, vote_of};

use gov_actions::{HotState, Vote};
use gov_ids::{Drep, PoolId, TxId, hash32, read_credential, read_drep, read_pool};

/// Reads a transaction.
pub fn read_tx_id(text: &str) -> Option<TxId>
    ensures { result ≡ tx_id_of text.now }
{
    Some(TxId(hash32(text).ok()?))
}

/// Reads a pool, or `none`.
pub fn read_pool_or_none(text: &str) -> Option<Option<PoolId>>
    ensures { result ≡ or_none_of pool_of text.now }
{
    match text {
        "none" => Some(None),
        _ => Some(Some(read_pool(text)?)),
    }
}

/// Reads what a vote is delegated to, or `none`.
pub fn read_drep_or_none(text: &str) -> Option<Option<Drep>>
    ensures { result ≡ or_none_of drep_of text.now }
{
    match text {
        "none" => Some(None),
        _ => Some(Some(read_drep(text)?)),
    }
}

/// Reads a vote.
pub fn read_vote(text: &str) -> Option<Vote>
    ensures { result ≡ vote_of text.now }
{
    match text {
        "yes" => Some(Vote::Yes),
        "no" => Some(Vote::No),
        "abstain" => Some(Vote::Abstain),
        _ => None,
    }
}

/// Reads what a cold key authorized: a hot key, or `resigned`. (Own)
pub fn read_hot_state(text: &str) -> Option<HotState>
    ensures { result ≡ hot_state_of text.now }
{
    match text {
        "resigned" => Some(HotState::Resigned),
        _ => Some(HotState::Hot(read_credential(text)?)),
    }
}
