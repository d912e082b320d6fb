//! A line of a state, of any kind.
ghost use Rattle.std.specs.Prelude.{◌≡◌, ◌++◌, OnOk};
ghost use Rattle.text_model.specs.Words.{line_of};
ghost use Rattle.state_lines.specs.StateTexts.{state_words};

use crate::actions::{
    Proposed, SnapshotName, push_none_pending_line, push_noted_fees_line, push_pending_line,
    push_pending_reward_line, push_proposal_line, push_snapshot_line, push_vote_line,
};
use crate::books::{
    push_account_line, push_asset_line, push_drep_line, push_next_line, push_output_line,
    push_pool_line,
};
use crate::states::{
    push_committee_line, push_constitution_line, push_enacted_line, push_hot_line,
    push_member_line, push_now_line,
};
use book_records::{DrepState, Entry, Output, Pool, PoolTerms};
use coin_frac::NoMemory;
use gov_actions::{Committee, HotState, LastIds, Vote};
use gov_ids::{ActionId, AssetId, Credential, OutRef, PoolId, Voter};
use report::Printed;
use tx_records::Rewards;

/// A line of a state except that of a parameter, as what it is printed from. (Own)
#[derive(Drop)]
pub enum StateLine<'a> {
    /// The slot, its epoch, the protocol version, and the dormant count.
    Now(u64, u64, (u32, u32), u64),
    /// The constitution's document and script.
    Constitution(&'a [u8; 32], &'a Option<[u8; 28]>),
    /// The committee's threshold, or that there is no committee.
    Committee(&'a Option<Committee>),
    /// A cold key with its term, and what it authorized.
    Member(&'a (Credential, u64), &'a Option<HotState>),
    /// A cold key that is no member's, and what it authorized.
    Hot(&'a Credential, &'a HotState),
    /// The last enacted ids.
    Enacted(&'a LastIds),
    /// A DRep.
    Drep(&'a Credential, &'a DrepState),
    /// A pool, except its future terms.
    Pool(&'a PoolId, &'a Pool),
    /// A pool's future terms.
    NextTerms(&'a PoolId, &'a PoolTerms),
    /// A credential that holds stake or is registered.
    Account(&'a Credential, &'a Entry),
    /// An unspent output, except its assets.
    Output(&'a OutRef, &'a Output),
    /// An asset of an output.
    Asset(&'a (AssetId, u64)),
    /// A proposal, except its votes.
    Proposal(Proposed<'a>),
    /// A vote on the action of an id.
    Vote(&'a ActionId, &'a (Voter, Vote)),
    /// A pool's stake at one of the last three boundaries, in lovelace.
    Snapshot(SnapshotName, &'a (PoolId, u64)),
    /// The fee pot at the last boundary, in lovelace.
    NotedFees(u64),
    /// The pending reward update, except its rewards.
    Pending(&'a Rewards),
    /// That no reward update is pending.
    NonePending,
    /// A pending reward, in lovelace.
    PendingReward(&'a (Credential, u64)),
}

/// Appends a line of a state.
fn push_state_line(out: &mut Vec<u8>, line: u64, shown: &StateLine<'_>) -> Result<(), NoMemory>
    ensures { OnOk result (out.new.items ≡ out.old.items ++ line_of line (state_words shown.now)) }
{
    match shown {
        StateLine::Now(slot, epoch, version, dormant) => {
            push_now_line(out, line, *slot, *epoch, *version, *dormant)
        }
        StateLine::Constitution(document, script) => {
            push_constitution_line(out, line, document, script)
        }
        StateLine::Committee(committee) => push_committee_line(out, line, committee),
        StateLine::Member(member, hot) => push_member_line(out, line, member, hot),
        StateLine::Hot(cold, hot) => push_hot_line(out, line, cold, hot),
        StateLine::Enacted(last) => push_enacted_line(out, line, last),
        StateLine::Drep(credential, drep) => push_drep_line(out, line, credential, drep),
        StateLine::Pool(id, pool) => push_pool_line(out, line, id, pool),
        StateLine::NextTerms(id, terms) => push_next_line(out, line, id, terms),
        StateLine::Account(credential, entry) => push_account_line(out, line, credential, entry),
        StateLine::Output(reference, output) => push_output_line(out, line, reference, output),
        StateLine::Asset(held) => push_asset_line(out, line, held),
        StateLine::Proposal(proposed) => push_proposal_line(out, line, proposed),
        StateLine::Vote(id, cast) => push_vote_line(out, line, id, cast),
        StateLine::Snapshot(name, stake) => push_snapshot_line(out, line, *name, stake),
        StateLine::NotedFees(fees) => push_noted_fees_line(out, line, *fees),
        StateLine::Pending(update) => push_pending_line(out, line, update),
        StateLine::NonePending => push_none_pending_line(out, line),
        StateLine::PendingReward(reward) => push_pending_reward_line(out, line, reward),
    }
}

impl Printed for StateLine<'_> {
    ghost use Rattle.state_lines.specs.StateTexts.{state_words};

    ghost words = { state_words };

    fn push_line(&self, out: &mut Vec<u8>, line: u64) -> Result<(), NoMemory> {
        push_state_line(out, line, self)
    }
}
