// Whether the parts of a record are within the limits of the formats.
// Some limits hold by a type: the bits of a number, and that a threshold is from 0 to 1.
// The code only reads such numbers.
ghost use Rattle.std.specs.Prelude.{◌≡◌, IfOk, ◌&&◌};
ghost use Rattle.std.specs.List.{list_all};
ghost use Rattle.tx_records.specs.declared.tx.ProposalRecord.{ProposalRecord};
ghost use Rattle.gov_ids.specs.of_maps.Words.{none_or};
ghost use Rattle.tx_records.specs.Limits.{are_assets, are_params, is_action, is_mint, is_at_most, is_network, is_output, is_share, is_slot, is_u32, is_u64, is_update};

use crate::limits::{LIST_LIMIT, NETWORK_LIMIT, SLOT_LIMIT};
use crate::tx::{ProposalRecord, TxOutput};
use assets::of_listed::Listed;
use assets::{Assets, Mint};
use gov_actions::Action;
use gov_actions::of_coin_frac::{NoMemory, Unit};
use gov_actions::of_credential_list::CredentialList;
use gov_actions::of_pparams::{Params, Update};
use gov_ids::{Account, Credential, repeats_a_name};
use out_refs::OutRefs;
use std::alloc::Global;

/// Whether a list has at most `limit` entries.
pub fn is_at_most<T>(limit: u32, entries: &Listed<T>) -> bool
    ensures { result ≡ is_at_most limit entries.now }
{
    entries.len() as u64 <= u64::from(limit)
}

/// Whether a list of references has at most `limit` entries.
pub fn are_at_most(limit: u32, refs: &OutRefs) -> bool
    ensures { result ≡ is_at_most limit refs.now }
{
    refs.len() as u64 <= u64::from(limit)
}

// Whether a list of credentials has at most `limit` entries.
fn are_keys_at_most(limit: u32, keys: &CredentialList) -> bool
    ensures { result ≡ is_at_most limit keys.now }
{
    keys.len() as u64 <= u64::from(limit)
}

/// Whether a number may be a slot, a term or an expiry.
pub fn is_slot(number: u64) -> bool
    ensures { result ≡ is_slot number }
{
    number < SLOT_LIMIT
}

/// Whether it is absent, or may be a slot, a term or an expiry.
pub fn is_optional_slot(number: Option<u64>) -> bool
    ensures { result ≡ none_or is_slot number }
{
    match number {
        Some(number) => is_slot(number),
        None => true,
    }
}

/// Whether it is a network.
pub fn is_network(network: u8) -> bool
    ensures { result ≡ is_network network }
{
    network < NETWORK_LIMIT
}

// Whether each is a fraction from 0 to 1, as its type says.
fn are_shares(shares: &[Unit]) -> bool
    ensures { result ≡ list_all is_share shares.now }
{
    shares
        .iter()
        .all(|share| 0 < share.den() && share.num() <= share.den())
}

// Whether they are absent, or fractions from 0 to 1, as their type says.
fn are_optional_shares<const N: usize>(shares: &Option<[Unit; N]>) -> bool
    ensures { result ≡ none_or (list_all is_share) shares.now }
{
    match shares {
        Some(shares) => are_shares(shares),
        None => true,
    }
}

/// Whether parameters are within the limits.
pub fn are_params(params: &Params) -> bool
    ensures { result ≡ are_params params.now }
{
    let _activity = params.drep_activity;
    let _lifetime = params.gov_action_lifetime;
    are_shares(&params.pool_voting_thresholds) && are_shares(&params.drep_voting_thresholds)
}

// Whether a number is absent, or has 32 bits, as its type says.
fn is_optional_u32(number: Option<u32>) -> bool
    ensures { result ≡ none_or is_u32 number }
{
    match number {
        Some(number) => u64::from(number) < 1 << 32,
        None => true,
    }
}

// Whether an update is within the limits.
fn is_update(update: &Update) -> bool
    ensures { result ≡ is_update update.now }
{
    are_optional_shares(&update.pool_voting_thresholds)
        && are_optional_shares(&update.drep_voting_thresholds)
        && is_optional_u32(update.drep_activity)
        && is_optional_u32(update.gov_action_lifetime)
}

// Whether terms of new members are within the limits.
fn are_terms(members: &[(Credential, u64)]) -> bool
    ensures { result ≡ list_all (λ m. is_slot m.1) members.now }
{
    members.iter().all(|(_, term)| is_slot(*term))
}

// Whether an account that gets an amount is within the limits.
fn is_target(target: &(Account, u64)) -> bool
    ensures { result ≡ (is_network target.now.0.network && is_u64 target.now.1) }
{
    let (account, _amount) = *target;
    is_network(account.network)
}

// Whether accounts that get amounts are within the limits.
fn are_targets(targets: &[(Account, u64)]) -> bool
    ensures { result ≡ list_all (λ t. is_network t.0.network && is_u64 t.1) targets.now }
{
    targets.iter().all(|target| is_target(target))
}

// Whether an action is within the limits.
fn is_action(alloc: Global, action: &Action) -> Result<bool, NoMemory>
    ensures { IfOk result (λ within. within ≡ is_action action.now) }
{
    match action {
        Action::UpdateCommittee {
            remove,
            add,
            threshold,
            ..
        } => {
            Ok(
                are_keys_at_most(LIST_LIMIT, remove)
                    && is_at_most(LIST_LIMIT, add)
                    && are_shares(&[*threshold])
                    && are_terms(add.as_slice())
                    && !repeats_a_name(alloc, remove.as_slice())?
                    && !repeats_a_name(alloc, add.as_slice())?,
            )
        }
        Action::ParameterChange { update, .. } => Ok(is_update(update)),
        Action::TreasuryWithdrawals { targets, .. } => {
            Ok(
                is_at_most(LIST_LIMIT, targets)
                    && !repeats_a_name(alloc, targets.as_slice())?
                    && are_targets(targets.as_slice()),
            )
        }
        _ => Ok(true),
    }
}

/// Whether the actions of proposals are within the limits.
pub fn are_actions(alloc: Global, proposals: &[ProposalRecord]) -> Result<bool, NoMemory>
    ensures { IfOk result (λ within. within ≡ list_all (λ (p : ProposalRecord). is_action p.action) proposals.now) }
{
    for proposal in proposals {
        if !is_action(alloc, &proposal.action)? {
            return Ok(false);
        }
    }
    Ok(true)
}

/// Whether an output's assets are within the limits.
/// Their type keeps each once, and its quantity in its range.
pub fn are_assets(assets: &Assets) -> bool
    ensures { result ≡ are_assets assets.now }
{
    assets.as_slice().len() as u64 <= u64::from(LIST_LIMIT)
}

/// Whether what a transaction mints is within the limits.
pub fn is_mint(mint: &Mint) -> bool
    ensures { result ≡ is_mint mint.now }
{
    mint.as_slice().len() as u64 <= u64::from(LIST_LIMIT)
}

// Whether an output is within the limits.
fn is_output(output: &TxOutput) -> bool
    ensures { result ≡ is_output output.now }
{
    let _lovelace = output.lovelace;
    let _bytes = output.bytes;
    is_network(output.address.network) && are_assets(&output.assets)
}

/// Whether outputs are within the limits.
pub fn are_outputs(outputs: &[TxOutput]) -> bool
    ensures { result ≡ list_all is_output outputs.now }
{
    outputs.iter().all(|output| is_output(output))
}

/// Whether an output is absent, or within the limits.
pub fn is_optional_output(output: &Option<TxOutput>) -> bool
    ensures { result ≡ none_or is_output output.now }
{
    match output {
        Some(output) => is_output(output),
        None => true,
    }
}
