ghost use Rattle.std.specs.Prelude.{◌≡◌, option_map};
ghost use Rattle.json_tree.specs.View.{view};
ghost use Rattle.json_fields.specs.Entries.{maybe_by};
ghost use Rattle.json_fields.specs.Kinds.{hash32_in};
ghost use Rattle.json_fields.specs.Reads.{Reads};
ghost use Rattle.record_read.specs.Entries.{nullable_in};

use crate::quantities::optional_assets;
use action_read::ActionField;
use assets::Assets;
use gov_actions::Vote;
use gov_ids::{Account, ActionId, Address, Credential, Drep, OutRef, PoolId, Voter};
use json_fields::{
    FieldFault, Kind, needed, read_account, read_address, read_credential, read_five, read_hash32,
    read_list, read_number_below, read_pool_id, read_ref, read_six_or_seven, read_text, read_three,
    read_three_or_four, read_u32, read_u64, read_unit,
};
use json_tree::Value;
use listed::Listed;
use std::alloc::Global;
use tx_records::limits::{LEAST_MAJOR, LIST_LIMIT, NETWORK_LIMIT, SLOT_LIMIT};
use tx_records::{GenesisCommittee, GenesisPool, ProposalRecord, Scripts, TxOutput, VoteRecord};

/// A slot, a term or an expiry.
pub struct Slot;

impl Kind for Slot {
    type Entry = u64;

    ghost use Rattle.record_read.specs.Entries.{slot_in};

    ghost reading = { slot_in };

    fn read(_alloc: Global, value: &Value<'_>) -> Result<u64, FieldFault> {
        read_number_below(SLOT_LIMIT, value)
    }
}

/// A network: 0 or 1.
pub struct Network;

impl Kind for Network {
    type Entry = u8;

    ghost use Rattle.record_read.specs.Entries.{network_in};

    ghost reading = { network_in };

    fn read(_alloc: Global, value: &Value<'_>) -> Result<u8, FieldFault> {
        let network = read_number_below(u64::from(NETWORK_LIMIT), value)?;
        Ok(network as u8)
    }
}

/// How many slots an epoch has: at least 1.
pub struct EpochLength;

impl Kind for EpochLength {
    type Entry = u32;

    ghost use Rattle.record_read.specs.Entries.{epoch_length_in};

    ghost reading = { epoch_length_in };

    fn read(_alloc: Global, value: &Value<'_>) -> Result<u32, FieldFault> {
        let slots = read_u32(value)?;
        if slots >= 1 {
            Ok(slots)
        } else {
            Err(FieldFault::OutOfRange)
        }
    }
}

/// A protocol version, major and minor; that of the Conway era is at least 10.
pub struct GenesisVersion;

impl Kind for GenesisVersion {
    type Entry = (u32, u32);

    ghost use Rattle.record_read.specs.Entries.{genesis_version_in};

    ghost reading = { genesis_version_in };

    fn read(alloc: Global, value: &Value<'_>) -> Result<(u32, u32), FieldFault> {
        let version = <(u32, u32)>::read(alloc, value)?;
        if version.0 >= LEAST_MAJOR {
            Ok(version)
        } else {
            Err(FieldFault::OutOfRange)
        }
    }
}

/// How the scripts of a transaction ended.
pub struct ScriptsField;

impl Kind for ScriptsField {
    type Entry = Scripts;

    ghost use Rattle.record_read.specs.Entries.{scripts_in};

    ghost reading = { scripts_in };

    fn read(_alloc: Global, value: &Value<'_>) -> Result<Scripts, FieldFault> {
        match read_text(value) {
            Ok("none") => Ok(Scripts::Absent),
            Ok("ok") => Ok(Scripts::Passed),
            Ok("failed") => Ok(Scripts::Failed),
            Ok(_) => Err(FieldFault::OutOfRange),
            Err(fault) => Err(fault),
        }
    }
}

/// A vote.
pub struct VoteField;

impl Kind for VoteField {
    type Entry = Vote;

    ghost use Rattle.record_read.specs.Entries.{vote_in};

    ghost reading = { vote_in };

    fn read(_alloc: Global, value: &Value<'_>) -> Result<Vote, FieldFault> {
        match read_text(value) {
            Ok("yes") => Ok(Vote::Yes),
            Ok("no") => Ok(Vote::No),
            Ok("abstain") => Ok(Vote::Abstain),
            Ok(_) => Err(FieldFault::OutOfRange),
            Err(fault) => Err(fault),
        }
    }
}

/// An entry that may be null.
fn nullable<K: Kind>(alloc: Global, value: &Value<'_>) -> Result<Option<K::Entry>, FieldFault>
    ensures { Reads result (nullable_in K.reading (view value.now)) }
{
    if value.is_null() {
        return Ok(None);
    }
    Ok(Some(K::read(alloc, value)?))
}

/// A member of a committee: its cold key, its term, its hot key.
pub struct Member;

impl Kind for Member {
    type Entry = (Credential, u64, Option<Credential>);

    ghost use Rattle.record_read.specs.Entries.{member_in};

    ghost reading = { member_in };

    #[tactic(auto, unfolding(crate::specs::Entries::member_in))]
    fn read(
        alloc: Global,
        value: &Value<'_>,
    ) -> Result<(Credential, u64, Option<Credential>), FieldFault> {
        let (cold, term, hot) = read_three(value)?;
        let cold = read_credential(cold)?;
        let term = Slot::read(alloc, term)?;
        let hot = nullable::<Credential>(alloc, hot)?;
        Ok((cold, term, hot))
    }
}

/// The members of a committee.
struct CommitteeMembers;

impl Kind for CommitteeMembers {
    type Entry = Listed<(Credential, u64, Option<Credential>)>;

    ghost use Rattle.json_fields.specs.Entries.{without_place};
    ghost use Rattle.json_fields.specs.Lists.{list_in};
    ghost use Rattle.tx_records.specs.declared.limits.TheConstants.{LIST_LIMIT};
    ghost use Rattle.record_read.specs.Entries.{member_in};

    ghost reading = { λ v. without_place (list_in LIST_LIMIT member_in v) };

    fn read(
        alloc: Global,
        value: &Value<'_>,
    ) -> Result<Listed<(Credential, u64, Option<Credential>)>, FieldFault> {
        match read_list::<Member>(alloc, LIST_LIMIT, value) {
            Ok(members) => Ok(members),
            Err(error) => Err(error.fault),
        }
    }
}

/// A committee.
pub struct Committee;

impl Kind for Committee {
    type Entry = GenesisCommittee;

    ghost use Rattle.record_read.specs.Entries.{committee_in};

    ghost reading = { committee_in };

    #[tactic(auto, unfolding(crate::specs::Entries::committee_in))]
    fn read(alloc: Global, value: &Value<'_>) -> Result<GenesisCommittee, FieldFault> {
        let threshold = needed::<coin_frac::Unit>(alloc, value, "threshold")?;
        let members = needed::<CommitteeMembers>(alloc, value, "members")?;
        Ok(GenesisCommittee { threshold, members })
    }
}

/// An output of a genesis: its reference, address, lovelace, and assets, if it has some.
pub struct GenesisOutput;

impl Kind for GenesisOutput {
    type Entry = (OutRef, Address, u64, Assets);

    ghost use Rattle.record_read.specs.Entries.{genesis_output_in};

    ghost reading = { genesis_output_in };

    #[tactic(auto, unfolding(crate::specs::Entries::genesis_output_in))]
    fn read(
        alloc: Global,
        value: &Value<'_>,
    ) -> Result<(OutRef, Address, u64, Assets), FieldFault> {
        let (at, address, lovelace, assets) = read_three_or_four(value)?;
        let at = read_ref(at)?;
        let address = read_address(address)?;
        let lovelace = read_u64(lovelace)?;
        let assets = optional_assets(alloc, assets)?;
        Ok((at, address, lovelace, assets))
    }
}

/// An account of a genesis: its credential, its deposit, its balance, its pool, its DRep.
pub struct GenesisAccount;

impl Kind for GenesisAccount {
    type Entry = (Credential, u64, u64, Option<PoolId>, Option<Drep>);

    ghost use Rattle.record_read.specs.Entries.{genesis_account_in};

    ghost reading = { genesis_account_in };

    #[tactic(auto, unfolding(crate::specs::Entries::genesis_account_in))]
    fn read(
        alloc: Global,
        value: &Value<'_>,
    ) -> Result<(Credential, u64, u64, Option<PoolId>, Option<Drep>), FieldFault> {
        let (cred, deposit, rewards, pool, drep) = read_five(value)?;
        let cred = read_credential(cred)?;
        let deposit = read_u64(deposit)?;
        let rewards = read_u64(rewards)?;
        let pool = nullable::<PoolId>(alloc, pool)?;
        let drep = nullable::<Drep>(alloc, drep)?;
        Ok((cred, deposit, rewards, pool, drep))
    }
}

/// The key of a pool, if it has one.
fn optional_key(value: Option<&Value<'_>>) -> Result<Option<[u8; 32]>, FieldFault>
    ensures { result ≡ maybe_by hash32_in (option_map (λ v. view v.now) value.entry) }
{
    match value {
        Some(value) => Ok(Some(read_hash32(value)?)),
        None => Ok(None),
    }
}

/// A pool of a genesis: id, deposit, cost, pledge, margin, reward account, and key, if it has one.
pub struct GenesisPoolEntry;

impl Kind for GenesisPoolEntry {
    type Entry = GenesisPool;

    ghost use Rattle.record_read.specs.Entries.{genesis_pool_in};

    ghost reading = { genesis_pool_in };

    #[tactic(auto, unfolding(crate::specs::Entries::genesis_pool_in))]
    fn read(_alloc: Global, value: &Value<'_>) -> Result<GenesisPool, FieldFault> {
        let (pool, deposit, cost, pledge, margin, account, key) = read_six_or_seven(value)?;
        let pool = read_pool_id(pool)?;
        let deposit = read_u64(deposit)?;
        let cost = read_u64(cost)?;
        let pledge = read_u64(pledge)?;
        let margin = read_unit(margin)?;
        let account = read_account(account)?;
        let key = optional_key(key)?;
        Ok(GenesisPool {
            pool,
            deposit,
            cost,
            pledge,
            margin,
            account,
            key,
        })
    }
}

/// A DRep of a genesis: its credential, its deposit, its expiry.
pub struct GenesisDrep;

impl Kind for GenesisDrep {
    type Entry = (Credential, u64, u64);

    ghost use Rattle.record_read.specs.Entries.{genesis_drep_in};

    ghost reading = { genesis_drep_in };

    #[tactic(auto, unfolding(crate::specs::Entries::genesis_drep_in))]
    fn read(alloc: Global, value: &Value<'_>) -> Result<(Credential, u64, u64), FieldFault> {
        let (cred, deposit, expiry) = read_three(value)?;
        let cred = read_credential(cred)?;
        let deposit = read_u64(deposit)?;
        let expiry = Slot::read(alloc, expiry)?;
        Ok((cred, deposit, expiry))
    }
}

/// An output of a transaction: its address, lovelace, size in bytes, and assets, if it has some.
pub struct Output;

impl Kind for Output {
    type Entry = TxOutput;

    ghost use Rattle.record_read.specs.Entries.{output_in};

    ghost reading = { output_in };

    #[tactic(auto, unfolding(crate::specs::Entries::output_in))]
    fn read(alloc: Global, value: &Value<'_>) -> Result<TxOutput, FieldFault> {
        let (address, lovelace, bytes, assets) = read_three_or_four(value)?;
        let address = read_address(address)?;
        let lovelace = read_u64(lovelace)?;
        let bytes = read_u32(bytes)?;
        let assets = optional_assets(alloc, assets)?;
        Ok(TxOutput {
            address,
            lovelace,
            bytes,
            assets,
        })
    }
}

/// A proposal of a transaction.
pub struct ProposalEntry;

impl Kind for ProposalEntry {
    type Entry = ProposalRecord;

    ghost use Rattle.record_read.specs.Entries.{proposal_in};

    ghost reading = { proposal_in };

    #[tactic(auto, unfolding(crate::specs::Entries::proposal_in))]
    fn read(alloc: Global, value: &Value<'_>) -> Result<ProposalRecord, FieldFault> {
        let deposit = needed::<u64>(alloc, value, "deposit")?;
        let account = needed::<Account>(alloc, value, "return")?;
        let action = needed::<ActionField>(alloc, value, "action")?;
        Ok(ProposalRecord {
            deposit,
            account,
            action,
        })
    }
}

/// A vote of a transaction.
pub struct VoteEntry;

impl Kind for VoteEntry {
    type Entry = VoteRecord;

    ghost use Rattle.record_read.specs.Entries.{vote_record_in};

    ghost reading = { vote_record_in };

    #[tactic(auto, unfolding(crate::specs::Entries::vote_record_in))]
    fn read(alloc: Global, value: &Value<'_>) -> Result<VoteRecord, FieldFault> {
        let voter = needed::<Voter>(alloc, value, "voter")?;
        let action = needed::<ActionId>(alloc, value, "action")?;
        let vote = needed::<VoteField>(alloc, value, "vote")?;
        Ok(VoteRecord {
            voter,
            action,
            vote,
        })
    }
}
