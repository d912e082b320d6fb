ghost use Rattle.std.specs.Prelude.{◌≡◌, codes};
ghost use Rattle.std.specs.Result.{result_map_both};
ghost use Rattle.json_tree.specs.View.{view};
ghost use Rattle.json_fields.specs.Entries.{needed_in};
ghost use Rattle.json_fields.specs.Kinds.{ref_in, text_in};
ghost use Rattle.record_read.specs.Reads.{ReadsRecord};
ghost use Rattle.record_read.specs.Fields as fields;
ghost use Rattle.record_read.specs.Records.{times_in, funds_in, founding_in, registered_in, genesis_in, block_in, rewards_in, payment_in, form_in, mint_in, terms_in, transfers_in, acts_in, tx_in, print_in, record_of_kind, record_in};

use crate::certs::CertEntry;
use crate::entries::{
    Committee, EpochLength, GenesisAccount, GenesisDrep, GenesisOutput, GenesisPoolEntry,
    GenesisVersion, Network, Output, ProposalEntry, ScriptsField, Slot, VoteEntry,
};
use crate::fault::RecordFault;
use crate::fields::{
    defaulted_field, needed_distinct_list, needed_field, needed_list, optional_distinct_list,
    optional_field, optional_list,
};
use crate::quantities::MovedAsset;
use action_read::ParamsField;
use assets::{AssetList, Assets, Mint};
use gov_ids::{Account, Address, Credential, Drep, OutRef, PoolId, TxId};
use json_fields::{FieldFault, Kind, read_text};
use json_tree::Value;
use listed::{Boxed, Listed};
use out_refs::OutRefs;
use pparams::Params;
use record_members::Members;
use std::alloc::Global;
use tx_records::limits::{LIST_LIMIT, OUTPUT_LIMIT, TX_LIST_LIMIT};
use tx_records::{
    Cert, FieldName, Genesis, GenesisCommittee, GenesisPool, ProposalRecord, Record, Rewards,
    Scripts, Tx, TxOutput, VoteRecord, What,
};

/// The network, and how time is counted.
struct Times {
    network: u8,
    slot: u64,
    epoch_length: u32,
    version: (u32, u32),
}

/// The lovelace outside accounts and outputs, and the parameters.
struct Funds {
    supply: u64,
    reserves: u64,
    treasury: u64,
    params: Params,
}

/// The constitution, the committee and the outputs.
struct Founding {
    document: [u8; 32],
    script: Option<[u8; 28]>,
    committee: Option<GenesisCommittee>,
    outputs: Listed<(OutRef, Address, u64, Assets)>,
}

/// Those who are registered.
struct Registered {
    accounts: Listed<(Credential, u64, u64, Option<PoolId>, Option<Drep>)>,
    pools: Listed<GenesisPool>,
    dreps: Listed<(Credential, u64, u64)>,
}

/// The network, and how time is counted.
#[tactic(auto, unfolding(crate::specs::Records::times_in))]
fn read_times(alloc: Global, object: &Members<'_, '_>) -> Result<Times, RecordFault>
    ensures { ReadsRecord result (times_in (view object.now)) }
{
    let network = needed_field::<Network>(alloc, object, FieldName::Network)?;
    let slot = needed_field::<Slot>(alloc, object, FieldName::Slot)?;
    let epoch_length = needed_field::<EpochLength>(alloc, object, FieldName::EpochLength)?;
    let version = needed_field::<GenesisVersion>(alloc, object, FieldName::Version)?;
    Ok(Times {
        network,
        slot,
        epoch_length,
        version,
    })
}

/// The lovelace outside accounts and outputs, and the parameters.
#[tactic(auto, unfolding(crate::specs::Records::funds_in))]
fn read_funds(alloc: Global, object: &Members<'_, '_>) -> Result<Funds, RecordFault>
    ensures { ReadsRecord result (funds_in (view object.now)) }
{
    let supply = needed_field::<u64>(alloc, object, FieldName::Supply)?;
    let reserves = needed_field::<u64>(alloc, object, FieldName::Reserves)?;
    let treasury = needed_field::<u64>(alloc, object, FieldName::Treasury)?;
    let params = needed_field::<ParamsField>(alloc, object, FieldName::Params)?;
    Ok(Funds {
        supply,
        reserves,
        treasury,
        params,
    })
}

/// The constitution, the committee and the outputs.
#[tactic(auto, unfolding(crate::specs::Records::founding_in))]
fn read_founding(alloc: Global, object: &Members<'_, '_>) -> Result<Founding, RecordFault>
    ensures { ReadsRecord result (founding_in (view object.now)) }
{
    let document = needed_field::<[u8; 32]>(alloc, object, FieldName::Document)?;
    let script = optional_field::<[u8; 28]>(alloc, object, FieldName::Script)?;
    let committee = optional_field::<Committee>(alloc, object, FieldName::Committee)?;
    let outputs = needed_list::<GenesisOutput>(alloc, object, FieldName::Outputs, LIST_LIMIT)?;
    Ok(Founding {
        document,
        script,
        committee,
        outputs,
    })
}

/// Those who are registered.
#[tactic(auto, unfolding(crate::specs::Records::registered_in))]
fn read_registered(alloc: Global, object: &Members<'_, '_>) -> Result<Registered, RecordFault>
    ensures { ReadsRecord result (registered_in (view object.now)) }
{
    let accounts = needed_list::<GenesisAccount>(alloc, object, FieldName::Accounts, LIST_LIMIT)?;
    let pools = needed_list::<GenesisPoolEntry>(alloc, object, FieldName::Pools, LIST_LIMIT)?;
    let dreps = needed_list::<GenesisDrep>(alloc, object, FieldName::Dreps, LIST_LIMIT)?;
    Ok(Registered {
        accounts,
        pools,
        dreps,
    })
}

/// The ledger at the start.
#[tactic(auto, unfolding(crate::specs::Records::genesis_in))]
fn genesis(alloc: Global, object: &Members<'_, '_>) -> Result<Genesis, RecordFault>
    ensures { ReadsRecord result (genesis_in (view object.now)) }
{
    let Times {
        network,
        slot,
        epoch_length,
        version,
    } = read_times(alloc, object)?;
    let Funds {
        supply,
        reserves,
        treasury,
        params,
    } = read_funds(alloc, object)?;
    let Founding {
        document,
        script,
        committee,
        outputs,
    } = read_founding(alloc, object)?;
    let Registered {
        accounts,
        pools,
        dreps,
    } = read_registered(alloc, object)?;
    Ok(Genesis {
        network,
        slot,
        epoch_length,
        version,
        supply,
        reserves,
        treasury,
        params,
        document,
        script,
        committee,
        outputs,
        accounts,
        pools,
        dreps,
    })
}

/// A block.
#[tactic(auto, unfolding(crate::specs::Records::block_in))]
fn block(alloc: Global, object: &Members<'_, '_>) -> Result<Record, RecordFault>
    ensures { ReadsRecord result (block_in (view object.now)) }
{
    let slot = needed_field::<Slot>(alloc, object, FieldName::Slot)?;
    let pulse = needed_field::<u32>(alloc, object, FieldName::Pulse)?;
    Ok(Record::Block { slot, pulse })
}

/// A reward update.
#[tactic(auto, unfolding(crate::specs::Records::rewards_in))]
fn rewards(alloc: Global, object: &Members<'_, '_>) -> Result<Rewards, RecordFault>
    ensures { ReadsRecord result (rewards_in (view object.now)) }
{
    let epoch = needed_field::<u64>(alloc, object, FieldName::Epoch)?;
    let from_reserves = needed_field::<u64>(alloc, object, FieldName::FromReserves)?;
    let from_fees = needed_field::<u64>(alloc, object, FieldName::FromFees)?;
    let to_treasury = needed_field::<u64>(alloc, object, FieldName::ToTreasury)?;
    let rewards = needed_distinct_list::<(Credential, u64)>(
        alloc,
        object,
        FieldName::Rewards,
        LIST_LIMIT,
    )?;
    Ok(Rewards {
        epoch,
        from_reserves,
        from_fees,
        to_treasury,
        rewards,
    })
}

/// What is spent and made.
struct Payment {
    id: TxId,
    inputs: OutRefs,
    outputs: Listed<TxOutput>,
    fee: u64,
}

/// The size, the witnesses and the scripts.
struct Form {
    size: u32,
    script_fee: u64,
    witnessed: bool,
    scripts: Scripts,
}

/// The validity interval of a transaction, what it loses if its scripts fail, and what it mints.
struct Terms {
    from: Option<u64>,
    until: Option<u64>,
    collateral: OutRefs,
    collateral_return: Option<TxOutput>,
    mint: Mint,
}

/// What it says of the treasury, and takes from accounts.
struct Transfers {
    treasury: Option<u64>,
    donation: u64,
    withdrawals: Listed<(Account, u64)>,
}

/// What it does beside paying.
struct Acts {
    certs: Listed<Cert>,
    proposals: Listed<ProposalRecord>,
    votes: Listed<VoteRecord>,
}

/// A list of references, in a field that has to be there.
fn needed_refs(
    alloc: Global,
    object: &Members<'_, '_>,
    name: FieldName,
) -> Result<OutRefs, RecordFault>
    ensures { ReadsRecord result (fields.needed_list name TX_LIST_LIMIT ref_in (view object.now)) }
{
    let refs = needed_list::<OutRef>(alloc, object, name, TX_LIST_LIMIT)?;
    Ok(OutRefs::from_vec(alloc, refs.into_vec())?)
}

/// A list of references, in a field that may be absent or null.
fn optional_refs(
    alloc: Global,
    object: &Members<'_, '_>,
    name: FieldName,
) -> Result<OutRefs, RecordFault>
    ensures { ReadsRecord result (fields.optional_list name TX_LIST_LIMIT ref_in (view object.now)) }
{
    let refs = optional_list::<OutRef>(alloc, object, name, TX_LIST_LIMIT)?;
    Ok(OutRefs::from_vec(alloc, refs.into_vec())?)
}

/// What is spent and made.
#[tactic(auto, unfolding(crate::specs::Records::payment_in))]
fn read_payment(alloc: Global, object: &Members<'_, '_>) -> Result<Payment, RecordFault>
    ensures { ReadsRecord result (payment_in (view object.now)) }
{
    let id = needed_field::<TxId>(alloc, object, FieldName::Id)?;
    let inputs = needed_refs(alloc, object, FieldName::Inputs)?;
    let outputs = needed_list::<Output>(alloc, object, FieldName::Outputs, OUTPUT_LIMIT)?;
    let fee = needed_field::<u64>(alloc, object, FieldName::Fee)?;
    Ok(Payment {
        id,
        inputs,
        outputs,
        fee,
    })
}

/// The size, the witnesses and the scripts.
#[tactic(auto, unfolding(crate::specs::Records::form_in))]
fn read_form(alloc: Global, object: &Members<'_, '_>) -> Result<Form, RecordFault>
    ensures { ReadsRecord result (form_in (view object.now)) }
{
    let size = needed_field::<u32>(alloc, object, FieldName::Size)?;
    let script_fee = defaulted_field::<u64>(alloc, object, FieldName::ScriptFee, 0)?;
    let witnessed = defaulted_field::<bool>(alloc, object, FieldName::Witnessed, true)?;
    let scripts = defaulted_field::<ScriptsField>(
        alloc,
        object,
        FieldName::Scripts,
        Scripts::Absent,
    )?;
    Ok(Form {
        size,
        script_fee,
        witnessed,
        scripts,
    })
}

/// What is minted and burned.
fn read_mint(alloc: Global, object: &Members<'_, '_>) -> Result<Mint, RecordFault>
    ensures { ReadsRecord result (mint_in (view object.now)) }
{
    let entries = optional_distinct_list::<MovedAsset>(alloc, object, FieldName::Mint, LIST_LIMIT)?;
    Ok(AssetList::from_entries(alloc, entries.as_slice())?)
}

/// The validity interval of a transaction, what it loses if its scripts fail, and what it mints.
#[tactic(auto, unfolding(crate::specs::Records::terms_in))]
fn read_terms(alloc: Global, object: &Members<'_, '_>) -> Result<Terms, RecordFault>
    ensures { ReadsRecord result (terms_in (view object.now)) }
{
    let from = optional_field::<Slot>(alloc, object, FieldName::From)?;
    let until = optional_field::<Slot>(alloc, object, FieldName::Until)?;
    let collateral = optional_refs(alloc, object, FieldName::Collateral)?;
    let collateral_return = optional_field::<Output>(alloc, object, FieldName::CollateralReturn)?;
    let mint = read_mint(alloc, object)?;
    Ok(Terms {
        from,
        until,
        collateral,
        collateral_return,
        mint,
    })
}

/// What it says of the treasury, and takes from accounts.
#[tactic(auto, unfolding(crate::specs::Records::transfers_in))]
fn read_transfers(alloc: Global, object: &Members<'_, '_>) -> Result<Transfers, RecordFault>
    ensures { ReadsRecord result (transfers_in (view object.now)) }
{
    let treasury = optional_field::<u64>(alloc, object, FieldName::Treasury)?;
    let donation = defaulted_field::<u64>(alloc, object, FieldName::Donation, 0)?;
    let withdrawals = optional_distinct_list::<(Account, u64)>(
        alloc,
        object,
        FieldName::Withdrawals,
        TX_LIST_LIMIT,
    )?;
    Ok(Transfers {
        treasury,
        donation,
        withdrawals,
    })
}

/// What it does beside paying.
#[tactic(auto, unfolding(crate::specs::Records::acts_in))]
fn read_acts(alloc: Global, object: &Members<'_, '_>) -> Result<Acts, RecordFault>
    ensures { ReadsRecord result (acts_in (view object.now)) }
{
    let certs = optional_list::<CertEntry>(alloc, object, FieldName::Certs, TX_LIST_LIMIT)?;
    let proposals = optional_list::<ProposalEntry>(
        alloc,
        object,
        FieldName::Proposals,
        TX_LIST_LIMIT,
    )?;
    let votes = optional_list::<VoteEntry>(alloc, object, FieldName::Votes, TX_LIST_LIMIT)?;
    Ok(Acts {
        certs,
        proposals,
        votes,
    })
}

/// A transaction.
#[tactic(auto, unfolding(crate::specs::Records::tx_in))]
fn tx(alloc: Global, object: &Members<'_, '_>) -> Result<Tx, RecordFault>
    ensures { ReadsRecord result (tx_in (view object.now)) }
{
    let Payment {
        id,
        inputs,
        outputs,
        fee,
    } = read_payment(alloc, object)?;
    let Form {
        size,
        script_fee,
        witnessed,
        scripts,
    } = read_form(alloc, object)?;
    let Terms {
        from,
        until,
        collateral,
        collateral_return,
        mint,
    } = read_terms(alloc, object)?;
    let Transfers {
        treasury,
        donation,
        withdrawals,
    } = read_transfers(alloc, object)?;
    let Acts {
        certs,
        proposals,
        votes,
    } = read_acts(alloc, object)?;
    Ok(Tx {
        id,
        inputs,
        outputs,
        fee,
        size,
        script_fee,
        witnessed,
        scripts,
        from,
        until,
        collateral,
        collateral_return,
        mint,
        treasury,
        donation,
        withdrawals,
        certs,
        proposals,
        votes,
    })
}

/// What a print asks for.
struct WhatField;

impl Kind for WhatField {
    type Entry = What;

    ghost use Rattle.record_read.specs.Records.{what_in};

    ghost reading = { what_in };

    fn read(_alloc: Global, value: &Value<'_>) -> Result<What, FieldFault> {
        match read_text(value) {
            Ok("pots") => Ok(What::Pots),
            Ok("state") => Ok(What::State),
            Ok("assets") => Ok(What::Assets),
            Ok(_) => Err(FieldFault::OutOfRange),
            Err(fault) => Err(fault),
        }
    }
}

/// A print.
#[tactic(auto, unfolding(crate::specs::Records::print_in))]
fn print(alloc: Global, object: &Members<'_, '_>) -> Result<Record, RecordFault>
    ensures { ReadsRecord result (print_in (view object.now)) }
{
    let what = needed_field::<WhatField>(alloc, object, FieldName::What)?;
    Ok(Record::Print(what))
}

/// The record of this kind.
fn record_of_kind(
    alloc: Global,
    kind: &str,
    object: &Members<'_, '_>,
) -> Result<Record, RecordFault>
    ensures { ReadsRecord result (record_of_kind kind.now (view object.now)) }
{
    match kind {
        "genesis" => Ok(Record::Genesis(Boxed::new(alloc, genesis(alloc, object)?)?)),
        "block" => block(alloc, object),
        "rewards" => Ok(Record::Rewards(rewards(alloc, object)?)),
        "tx" => Ok(Record::Tx(Boxed::new(alloc, tx(alloc, object)?)?)),
        "print" => print(alloc, object),
        _ => Err(RecordFault::UnknownKind),
    }
}

/// The word of a record's kind.
fn kind_of<'a>(object: &Members<'_, 'a>) -> Result<&'a str, FieldFault>
    ensures { result_map_both (λ kind. kind.now) (λ e. e) result ≡ needed_in (codes "kind") text_in (view object.now) }
{
    read_text(object.field(FieldName::Kind)?)
}

/// The record of a JSON value, or its first fault. `NoMemory` may come at any time. (Own)
pub fn record(alloc: Global, object: &Value<'_>) -> Result<Record, RecordFault>
    ensures { ReadsRecord result (record_in (view object.now)) }
{
    let Some(object) = Members::new(object) else {
        return Err(RecordFault::UnknownKind);
    };
    match kind_of(&object) {
        Ok(kind) => record_of_kind(alloc, kind, &object),
        Err(_) => Err(RecordFault::UnknownKind),
    }
}
