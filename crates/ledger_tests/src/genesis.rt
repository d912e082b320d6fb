//! The ledger of a genesis, or the first rule that it breaks.
use assets::Assets;
use coin_frac::{FracFault, NoMemory, Ratio, Unit};
use gov_actions::HotState;
use gov_ids::{Address, AssetId, AssetName, CredKind, Credential, OutRef, TxId};
use hash_seed::HashSeed;
use listed::Listed;
use live_ledger::{GenesisFault, LiveLedger};
use pparams::Params;
use snapshots::Snapshots;
use std::alloc::Global;
use std::test::Fail;
use tx_records::{Genesis, GenesisCommittee, GenesisRule};

/// A member at the start: cold key, last epoch of the term, hot key.
type Member = (Credential, u64, Option<Credential>);

/// An output at the start: reference, address, lovelace, native assets.
type FirstOutput = (OutRef, Address, u64, Assets);

fn key(byte: u8) -> Credential {
    Credential {
        hash: [byte; 28],
        kind: CredKind::Key,
    }
}

fn at(tx: u8, index: u16) -> OutRef {
    OutRef {
        tx: TxId([tx; 32]),
        index,
    }
}

fn address(network: u8) -> Address {
    Address {
        network,
        payment: key(1),
        stake: None,
    }
}

fn asset() -> AssetId {
    AssetId {
        policy: [4; 28],
        name: AssetName::new(&[6]),
    }
}

fn params() -> Result<Params, FracFault> {
    let half = Unit::new(1, 2)?;
    let none = Ratio::new(0, 1)?;
    Ok(Params {
        max_block_body_size: 90_000,
        max_tx_size: 16_384,
        max_block_header_size: 1_100,
        max_value_size: 5_000,
        max_tx_ex_units: (1, 1),
        max_block_ex_units: (1, 1),
        max_collateral_inputs: 3,
        min_fee_a: 0,
        min_fee_b: 2,
        key_deposit: 2,
        pool_deposit: 5,
        rho: half,
        tau: half,
        min_pool_cost: 1,
        coins_per_utxo_byte: 0,
        prices: (none, none),
        min_fee_ref_script_cost_per_byte: none,
        a0: none,
        e_max: 18,
        n_opt: 500,
        cost_models: [0; 32],
        collateral_percentage: 150,
        pool_voting_thresholds: [half; 5],
        drep_voting_thresholds: [half; 10],
        gov_action_lifetime: 6,
        gov_action_deposit: 1,
        drep_deposit: 5,
        drep_activity: 20,
        committee_min_size: 0,
        committee_max_term_length: 10,
    })
}

/// Two members, one of whom has a hot key.
fn members(alloc: Global, member: u8) -> Result<Listed<Member>, NoMemory> {
    let mut members = Listed::new(alloc);
    members.push((key(member), 9, Some(key(5))))?;
    members.push((key(1), 8, None))?;
    Ok(members)
}

/// Two outputs, of 60 lovelace, and of 30 with 5 of an asset.
fn outputs(alloc: Global, output: u16, network: u8) -> Result<Listed<FirstOutput>, NoMemory> {
    let mut outputs = Listed::new(alloc);
    outputs.push((at(8, 0), address(0), 60, Assets::none()))?;
    let assets = Assets::from_entries(alloc, &[(asset(), 5)])?;
    outputs.push((at(8, output), address(network), 30, assets))?;
    Ok(outputs)
}

/// A genesis with these members and outputs, and 10 lovelace in the pots.
/// It takes no memory, so no part of it is moved where memory can run out.
fn genesis(
    alloc: Global,
    params: Params,
    supply: u64,
    members: Listed<Member>,
    outputs: Listed<FirstOutput>,
) -> Genesis {
    Genesis {
        network: 0,
        slot: 3,
        epoch_length: 2,
        version: (10, 0),
        supply,
        reserves: 7,
        treasury: 3,
        params,
        document: [0; 32],
        script: None,
        committee: Some(GenesisCommittee {
            threshold: params.rho,
            members,
        }),
        outputs,
        accounts: Listed::new(alloc),
        pools: Listed::new(alloc),
        dreps: Listed::new(alloc),
    }
}

/// A genesis with two members and two outputs.
fn genesis_of(
    alloc: Global,
    supply: u64,
    member: u8,
    output: u16,
    network: u8,
) -> Result<Genesis, Fail> {
    let params = params()?;
    let members = members(alloc, member)?;
    let outputs = outputs(alloc, output, network)?;
    Ok(genesis(alloc, params, supply, members, outputs))
}

/// The ledger of a genesis or why it gives none; nothing where it is beyond the limits.
fn started(alloc: Global, genesis: &Genesis) -> Option<Result<LiveLedger, GenesisFault>> {
    if !genesis.is_within_limits() {
        return None;
    }
    Some(LiveLedger::from_genesis(alloc, HashSeed::new(1, 2), genesis))
}

/// Why a genesis gives no ledger.
fn fault_of(alloc: Global, genesis: &Genesis) -> Option<GenesisFault> {
    match started(alloc, genesis) {
        Some(Err(fault)) => Some(fault),
        Some(Ok(_)) | None => None,
    }
}

/// The pots of a ledger and its other numbers, in one list.
fn numbers_of(ledger: &LiveLedger) -> [u64; 17] {
    let pots = ledger.pots();
    [
        pots.outputs,
        pots.deposits,
        pots.rewards,
        pots.fees,
        pots.donations,
        pots.treasury,
        pots.reserves,
        u64::from(ledger.network()),
        ledger.slot(),
        ledger.supply(),
        u64::from(ledger.epoch_length()),
        ledger.epoch(),
        ledger.reserves(),
        ledger.state().treasury,
        ledger.fees(),
        ledger.donations(),
        u64::from(ledger.params().e_max),
    ]
}

/// The members of the committee with their terms; none without a committee.
fn members_in(ledger: &LiveLedger) -> &[(Credential, u64)] {
    match &ledger.state().committee {
        Some(committee) => committee.members.as_slice(),
        None => &[],
    }
}

/// The output at a reference, in lovelace and in assets.
fn value_at<'a>(ledger: &'a LiveLedger, at: &OutRef) -> Option<(u64, &'a [(AssetId, u64)])> {
    let output = ledger.outputs().get(at)?;
    Some((output.lovelace, output.assets.as_slice()))
}

#[test]
fn starts_from_a_genesis_that_breaks_no_rule(rt: HostRuntime) -> Result<(), Fail> {
    let genesis = genesis_of(rt.alloc(), 100, 2, 1, 0)?;
    let Some(Ok(ledger)) = started(rt.alloc(), &genesis) else {
        panic!(rt; "no ledger")
    };
    let numbers = [90, 0, 0, 0, 0, 3, 7, 0, 3, 100, 2, 1, 7, 3, 0, 0, 18];
    assert!(rt; numbers_of(&ledger).as_slice() == numbers.as_slice());
    assert!(rt; members_in(&ledger) == [(key(1), 8), (key(2), 9)].as_slice());
    let hot = [(key(2), Some(HotState::Hot(key(5)))), (key(1), None)];
    for (cold, want) in hot {
        assert!(rt; ledger.hot().get(&cold) == want);
    }
    assert!(rt; value_at(&ledger, &at(8, 1)) == Some((30, [(asset(), 5)].as_slice())));
    assert!(rt; ledger.outputs().used(&TxId([8; 32])));
    Ok(())
}

#[test]
fn tells_the_first_rule_that_a_genesis_breaks(rt: HostRuntime) -> Result<(), Fail> {
    let rows = [
        (45_000_000_000_000_001, 1, 0, 1, GenesisRule::SupplyTooLarge),
        (99, 1, 1, 1, GenesisRule::Repeated),
        (99, 2, 0, 1, GenesisRule::Repeated),
        (99, 2, 1, 1, GenesisRule::WrongNetwork),
        (99, 2, 1, 0, GenesisRule::SumWrong),
        (45_000_000_000_000_000, 2, 1, 0, GenesisRule::SumWrong),
    ];
    for (supply, member, output, network, rule) in rows {
        let genesis = genesis_of(rt.alloc(), supply, member, output, network)?;
        assert!(rt; fault_of(rt.alloc(), &genesis) == Some(GenesisFault::Broken(rule)));
    }
    Ok(())
}

/// Stakes of no pool, and 4 lovelace of fees.
fn no_stakes(alloc: Global) -> Snapshots {
    Snapshots {
        mark: Listed::new(alloc),
        set: Listed::new(alloc),
        go: Listed::new(alloc),
        fees: 4,
    }
}

#[test]
fn gives_its_parts_and_takes_them(rt: HostRuntime) -> Result<(), Fail> {
    let genesis = genesis_of(rt.alloc(), 100, 2, 1, 0)?;
    let Some(Ok(ledger)) = started(rt.alloc(), &genesis) else {
        panic!(rt; "no ledger")
    };
    let books = ledger.into_books(no_stakes(rt.alloc()), None);
    assert!(rt; books.length == 2 && books.reserves == 7 && books.snapshots.fees == 4);
    let held = Box::new(rt.alloc(), books)?;
    let (ledger, snapshots, pending) = LiveLedger::of_books(rt.alloc(), held);
    let ledger = ledger.at_slot(9);
    let numbers = [90, 0, 0, 0, 0, 3, 7, 0, 9, 100, 2, 1, 7, 3, 0, 0, 18];
    assert!(rt; numbers_of(&ledger).as_slice() == numbers.as_slice());
    assert!(rt; snapshots.fees == 4 && pending.is_none());
    Ok(())
}
