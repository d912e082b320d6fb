//! Records within the limits of the formats, and just beyond them.
use assets::AssetList;
use gov_ids::{Account, CredKind, Credential, TxId};
use listed::{Boxed, Listed};
use out_refs::OutRefs;
use std::alloc::{AllocError, Global};
use std::test::Fail;
use tx_records::limits::SLOT_LIMIT;
use tx_records::{Record, Rewards, Scripts, Tx};

fn account(network: u8) -> Account {
    let cred = Credential {
        hash: [7; 28],
        kind: CredKind::Key,
    };
    Account { network, cred }
}

/// A transaction with a last slot and these withdrawals, and nothing else.
fn transaction(
    alloc: Global,
    until: u64,
    withdrawals: &[(Account, u64)],
) -> Result<Record, AllocError> {
    let tx = Tx {
        id: TxId([1; 32]),
        inputs: OutRefs::new(alloc),
        outputs: Listed::new(alloc),
        fee: 0,
        size: 0,
        script_fee: 0,
        witnessed: true,
        scripts: Scripts::Absent,
        from: None,
        until: Some(until),
        collateral: OutRefs::new(alloc),
        collateral_return: None,
        mint: AssetList::none(),
        treasury: None,
        donation: 0,
        withdrawals: Listed::from_vec(withdrawals.to_vec(alloc)?),
        certs: Listed::new(alloc),
        proposals: Listed::new(alloc),
        votes: Listed::new(alloc),
    };
    Ok(Record::Tx(Boxed::new(alloc, tx)?))
}

/// A reward update with these rewards, and nothing else.
fn rewards(alloc: Global, rewards: &[(Credential, u64)]) -> Result<Record, AllocError> {
    Ok(Record::Rewards(Rewards {
        epoch: 0,
        from_reserves: 5,
        from_fees: 0,
        to_treasury: 0,
        rewards: Listed::from_vec(rewards.to_vec(alloc)?),
    }))
}

#[test]
fn transactions(rt: HostRuntime) -> Result<(), Fail> {
    let two = [(account(0), 1), (account(1), 1)];
    let twice = [(account(1), 1), (account(1), 2)];
    let last = SLOT_LIMIT - 1;
    for (until, withdrawals, within) in [
        (last, two.as_slice(), true),
        (last + 1, two.as_slice(), false),
        (last, twice.as_slice(), false),
    ] {
        let record = transaction(rt.alloc(), until, withdrawals)?;
        assert!(rt; record.is_within_limits(rt.alloc())? == within);
    }
    Ok(())
}

#[test]
fn reward_updates(rt: HostRuntime) -> Result<(), Fail> {
    let cred = account(0).cred;
    for (list, within) in [
        ([(cred, 5)].as_slice(), true),
        ([(cred, 5), (cred, 6)].as_slice(), false),
    ] {
        let record = rewards(rt.alloc(), list)?;
        assert!(rt; record.is_within_limits(rt.alloc())? == within);
    }
    Ok(())
}
