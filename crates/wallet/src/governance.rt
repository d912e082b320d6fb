//! Transactions of governance as a wallet builds them.
ghost use Rattle.std.specs.Prelude.{◌≡◌, IfOk};
ghost use Rattle.wallet.specs.Questions.{governance, hard_fork};

use crate::parts::{ALICE, BOB, FORK, GOVERNANCE, TRANSFER, account, key, output, spending};
use gov_actions::{Action, Vote};
use gov_ids::{ActionId, Drep, OutRef, Voter};
use no_memory::NoMemory;
use std::alloc::Global;
use tx_records::{Cert, ProposalRecord, Tx, VoteRecord};

/// Alice proposes a hard fork to version 11.0. The deposit is 1,000 of her 10,600 lovelace.
pub fn hard_fork(alloc: Global) -> Result<Tx, NoMemory>
    ensures { IfOk result (λ tx. tx ≡ hard_fork) }
{
    let spent = OutRef {
        tx: TRANSFER,
        index: 1,
    };
    let mut tx = spending(alloc, FORK, spent, 400)?;
    tx.outputs.push(output(ALICE, 9_200))?;
    tx.proposals.push(ProposalRecord {
        deposit: 1_000,
        account: account(ALICE),
        action: Action::HardForkInitiation {
            previous: None,
            version: (11, 0),
        },
    })?;
    Ok(tx)
}

/// Bob becomes a DRep, Alice delegates her vote to him, he proposes a constitution, and he votes
/// on the hard fork. Of his 4,000 lovelace 500 are the DRep's deposit and 1,000 the proposal's.
pub fn governance(alloc: Global) -> Result<Tx, NoMemory>
    ensures { IfOk result (λ tx. tx ≡ governance) }
{
    let spent = OutRef {
        tx: TRANSFER,
        index: 0,
    };
    let mut tx = spending(alloc, GOVERNANCE, spent, 400)?;
    tx.outputs.push(output(BOB, 2_100))?;
    tx.certs.push(Cert::DrepReg {
        cred: key(BOB),
        deposit: Some(500),
    })?;
    tx.certs.push(Cert::Delegate {
        cred: key(ALICE),
        pool: None,
        drep: Some(Drep::Registered(key(BOB))),
    })?;
    tx.proposals.push(ProposalRecord {
        deposit: 1_000,
        account: account(BOB),
        action: Action::NewConstitution {
            previous: None,
            document: [0x99; 32],
            script: None,
        },
    })?;
    tx.votes.push(VoteRecord {
        voter: Voter::Drep(key(BOB)),
        action: ActionId { tx: FORK, index: 0 },
        vote: Vote::Yes,
    })?;
    Ok(tx)
}
