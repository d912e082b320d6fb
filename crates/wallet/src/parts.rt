//! What the transactions of the wallet are made of.
ghost use Rattle.std.specs.Prelude.{◌≡◌, IfOk};
ghost use Rattle.wallet.specs.Parts.{account, key, output, spending};

use assets::{Assets, Mint};
use gov_ids::{Account, Address, CredKind, Credential, OutRef, TxId};
use listed::Listed;
use no_memory::NoMemory;
use out_refs::OutRefs;
use std::alloc::Global;
use tx_records::{Scripts, Tx, TxOutput};

/// The hash of Alice's key.
pub const ALICE: [u8; 28] = [0xaa; 28];
/// The hash of Bob's key.
pub const BOB: [u8; 28] = [0xbb; 28];
/// The transaction that made the outputs of the genesis.
pub const GENESIS: TxId = TxId([0x11; 32]);
/// The transaction that gives lovelace to Bob.
pub const TRANSFER: TxId = TxId([0x22; 32]);
/// The transaction that proposes a hard fork.
pub const FORK: TxId = TxId([0x33; 32]);
/// The transaction that has certificates, a proposal and a vote.
pub const GOVERNANCE: TxId = TxId([0x44; 32]);

/// The credential of a key.
pub fn key(hash: [u8; 28]) -> Credential
    ensures { result ≡ key hash }
{
    Credential {
        hash,
        kind: CredKind::Key,
    }
}

/// The account of a key on mainnet.
pub fn account(hash: [u8; 28]) -> Account
    ensures { result ≡ account hash }
{
    Account {
        network: 1,
        cred: key(hash),
    }
}

/// An output of 65 bytes to a key on mainnet, without a stake part and without native assets.
pub fn output(to: [u8; 28], lovelace: u64) -> TxOutput
    ensures { result ≡ output to lovelace }
{
    TxOutput {
        address: Address {
            network: 1,
            payment: key(to),
            stake: None,
        },
        lovelace,
        bytes: 65,
        assets: Assets::none(),
    }
}

/// A transaction that spends one output, pays a fee, and does nothing else yet.
/// Whoever sends it states its size, and that its witnesses are there.
pub fn spending(alloc: Global, id: TxId, spent: OutRef, fee: u64) -> Result<Tx, NoMemory>
    ensures { IfOk result (λ tx. tx ≡ spending id spent fee) }
{
    let mut inputs = Vec::new(alloc);
    inputs.push(spent)?;
    Ok(Tx {
        id,
        inputs: OutRefs::from_vec(alloc, inputs)?,
        outputs: Listed::new(alloc),
        fee,
        size: 330,
        script_fee: 0,
        witnessed: true,
        scripts: Scripts::Absent,
        from: None,
        until: None,
        collateral: OutRefs::new(alloc),
        collateral_return: None,
        mint: Mint::none(),
        treasury: None,
        donation: 0,
        withdrawals: Listed::new(alloc),
        certs: Listed::new(alloc),
        proposals: Listed::new(alloc),
        votes: Listed::new(alloc),
    })
}
