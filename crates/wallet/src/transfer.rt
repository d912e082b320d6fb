//! A transfer as a wallet builds it.
ghost use Rattle.std.specs.Prelude.{◌≡◌, IfOk};
ghost use Rattle.wallet.specs.Questions.{transfer};

use crate::parts::{ALICE, BOB, GENESIS, TRANSFER, output, spending};
use gov_ids::OutRef;
use no_memory::NoMemory;
use std::alloc::Global;
use tx_records::Tx;

/// Alice's 15,000 lovelace: 4,000 go to Bob, the fee is paid, and the rest comes back.
pub fn transfer(alloc: Global, fee: u16) -> Result<Tx, NoMemory>
    ensures { IfOk result (λ tx. tx ≡ transfer fee) }
{
    let fee = u64::from(fee).min(11_000);
    let spent = OutRef {
        tx: GENESIS,
        index: 0,
    };
    let mut tx = spending(alloc, TRANSFER, spent, fee)?;
    tx.outputs.push(output(BOB, 4_000))?;
    tx.outputs.push(output(ALICE, 11_000 - fee))?;
    Ok(tx)
}
