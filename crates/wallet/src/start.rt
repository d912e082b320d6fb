//! The ledger to ask.
ghost use Rattle.wallet.specs.Starts.{Starts};

use hash_seed::HashSeed;
use ledger_state::LedgerState;
use live_ledger::GenesisFault;
use record_read::{RecordFault, read_record};
use std::alloc::Global;
use tx_records::{GenesisRule, Record};

/// Why a line gives no ledger.
#[derive(Clone, Copy, Debug, PartialEq, Eq)]
pub enum StartFault {
    /// The line is no record: what of it is wrong.
    Unreadable(RecordFault),
    /// It is a record of another kind.
    NoGenesis,
    /// The first rule of a genesis that it breaks.
    Broken(GenesisRule),
    /// Memory ran out.
    NoMemory,
}

/// The ledger of a line that is a genesis. (Own)
pub fn ledger_of(alloc: Global, seed: HashSeed, line: &[u8]) -> Result<LedgerState, StartFault>
    ensures { Starts line.now result }
{
    let genesis = match read_record(alloc, line) {
        Ok(Record::Genesis(genesis)) => genesis,
        Ok(Record::Block { .. } | Record::Rewards(_) | Record::Tx(_) | Record::Print(_)) =>
            return Err(StartFault::NoGenesis),
        Err(RecordFault::NoMemory) => return Err(StartFault::NoMemory),
        Err(fault) => return Err(StartFault::Unreadable(fault)),
    };
    match LedgerState::from_genesis(alloc, seed, genesis.get(), 1) {
        Ok(ledger) => Ok(ledger),
        Err(GenesisFault::Broken(rule)) => Err(StartFault::Broken(rule)),
        Err(GenesisFault::NoMemory) => Err(StartFault::NoMemory),
    }
}
