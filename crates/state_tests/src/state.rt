//! States that records change, one after another, and what is seen of them.
ghost use Rattle.std.specs.Prelude.{◌≡◌, ◌<◌, ◌^◌, true};
ghost use Rattle.tx_records.specs.RecordLimits.{is_within_limits};
ghost use Rattle.tx_records.specs.TxLimits as tx_limits;

use crate::lines::{Line, bytes_of};
use drep_pulser::Pulser;
use gov_ids::{CredKind, Credential, Drep};
use hash_seed::HashSeed;
use ledger_state::LedgerState;
use live_ledger::GenesisFault;
use no_memory::NoMemory;
use record_read::{RecordFault, read_record};
use std::alloc::Global;
use thiserror::Error;
use tx_records::{Genesis, Record, Reply, Rewards, Tx, TxFault};
use tx_rule::{accepted, judged};

/// Why a line leaves no state.
#[derive(Clone, Copy, Debug, Error)]
pub enum Stop {
    #[error("the line is no record")]
    Unreadable,
    #[error("the record is none of those that are told")]
    NotTaken,
    #[error("memory ran out")]
    NoMemory,
}

impl From<NoMemory> for Stop {
    fn from(_error: NoMemory) -> Stop {
        Stop::NoMemory
    }
}

impl From<RecordFault> for Stop {
    fn from(_error: RecordFault) -> Stop {
        Stop::Unreadable
    }
}

/// The stakes of the DReps 30 and 31: over the entries that are counted so far, or over all.
#[derive(Clone, Copy, Debug, PartialEq)]
pub enum Sums {
    Part([u64; 2]),
    Whole([u64; 2]),
}

/// What is seen of a state: slot, counted entries, their stakes, if a reward update is pending.
pub type Seen = (u64, u64, Sums, bool);

/// A state that records change. Loops are over any, so that their proofs do not open the ledger.
pub trait Changed: Sized {
    ghost use Rattle.std.specs.Prelude.{◌≡◌, true};
    ghost use Rattle.tx_records.specs.GenesisLimits as genesis_limits;
    ghost use Rattle.tx_records.specs.RecordLimits as record_limits;

    /// The state of a genesis, whose count is for four workers.
    fn begin(alloc: Global, genesis: &Genesis) -> Result<Self, Stop>
        requires within { genesis_limits.is_within_limits genesis.now ≡ true };

    /// The state after a record, and the reply.
    fn after(self, alloc: Global, told: &Record) -> Result<(Self, Reply), Stop>
        requires within { record_limits.is_within_limits told.now ≡ true };

    /// What is seen of it.
    fn seen(&self) -> Seen;

    /// Its pots except donations: outputs, deposits, rewards, fees, treasury and reserves.
    fn pots(&self) -> [u64; 6];
}

impl Changed for LedgerState {
    fn begin(alloc: Global, genesis: &Genesis) -> Result<LedgerState, Stop> {
        match LedgerState::from_genesis(alloc, HashSeed::new(1, 2), genesis, 4) {
            Ok(s) => Ok(s),
            Err(GenesisFault::Broken(_)) => Err(Stop::NotTaken),
            Err(GenesisFault::NoMemory) => Err(Stop::NoMemory),
        }
    }

    fn after(self, alloc: Global, told: &Record) -> Result<(LedgerState, Reply), Stop> {
        match told {
            Record::Block { slot, pulse } => after_block(self, *slot, *pulse),
            Record::Rewards(update) => after_rewards(self, update),
            Record::Tx(tx) => after_tx(alloc, self, tx.get()),
            Record::Genesis(_) | Record::Print(_) => {
                drop(self);
                Err(Stop::NotTaken)
            }
        }
    }

    fn seen(&self) -> Seen {
        let pulser = self.pulser();
        (
            self.slot(),
            counted(pulser),
            stakes(pulser),
            self.pending().is_some(),
        )
    }

    fn pots(&self) -> [u64; 6] {
        let pots = self.pots();
        [
            pots.outputs,
            pots.deposits,
            pots.rewards,
            pots.fees,
            pots.treasury,
            pots.reserves,
        ]
    }
}

/// The state after a block, where it does not begin the next epoch, and the reply.
fn after_block(s: LedgerState, slot: u64, pulse: u32) -> Result<(LedgerState, Reply), Stop>
    requires early { slot < 2 ^ 62 }
{
    match s.check_block(slot, pulse) {
        Ok(true) => {
            drop(s);
            Err(Stop::NotTaken)
        }
        Ok(false) => Ok(s.block(slot, pulse)),
        Err(rule) => Ok((s, Reply::Refused(rule))),
    }
}

/// The state after a transaction that is judged first and then applied, and the reply.
fn after_tx(alloc: Global, s: LedgerState, tx: &Tx) -> Result<(LedgerState, Reply), Stop>
    requires within { tx_limits.is_within_limits tx.now ≡ true }
{
    match judged(alloc, &s, tx) {
        Ok(changes) => Ok(accepted(s, changes, tx)?),
        Err(TxFault::Refused(rule)) => Ok((s, Reply::Refused(rule))),
        Err(TxFault::NoMemory) => {
            drop(s);
            Err(Stop::NoMemory)
        }
    }
}

/// The state after a reward update, and the reply.
fn after_rewards(s: LedgerState, update: &Rewards) -> Result<(LedgerState, Reply), Stop>
    requires within { is_within_limits (Record.Rewards update.now) ≡ true }
{
    Ok(s.rewards(update)?)
}

/// How many entries are counted.
fn counted(pulser: &Pulser) -> u64 {
    match pulser {
        Pulser::Counting(counting) => counting.done(),
        Pulser::Counted(counted) => counted.total(),
    }
}

fn drep(byte: u8) -> Drep {
    let mut hash = [0; 28];
    hash[27] = byte;
    Drep::Registered(Credential {
        hash,
        kind: CredKind::Key,
    })
}

fn stakes(pulser: &Pulser) -> Sums {
    let (first, second) = (drep(0x30), drep(0x31));
    match pulser {
        Pulser::Counting(counting) => {
            Sums::Part([counting.partial(&first), counting.partial(&second)])
        }
        Pulser::Counted(counted) => Sums::Whole([counted.stake(&first), counted.stake(&second)]),
    }
}

/// The state of a genesis.
pub fn begun<S: Changed>(alloc: Global, line: Line) -> Result<S, Stop> {
    let bytes = bytes_of(alloc, line)?;
    match read_record(alloc, bytes.as_slice())? {
        Record::Genesis(genesis) => S::begin(alloc, genesis.get()),
        Record::Block { .. } | Record::Rewards(_) | Record::Tx(_) | Record::Print(_) => {
            Err(Stop::Unreadable)
        }
    }
}

/// The state after the record of a line, and the reply.
pub fn after_line<S: Changed + Drop>(alloc: Global, s: S, line: Line) -> Result<(S, Reply), Stop> {
    let bytes = bytes_of(alloc, line)?;
    let record = read_record(alloc, bytes.as_slice())?;
    s.after(alloc, &record)
}
