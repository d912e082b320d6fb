//! States that records change and boundaries end, and what is seen of them.
ghost use Rattle.std.specs.Prelude.{◌≡◌, ◌<◌, ◌^◌, true};
ghost use Rattle.tx_records.specs.RecordLimits.{is_within_limits};
ghost use Rattle.tx_records.specs.TxLimits as tx_limits;

use crate::lines::{Line, bytes_of};
use epoch_rule::cross;
use gov_ids::{CredKind, Credential};
use hash_seed::HashSeed;
use ledger_state::LedgerState;
use live_ledger::{Draft, GenesisFault};
use no_memory::NoMemory;
use par_count::OpenGate;
use record_read::{RecordFault, read_record};
use report::LineList;
use shortfall::{close, least, put_shortfall, short_text};
use std::alloc::Global;
use std::thread::Threads;
use thiserror::Error;
use tx_records::{EpochReport, Genesis, Pots, Record, Reply, Rewards, Rule, Tx};
use tx_rule::apply_tx;
use vote_rules::check;

/// Why there is no state.
#[derive(Clone, Copy, Debug, Error)]
pub enum Stop {
    #[error("the line is no record")]
    Unreadable,
    #[error("the record is refused, or none of those that are told")]
    NotTaken,
    #[error("memory ran out")]
    NoMemory,
}

impl From<NoMemory> for Stop {
    fn from(_error: NoMemory) -> Stop {
        Stop::NoMemory
    }
}

impl From<RecordFault> for Stop {
    fn from(_error: RecordFault) -> Stop {
        Stop::Unreadable
    }
}

/// How many workers share a count.
pub const WORKERS: u32 = 3;

/// A state that records change and a boundary ends. Loops are over any, so that their proofs do not
/// open the ledger.
pub trait Changed: Sized {
    ghost use Rattle.std.specs.Prelude.{◌≡◌, true};
    ghost use Rattle.tx_records.specs.GenesisLimits as genesis_limits;
    ghost use Rattle.tx_records.specs.RecordLimits as record_limits;
    ghost use Rattle.tx_records.specs.TxLimits as tx_limits;

    /// The state of a genesis.
    fn begin(alloc: Global, genesis: &Genesis) -> Result<Self, Stop>
        requires within { genesis_limits.is_within_limits genesis.now ≡ true };

    /// The state after a transaction or a reward update, which is accepted.
    fn after(self, alloc: Global, told: &Record) -> Result<Self, Stop>
        requires within { record_limits.is_within_limits told.now ≡ true };

    /// The rule on votes that a transaction breaks first, by its draft before any change.
    fn check_votes(&self, alloc: Global, tx: &Tx) -> Result<(), Rule>
        requires within { tx_limits.is_within_limits tx.now ≡ true };

    /// The pots.
    fn pots(&self) -> Pots;

    /// How many of the cold keys 60 and 70 have a hot key, mark's total stake, the noted fees, how
    /// many proposals are live, the last byte of the constitution's document, the major version.
    fn parts(&self) -> [u64; 6];

    /// The lines of what all its frozen proposals lack, in order of priority.
    fn lacks(self, alloc: Global) -> Result<Vec<u8>, Stop>;

    /// The lines of what each lacks, by calls of its own, in order of submission.
    fn lacks_each(self, alloc: Global) -> Result<Vec<u8>, Stop>;
}

impl Changed for LedgerState {
    fn begin(alloc: Global, genesis: &Genesis) -> Result<LedgerState, Stop> {
        match LedgerState::from_genesis(alloc, HashSeed::new(1, 2), genesis, WORKERS) {
            Ok(s) => Ok(s),
            Err(GenesisFault::Broken(_)) => Err(Stop::NotTaken),
            Err(GenesisFault::NoMemory) => Err(Stop::NoMemory),
        }
    }

    fn after(self, alloc: Global, told: &Record) -> Result<LedgerState, Stop> {
        match told {
            Record::Rewards(update) => after_rewards(self, update),
            Record::Tx(tx) => after_tx(alloc, self, tx.get()),
            Record::Genesis(_) | Record::Block { .. } | Record::Print(_) => {
                drop(self);
                Err(Stop::NotTaken)
            }
        }
    }

    fn check_votes(&self, alloc: Global, tx: &Tx) -> Result<(), Rule> {
        check(&Draft::new(alloc, self.live()), tx)
    }

    fn pots(&self) -> Pots {
        self.pots()
    }

    fn parts(&self) -> [u64; 6] {
        let state = self.state();
        [
            hot_keys(self),
            marked(self),
            self.snapshots().fees,
            self.proposals().len(),
            u64::from(state.document[31]),
            u64::from(state.version.0),
        ]
    }

    fn lacks(self, alloc: Global) -> Result<Vec<u8>, Stop> {
        lacks_of_all(alloc, self)
    }

    fn lacks_each(self, alloc: Global) -> Result<Vec<u8>, Stop> {
        lacks_of_each(alloc, self)
    }
}

/// Adds lines to a text.
pub fn add_lines(text: &mut Vec<u8>, lines: &[Vec<u8>]) -> Result<(), NoMemory> {
    for line in lines {
        text.extend_from_slice(line.as_slice())?;
    }
    Ok(())
}

/// What all frozen proposals lack, as if the first line of a stream came to it.
fn lacks_of_all(alloc: Global, s: LedgerState) -> Result<Vec<u8>, Stop> {
    let mut list = LineList::new(alloc);
    let mut line = Vec::new(alloc);
    if put_shortfall(alloc, &mut list, &mut line, 1, s).is_err() {
        return Err(Stop::NoMemory);
    }
    let mut text = Vec::new(alloc);
    let lines = list.into_lines();
    add_lines(&mut text, lines.as_slice())?;
    Ok(text)
}

/// The same of each by itself.
fn lacks_of_each(alloc: Global, s: LedgerState) -> Result<Vec<u8>, Stop> {
    let (frozen, counted) = close(s);
    let mut text = Vec::new(alloc);
    let proposals = frozen.proposals.as_slice();
    for i in 0..proposals.len() {
        let short = least(alloc, &frozen, &counted, &proposals[i])?;
        let lines = short_text(alloc, 1, &proposals[i].id, &short)?;
        add_lines(&mut text, lines.as_slice())?;
    }
    Ok(text)
}

/// The state after its epoch's boundary, which workers share, and what the boundary reports.
pub fn crossed<R: Threads + Sync>(
    alloc: Global,
    rt: &R,
    s: LedgerState,
) -> Result<(LedgerState, EpochReport), Stop> {
    if s.epoch() < 1 << 62 {
        Ok(cross(alloc, rt, s, WORKERS, &OpenGate)?)
    } else {
        drop(s);
        Err(Stop::NotTaken)
    }
}

/// The state after what was accepted.
fn accepted(s: LedgerState, reply: Reply) -> Result<LedgerState, Stop> {
    match reply {
        Reply::Accepted => Ok(s),
        Reply::AcceptedFailedScripts | Reply::Refused(_) => {
            drop(s);
            Err(Stop::NotTaken)
        }
    }
}

/// The state after a transaction, which is accepted.
fn after_tx(alloc: Global, s: LedgerState, tx: &Tx) -> Result<LedgerState, Stop>
    requires within { tx_limits.is_within_limits tx.now ≡ true }
{
    let (next, reply) = apply_tx(alloc, s, tx)?;
    accepted(next, reply)
}

/// The state after a reward update, which is accepted.
fn after_rewards(s: LedgerState, update: &Rewards) -> Result<LedgerState, Stop>
    requires within { is_within_limits (Record.Rewards update.now) ≡ true }
{
    let (next, reply) = s.rewards(update)?;
    accepted(next, reply)
}

fn key(byte: u8) -> Credential {
    let mut hash = [0; 28];
    hash[27] = byte;
    Credential {
        hash,
        kind: CredKind::Key,
    }
}

fn hot_keys(s: &LedgerState) -> u64 {
    let hot = s.hot();
    u64::from(hot.get(&key(0x60)).is_some()) + u64::from(hot.get(&key(0x70)).is_some())
}

fn marked(s: &LedgerState) -> u64 {
    let mut sum: u64 = 0;
    for (_pool, stake) in s.snapshots().mark.as_slice() {
        sum = sum.saturating_add(*stake);
    }
    sum
}

/// The state of a genesis.
pub fn begun<S: Changed>(alloc: Global, line: Line) -> Result<S, Stop> {
    let bytes = bytes_of(alloc, line)?;
    begun_by(alloc, bytes.as_slice())
}

/// The state of the genesis that these bytes are.
pub fn begun_by<S: Changed>(alloc: Global, bytes: &[u8]) -> Result<S, Stop> {
    match read_record(alloc, bytes)? {
        Record::Genesis(genesis) => S::begin(alloc, genesis.get()),
        Record::Block { .. } | Record::Rewards(_) | Record::Tx(_) | Record::Print(_) => {
            Err(Stop::Unreadable)
        }
    }
}

/// The state after the record of a line, which is accepted.
pub fn after_line<S: Changed + Drop>(alloc: Global, s: S, line: Line) -> Result<S, Stop> {
    let bytes = bytes_of(alloc, line)?;
    let record = read_record(alloc, bytes.as_slice())?;
    s.after(alloc, &record)
}

/// The state after these lines and the boundary behind them, and what the boundary reports.
pub fn after_epoch<S: Changed + Drop, F: Fn(S) -> Result<(S, EpochReport), Stop>>(
    alloc: Global,
    crossed: &F,
    first: S,
    lines: &[Line],
) -> Result<(S, EpochReport), Stop>
    requires { F.IsAlwaysCallable crossed.now }
{
    let mut s = first;
    for line in lines {
        s = after_line(alloc, s, *line)?;
    }
    crossed(s)
}

/// The rule on votes that the transaction of a line breaks first.
pub fn votes_refused<S: Changed>(alloc: Global, s: &S, line: Line) -> Result<Option<Rule>, Stop> {
    let bytes = bytes_of(alloc, line)?;
    match read_record(alloc, bytes.as_slice())? {
        Record::Tx(tx) => Ok(s.check_votes(alloc, tx.get()).err()),
        Record::Genesis(_) | Record::Block { .. } | Record::Rewards(_) | Record::Print(_) => {
            Err(Stop::Unreadable)
        }
    }
}
