ghost use Rattle.std.specs.Prelude.{◌≡◌, ◌≤◌, true};
ghost use Rattle.following.specs.Logged.{AreMarksPast};
ghost use Rattle.following.specs.Moves.{Moves};
ghost use Rattle.record_stream.specs.Records.{is_within};
ghost use Rattle.tx_records.specs.RecordLimits.{is_within_limits};
ghost use Rattle.tx_records.specs.declared.record.Reading.TheVariants as readings;

use crate::blocks::after_block;
use crate::followed::{Followed, Moved};
use crate::passed::passed_on;
use crate::transactions::{after_rewards, after_tx};
use held_ledger::Crew;
use par_count::Gate;
use std::thread::Threads;
use tx_records::{Reading, Record};

/// The state after what was read of a line that is no rollback.
pub(crate) fn after_reading<T: Threads + Sync, G: Gate + Sync>(
    crew: &Crew<T, G>,
    workers: u32,
    state: Followed,
    reading: &Reading,
) -> Moved
    requires within { is_within reading.now ≡ true }
    requires some { 1 ≤ workers }
    requires few { workers ≤ 64 }
    requires past { AreMarksPast state.held.ledger state.log }
    ensures { Moves state.held.ledger state.log reading.now result }
{
    match reading {
        Reading::Read(found) => after_record(crew, workers, state, reading, found),
        Reading::Malformed { .. } | Reading::TooLong => passed_on(crew, workers, state, reading),
    }
}

/// The state after the record that was read.
fn after_record<T: Threads + Sync, G: Gate + Sync>(
    crew: &Crew<T, G>,
    workers: u32,
    state: Followed,
    reading: &Reading,
    found: &Record,
) -> Moved
    requires within { is_within_limits found.now ≡ true }
    requires is { reading.now ≡ readings.Read found.now }
    requires some { 1 ≤ workers }
    requires few { workers ≤ 64 }
    requires past { AreMarksPast state.held.ledger state.log }
    ensures { Moves state.held.ledger state.log reading.now result }
{
    match found {
        Record::Tx(tx) => after_tx(crew.alloc, state, tx.get()),
        Record::Rewards(update) => after_rewards(crew.alloc, state, found, update),
        Record::Block { slot, pulse } => after_block(crew, workers, state, *slot, *pulse),
        Record::Genesis(_) | Record::Print(_) => passed_on(crew, workers, state, reading),
    }
}
