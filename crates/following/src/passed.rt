//! What leaves no old values: it is answered as in a replay, and the log stays.
ghost use Rattle.std.specs.Prelude.{◌≡◌, ◌≤◌, true};
ghost use Rattle.following.specs.Moves.{PassesOn};
ghost use Rattle.record_stream.specs.Records.{is_within};

use crate::followed::{Followed, Moved};
use held_ledger::{Crew, answer};
use par_count::Gate;
use std::thread::Threads;
use tx_records::Reading;

/// The state after what was read, answered as in a replay, with the same log.
pub(crate) fn passed_on<T: Threads + Sync, G: Gate + Sync>(
    crew: &Crew<T, G>,
    workers: u32,
    state: Followed,
    reading: &Reading,
) -> Moved
    requires within { is_within reading.now ≡ true }
    requires some { 1 ≤ workers }
    requires few { workers ≤ 64 }
    ensures { PassesOn state.held.ledger state.log reading.now result }
{
    let Followed { held, log } = state;
    match answer(crew, workers, Some(held), reading) {
        Ok((held, outcome)) => Ok((Followed { held, log }, outcome)),
        Err(fault) => {
            drop(log);
            Err(fault)
        }
    }
}
