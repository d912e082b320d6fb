ghost use Rattle.std.specs.Prelude.{◌≡◌, ◌≤◌, Option, Some, None, true};
ghost use Rattle.follow_loop.specs.Answers.{BeginsFollow, FollowAnswers, FollowsOn, IsSomewhere};
ghost use Rattle.follow_loop.specs.Readings.{is_reading_within};
ghost use Rattle.following.specs.Follows.{follows_state};
ghost use Rattle.following.specs.Begins.{BeginsLogged};
ghost use Rattle.following.specs.Logged.{AreMarksPast};
ghost use Rattle.following.specs.Moves.{GoesOn};
ghost use Rattle.record_stream.specs.Records.{is_within};

use crate::followed::Followed;
use crate::readings::after_reading;
use crate::rollback::after_rollback;
use follow_loop::{FollowAnswered, FollowOutcome};
use follow_records::{FollowReading, FollowRecord};
use held_ledger::{Crew, answer};
use par_count::Gate;
use replay_loop::{AnswerFault, GenesisCause};
use std::thread::Threads;
use tx_records::Reading;
use undo_log::UndoLog;

/// The state after what was read of a stream with rollbacks, and its outcome; there is no state
/// before the genesis. `workers` share the counts.
pub fn answer_followed<T: Threads + Sync, G: Gate + Sync>(
    crew: &Crew<T, G>,
    workers: u32,
    before: Option<Followed>,
    reading: FollowReading,
) -> FollowAnswered<Followed>
    requires within { is_reading_within reading ≡ true }
    requires some { 1 ≤ workers }
    requires few { workers ≤ 64 }
    requires somewhere { IsSomewhere follows_state before }
    ensures { FollowAnswers follows_state before reading result }
{
    match before {
        Some(state) => go_on(crew, workers, state, reading),
        None => begin(crew, workers, reading),
    }
}

/// The state of what was read first, if it is a genesis.
fn begin<T: Threads + Sync, G: Gate + Sync>(
    crew: &Crew<T, G>,
    workers: u32,
    reading: FollowReading,
) -> FollowAnswered<Followed>
    requires within { is_reading_within reading ≡ true }
    requires some { 1 ≤ workers }
    requires few { workers ≤ 64 }
    ensures { BeginsFollow follows_state reading result }
{
    match reading {
        FollowReading::Read(FollowRecord::Plain(record)) => {
            begin_with(crew, workers, &Reading::Read(record))
        }
        FollowReading::Read(FollowRecord::Rollback { .. }) => {
            Err(AnswerFault::BadGenesis(GenesisCause::NoGenesis))
        }
        FollowReading::Malformed { what, place } => {
            begin_with(crew, workers, &Reading::Malformed { what, place })
        }
        FollowReading::TooLong => begin_with(crew, workers, &Reading::TooLong),
    }
}

/// The ledger of what was read first, with an empty log, if it is a genesis.
fn begin_with<T: Threads + Sync, G: Gate + Sync>(
    crew: &Crew<T, G>,
    workers: u32,
    reading: &Reading,
) -> FollowAnswered<Followed>
    requires within { is_within reading.now ≡ true }
    requires some { 1 ≤ workers }
    requires few { workers ≤ 64 }
    ensures { BeginsLogged reading.now result }
{
    let (held, outcome) = answer(crew, workers, None, reading)?;
    let log = UndoLog::new(crew.alloc);
    Ok((Followed { held, log }, FollowOutcome::Plain(outcome)))
}

/// The state after what was read, where there is one before.
fn go_on<T: Threads + Sync, G: Gate + Sync>(
    crew: &Crew<T, G>,
    workers: u32,
    state: Followed,
    reading: FollowReading,
) -> FollowAnswered<Followed>
    requires within { is_reading_within reading ≡ true }
    requires some { 1 ≤ workers }
    requires few { workers ≤ 64 }
    requires somewhere { IsSomewhere follows_state (Some state) }
    ensures { FollowsOn follows_state state reading result }
{
    // (law: its marks are in order)
    state.log.is_in_order();
    match reading {
        FollowReading::Read(FollowRecord::Plain(record)) => {
            go_on_plainly(crew, workers, state, &Reading::Read(record))
        }
        FollowReading::Read(FollowRecord::Rollback { slot }) => {
            after_rollback(crew.alloc, state, slot)
        }
        FollowReading::Malformed { what, place } => {
            go_on_plainly(crew, workers, state, &Reading::Malformed { what, place })
        }
        FollowReading::TooLong => go_on_plainly(crew, workers, state, &Reading::TooLong),
    }
}

/// The state after what was read, unless it is a rollback.
fn go_on_plainly<T: Threads + Sync, G: Gate + Sync>(
    crew: &Crew<T, G>,
    workers: u32,
    state: Followed,
    reading: &Reading,
) -> FollowAnswered<Followed>
    requires within { is_within reading.now ≡ true }
    requires some { 1 ≤ workers }
    requires few { workers ≤ 64 }
    requires past { AreMarksPast state.held.ledger state.log }
    ensures { GoesOn state.held.ledger state.log reading.now result }
{
    let (after, outcome) = after_reading(crew, workers, state, reading)?;
    Ok((after, FollowOutcome::Plain(outcome)))
}
