//! The ledger of a run that goes on from a checkpoint.
ghost use Rattle.std.specs.Prelude.{◌≡◌, ◌≤◌, IfOk, option_map, true};
ghost use Rattle.checkpoint_model.specs.Resumable.{IsResumable};
ghost use Rattle.record_stream.specs.Records.{is_within};
ghost use Rattle.replay_loop.specs.Answers.{AnswersAs};
ghost use Rattle.state_lists.specs.Worlds.{world_of_lists};

use byte_lines::{LineFault, SinkFault};
use hash_seed::HashSeed;
use held_ledger::{Crew, Held, answer};
use line_giver::LineGiver;
use listed::Boxed;
use no_memory::NoMemory;
use par_count::Gate;
use replay_loop::{Answered, RunState};
use report::LineTaker;
use resume_loop::ResumedState;
use resumed_ledger::ledger_of_lists;
use state_lists::StateLists;
use state_reader::read_sound;
use std::alloc::Global;
use std::thread::Threads;
use tx_records::{Pots, Reading};

/// The ledger that such a run holds.
#[derive(Drop)]
pub(crate) struct Resumed {
    pub(crate) held: Held,
}

/// The ledger of these lists.
fn resumed_of(
    alloc: Global,
    seed: HashSeed,
    lists: StateLists,
    workers: u32,
) -> Result<Resumed, NoMemory>
    requires some { 1 ≤ workers }
    requires few { workers ≤ 64 }
    requires sound { IsResumable (world_of_lists lists) }
    ensures { IfOk result (λ r. r.held.ledger ≡ world_of_lists lists) }
{
    let ledger = ledger_of_lists(alloc, seed, lists, workers)?;
    let ledger = Boxed::new(alloc, ledger)?;
    Ok(Resumed {
        held: Held { ledger },
    })
}

/// The ledger after what was read, and its outcome.
pub(crate) fn answer_resumed<T: Threads + Sync, G: Gate + Sync>(
    crew: &Crew<T, G>,
    workers: u32,
    before: Option<Resumed>,
    reading: &Reading,
) -> Answered<Resumed>
    requires within { is_within reading.now ≡ true }
    requires some { 1 ≤ workers }
    requires few { workers ≤ 64 }
    ensures { AnswersAs (λ r. r.held.ledger) (option_map (λ r. r.held.ledger) before) reading.now result }
{
    let before = match before {
        Some(resumed) => Some(resumed.held),
        None => None,
    };
    let (held, outcome) = answer(crew, workers, before, reading)?;
    Ok((Resumed { held }, outcome))
}

impl RunState for Resumed {
    ghost use Rattle.run_model.specs.World.{World};

    ghost world = { λ r. r.held.ledger };

    fn pots(&self) -> Pots {
        self.held.pots()
    }

    fn put_block<T: LineTaker>(
        &self,
        to: &mut T,
        text: &mut Vec<u8>,
        line: u64,
    ) -> Result<(), SinkFault> {
        self.held.put_block(to, text, line)
    }

    fn put_state<T: LineTaker>(
        &self,
        to: &mut T,
        text: &mut Vec<u8>,
        line: u64,
    ) -> Result<(), SinkFault> {
        self.held.put_state(to, text, line)
    }

    fn put_assets<T: LineTaker>(
        &self,
        to: &mut T,
        text: &mut Vec<u8>,
        line: u64,
    ) -> Result<(), SinkFault> {
        self.held.put_assets(to, text, line)
    }
}

impl ResumedState for Resumed {
    fn read_checkpoint<G: LineGiver>(
        alloc: Global,
        seed: HashSeed,
        workers: u32,
        giver: &mut G,
    ) -> Result<Option<(Resumed, u64)>, LineFault> {
        let Some((lists, line)) = read_sound(alloc, giver)? else {
            return Ok(None);
        };
        let resumed = resumed_of(alloc, seed, lists, workers)?;
        Ok(Some((resumed, line)))
    }
}
