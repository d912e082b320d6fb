ghost use Rattle.std.specs.Prelude.{◌≡◌, IfOk};
ghost use Rattle.undo_log.specs.Logs.{with_entry};

use byte_lines::SinkFault;
use follow_loop::FollowState;
use follow_view::of_ledger_state::LedgerState;
use follow_view::put_rolled;
use held_ledger::Held;
use listed::Boxed;
use no_memory::NoMemory;
use replay_loop::{AnswerFault, Outcome, RunState};
use report::LineTaker;
use std::alloc::Global;
use tx_records::Pots;
use undo_log::UndoLog;
use undo_records::Before;

/// What a run of `follow` holds between two records: the ledger, and the undo log of its epoch.
#[derive(Drop)]
pub struct Followed {
    pub(crate) held: Held,
    pub(crate) log: UndoLog,
}

/// The state after what was read and its outcome, or why there is no answer.
pub(crate) type Moved = Result<(Followed, Outcome), AnswerFault>;

impl Followed {
    /// A ledger, moved to the heap, with its log.
    pub(crate) fn of_parts(
        alloc: Global,
        ledger: LedgerState,
        log: UndoLog,
    ) -> Result<Followed, NoMemory>
        ensures ledger { IfOk result (λ s. s.held.ledger ≡ ledger) }
        ensures log { IfOk result (λ s. s.log ≡ log) }
    {
        match Boxed::new(alloc, ledger) {
            Ok(ledger) => Ok(Followed {
                held: Held { ledger },
                log,
            }),
            Err(_refused) => {
                drop(log);
                Err(NoMemory)
            }
        }
    }

    /// The ledger after a record whose old values these are, with the log of the ledger before it.
    pub(crate) fn logged(
        alloc: Global,
        ledger: LedgerState,
        log: UndoLog,
        old: Before,
    ) -> Result<Followed, NoMemory>
        ensures ledger { IfOk result (λ s. s.held.ledger ≡ ledger) }
        ensures log { IfOk result (λ s. s.log ≡ with_entry old log) }
    {
        let mut log = log;
        match log.push(old) {
            Ok(()) => Followed::of_parts(alloc, ledger, log),
            Err(error) => {
                drop((ledger, log));
                Err(error)
            }
        }
    }
}

impl RunState for Followed {
    ghost use Rattle.run_model.specs.World.{World};

    ghost world = { λ s. s.held.ledger };

    fn pots(&self) -> Pots {
        self.held.pots()
    }

    fn put_block<T: LineTaker>(
        &self,
        to: &mut T,
        text: &mut Vec<u8>,
        line: u64,
    ) -> Result<(), SinkFault> {
        self.held.put_block(to, text, line)
    }

    fn put_state<T: LineTaker>(
        &self,
        to: &mut T,
        text: &mut Vec<u8>,
        line: u64,
    ) -> Result<(), SinkFault> {
        self.held.put_state(to, text, line)
    }

    fn put_assets<T: LineTaker>(
        &self,
        to: &mut T,
        text: &mut Vec<u8>,
        line: u64,
    ) -> Result<(), SinkFault> {
        self.held.put_assets(to, text, line)
    }
}

impl FollowState for Followed {
    ghost use Rattle.following.specs.Follows.{Follows, follows_state};
    ghost use Rattle.follow_model.specs.Chain.{Chain};
    ghost use Rattle.run_model.specs.World.{World};

    ghost follows = { follows_state };

    ghost is_world = { λ s start c h. h.world };

    fn put_rolled<T: LineTaker>(
        &self,
        to: &mut T,
        text: &mut Vec<u8>,
        line: u64,
    ) -> Result<(), SinkFault> {
        put_rolled(to, text, line, self.held.ledger())
    }
}
