ghost use Rattle.std.specs.Prelude.{◌≡◌};
ghost use Rattle.ledger_state.specs.Parts.{world_of_parts};
ghost use Rattle.ledger_state.specs.Worlds.{IsHeldBy};

use super::LedgerState;
use drep_pulser::Pulser;
use epoch_start::of_ledger_books::Books;
use listed::Boxed;
use live_ledger::LiveLedger;
use snapshots::Frozen;
use std::alloc::Global;

impl LedgerState {
    /// The books, the frozen copy and the count, of which the state can be made again.
    /// It takes no memory.
    pub fn into_books(self) -> (Books, Frozen, Pulser)
        ensures world { world_of_parts result.0 result.1 result.2 ≡ self }
        ensures held { IsHeldBy self result.1 result.2 }
    {
        let LedgerState {
            alloc: _,
            live,
            snapshots,
            pending,
            frozen,
            pulser,
        } = self;
        let books = live.into_books(snapshots, pending);
        (books, frozen.into_value(), pulser)
    }

    /// The state of these parts. It takes no memory.
    pub fn from_books(alloc: Global, b: Box<Books>, f: Boxed<Frozen>, p: Pulser) -> LedgerState
        requires { IsHeldBy (world_of_parts b.value f p) f p }
        ensures { result ≡ world_of_parts b.value f p }
    {
        let (live, snapshots, pending) = LiveLedger::of_books(alloc, b);
        LedgerState {
            alloc,
            live,
            snapshots,
            pending,
            frozen: f,
            pulser: p,
        }
    }
}
