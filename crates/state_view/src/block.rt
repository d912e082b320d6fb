//! The line of a block.
ghost use Rattle.std.specs.Prelude.{◌≡◌};
ghost use Rattle.drep_pulser.specs.Pulsers.{done_by, total_of_pulser};

use drep_pulser::Pulser;
use ledger_state::LedgerState;
use no_memory::NoMemory;
use report::{Printed, push_block_line};

/// The line of an accepted block that left this ledger.
#[derive(Drop)]
pub(crate) struct BlockLine<'a> {
    pub(crate) state: &'a LedgerState,
}

impl<'a> Printed for BlockLine<'a> {
    ghost use Rattle.text_model.specs.Replies.{block_words};

    ghost words = { λ b. block_words b.state.now };

    fn push_line(&self, out: &mut Vec<u8>, line: u64) -> Result<(), NoMemory> {
        let (counted, entries) = progress_of(self.state.pulser());
        push_block_line(
            out,
            line,
            self.state.slot(),
            self.state.epoch(),
            counted,
            entries,
        )
    }
}

/// How many entries are counted, and how many there are.
fn progress_of(pulser: &Pulser) -> (u64, u64)
    ensures counted { result.0 ≡ done_by pulser.now }
    ensures entries { result.1 ≡ total_of_pulser pulser.now }
{
    match pulser {
        Pulser::Counting(counting) => (counting.done(), counting.total()),
        Pulser::Counted(counted) => (counted.total(), counted.total()),
    }
}
