//! The lines, one after another, to whoever takes them.
ghost use Rattle.std.specs.Prelude.{[], ◌∷◌};
ghost use Rattle.report.specs.Taking.{HasPut};
ghost use Rattle.text_model.specs.Replies.{block_words};
ghost use Rattle.text_model.specs.StateLines.{asset_lines, state_lines};

use crate::block::BlockLine;
use crate::view::view_of;
use byte_lines::SinkFault;
use ledger_state::LedgerState;
use report::{LineTaker, put_one};

/// Hands over the line of an accepted block that left this ledger.
pub fn put_block<T: LineTaker>(
    to: &mut T,
    text: &mut Vec<u8>,
    line: u64,
    state: &LedgerState,
) -> Result<(), SinkFault>
    ensures { HasPut T.with_line T.IsPart line (T.taken to.old) (block_words state.now ∷ []) (T.taken to.new)
        (T.faults to.old) (T.faults to.new) result }
{
    put_one(to, text, line, &BlockLine { state })
}

/// Hands over the lines of a print of this ledger.
pub fn put_state<T: LineTaker>(
    to: &mut T,
    text: &mut Vec<u8>,
    line: u64,
    state: &LedgerState,
) -> Result<(), SinkFault>
    ensures { HasPut T.with_line T.IsPart line (T.taken to.old) (state_lines state.now) (T.taken to.new)
        (T.faults to.old) (T.faults to.new) result }
{
    state_print::put_state(to, text, line, &view_of(state))
}

/// Hands over the lines of the native assets of this ledger's unspent outputs.
pub fn put_assets<T: LineTaker>(
    to: &mut T,
    text: &mut Vec<u8>,
    line: u64,
    state: &LedgerState,
) -> Result<(), SinkFault>
    ensures { HasPut T.with_line T.IsPart line (T.taken to.old) (asset_lines state.now) (T.taken to.new)
        (T.faults to.old) (T.faults to.new) result }
{
    state_print::put_assets(to, text, line, state.stake().outputs())
}
