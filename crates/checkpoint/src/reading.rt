ghost use Rattle.std.specs.Prelude.{◌≡◌, ◌≤◌, Err, IfOk};
ghost use Rattle.checkpoint_model.specs.Resumed.{IsCheckpoint, IsNoCheckpoint};
ghost use Rattle.line_giver.specs.OfList.{texts_of};
ghost use Rattle.checkpoint.specs.Only.{IsOfNoOther};

use crate::fault::CheckpointFault;
use hash_seed::HashSeed;
use ledger_state::LedgerState;
use line_giver::ListedLines;
use resumed_ledger::ledger_of_lists;
use state_reader::read_sound;
use std::alloc::Global;

/// The ledger of a checkpoint, which counts for so many workers, and the number of the line after
/// which the checkpoint was made: no other ledger or line has this text. Each line is given without
/// its line feed. `Bad`: they are the checkpoint of no ledger and line.
pub fn read(
    alloc: Global,
    seed: HashSeed,
    lines: &[Vec<u8>],
    workers: u32,
) -> Result<(LedgerState, u64), CheckpointFault>
    requires some { 1 ≤ workers }
    requires few { workers ≤ 64 }
    ensures made { IfOk result (λ r. IsCheckpoint (texts_of lines.now) r.0 r.1) }
    ensures only { IfOk result (λ r. IsOfNoOther (texts_of lines.now) r.0 r.1) }
    ensures bad { result ≡ Err CheckpointFault.Bad → IsNoCheckpoint (texts_of lines.now) }
{
    let mut giver = ListedLines {
        lines,
        is_seen: false,
    };
    let Ok(read) = read_sound(alloc, &mut giver) else {
        return Err(CheckpointFault::NoMemory);
    };
    let Some((lists, line)) = read else {
        return Err(CheckpointFault::Bad);
    };
    if !giver.lines.is_empty() {
        return Err(CheckpointFault::Bad);
    }
    let ledger = ledger_of_lists(alloc, seed, lists, workers)?;
    Ok((ledger, line))
}
