use crate::fault::CheckpointFault;
use byte_lines::SinkFault;
use explain_loop::ExplainedState;
use hash_seed::HashSeed;
use no_memory::NoMemory;
use replay_loop::{Answered, LastState};
use report::LineTaker;
use std::alloc::Global;
use tx_records::{Reading, Reply};

/// A state of a run that answers records without threads.
/// The sessions are over any, so that their proof opens no part of the ledger.
pub trait SessionState: LastState + ExplainedState {
    ghost use Rattle.std.specs.Prelude.{◌≡◌, Err, IfOk, option_map, true};
    ghost use Rattle.bare_lines.specs.Bare.{bare, bare_part};
    ghost use Rattle.embedded.specs.Only.{IsOfNoOther};
    ghost use Rattle.checkpoint_model.specs.Checkpoint.{checkpoint_lines};
    ghost use Rattle.checkpoint_model.specs.Resumed.{IsCheckpoint, IsNoCheckpoint};
    ghost use Rattle.embedded.specs.Verdicts.{reply_to};
    ghost use Rattle.line_giver.specs.OfList.{texts_of};
    ghost use Rattle.record_stream.specs.Records.{is_within};
    ghost use Rattle.replay_loop.specs.Answers.{AnswersAs};
    ghost use Rattle.report.specs.Taking.{HasPut};

    /// The state after what was read, and its outcome; there is no state before the genesis. The
    /// seed is of its hash tables; no clause depends on it.
    fn answer_alone(
        alloc: Global,
        seed: HashSeed,
        before: Option<Self>,
        reading: &Reading,
    ) -> Answered<Self>
        requires within { is_within reading.now ≡ true }
        ensures { AnswersAs Self.world (option_map Self.world before) reading.now result };

    /// The reply that would be given to what was read.
    fn reply_alone(&self, alloc: Global, reading: &Reading) -> Result<Reply, NoMemory>
        requires within { is_within reading.now ≡ true }
        ensures { IfOk result (λ reply. reply ≡ reply_to (Self.world self.now) reading.now) };

    /// Hands over its checkpoint behind the line of this number, in lines without numbers.
    fn show_checkpoint<T: LineTaker>(
        &self,
        line: u64,
        to: &mut T,
        text: &mut Vec<u8>,
    ) -> Result<(), SinkFault>
        ensures { HasPut (bare T.with_line) (bare_part T.IsPart) 0 (T.taken to.old) (checkpoint_lines (Self.world self.now) line) (T.taken to.new)
            (T.faults to.old) (T.faults to.new) result };

    /// The state of a checkpoint, and the number of the line behind which that was made. Each line
    /// is given without its line feed. `Bad`: they are the checkpoint of no state.
    fn of_checkpoint(
        alloc: Global,
        seed: HashSeed,
        lines: &[Vec<u8>],
    ) -> Result<(Self, u64), CheckpointFault>
        ensures made { IfOk result (λ r. IsCheckpoint (texts_of lines.now) (Self.world r.0) r.1) }
        ensures only { IfOk result (λ r. IsOfNoOther (texts_of lines.now) (Self.world r.0) r.1) }
        ensures bad { result ≡ Err CheckpointFault.Bad → IsNoCheckpoint (texts_of lines.now) };
}
