use byte_lines::LineFault;
use hash_seed::HashSeed;
use line_giver::LineGiver;
use replay_loop::RunState;
use std::alloc::Global;

/// A state that can be read from its checkpoint.
pub trait ResumedState: RunState {
    ghost use Rattle.std.specs.Prelude.{◌≡◌, ◌≤◌, Err, IfOk};
    ghost use Rattle.byte_lines.specs.Faults.{CountsFaults};
    ghost use Rattle.line_giver.specs.Giving.{PassesSome};
    ghost use Rattle.resume_loop.specs.Heads.{ReadsCheckpoint};

    /// Passes the lines up to and with the first `end`, or all lines. If they are a checkpoint,
    /// returns its state and the number of the line after which it was made. An error is that of
    /// the giver, or `NoMemory`; some lines may be passed before it. No clause depends on the
    /// seed of the hash tables or the number of workers.
    fn read_checkpoint<G: LineGiver>(
        alloc: Global,
        seed: HashSeed,
        workers: u32,
        giver: &mut G,
    ) -> Result<Option<(Self, u64)>, LineFault>
        requires some { 1 ≤ workers }
        requires few { workers ≤ 64 }
        ensures reads { IfOk result (ReadsCheckpoint Self.world (G.passed giver.old) (G.passed giver.new) (G.giving giver.old) (G.giving giver.new)) }
        ensures passes { PassesSome (G.passed giver.old) (G.passed giver.new) (G.giving giver.old) (G.giving giver.new) }
        ensures over { result ≡ Err LineFault.TooMuch → G.IsOver giver.new }
        ensures counts { CountsFaults (result ≡ Err LineFault.ReadFault) (G.faults giver.old) (G.faults giver.new) };
}
