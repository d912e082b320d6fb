use byte_lines::SinkFault;
use replay_loop::RunState;
use report::LineTaker;

/// What a run of `follow` holds between two records: a ledger, and what takes its records back.
/// The loop is written over any, so that its proof opens no part of them.
pub trait FollowState: RunState {
    ghost use Rattle.std.specs.Prelude.{◌≡◌, [], ◌∷◌};
    ghost use Rattle.follow_model.specs.Chain.{Chain, world_of_chain};
    ghost use Rattle.follow_model.specs.FollowLines.{rolled_words};
    ghost use Rattle.report.specs.Taking.{HasPut};
    ghost use Rattle.run_model.specs.World.{World};

    // it is the state of a stream that began with this World and has this chain
    // it may hold less than the chain
    ghost follows: { Self → World → Chain → Type 0 };

    /// Hands over the line of an accepted rollback that left it.
    fn put_rolled<T: LineTaker>(
        &self,
        to: &mut T,
        text: &mut Vec<u8>,
        line: u64,
    ) -> Result<(), SinkFault>
        ensures { HasPut T.with_line T.IsPart line (T.taken to.old) (rolled_words (Self.world self.now) ∷ []) (T.taken to.new)
            (T.faults to.old) (T.faults to.new) result };

    // its World is that of the chain
    ghost is_world: { (state : Self) (start : World) (c : Chain) → follows state start c → Self.world state ≡ world_of_chain start c };
}
