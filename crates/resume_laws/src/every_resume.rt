ghost use Rattle.resume_laws.specs.Laws.{CheckpointIsCut, CutRunIsWhole, DoneResumeIsWhole, ResumeIsComplete, RunIsResumed, RunLeavesCheckpoint};

use byte_lines::whole_lines;
use checkpoint_text_laws::checkpoint_is_cut;
use stream_laws::bytes_are_resumable;
use stream_laws::of_further_laws::replay_is_resumed;

/// What holds of every run that is cut in two and resumed. It does nothing.
pub fn laws()
    ensures resumed { RunIsResumed }
    ensures checkpoint { RunLeavesCheckpoint }
    ensures cut { CheckpointIsCut }
    ensures whole { DoneResumeIsWhole }
    ensures run { CutRunIsWhole }
    ensures complete { ResumeIsComplete }
{
    // (laws: how bytes are cut into lines)
    whole_lines();
    checkpoint_is_cut();
    replay_is_resumed();
    bytes_are_resumable();
}
