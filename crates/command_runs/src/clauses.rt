ghost use Rattle.command_runs.specs.Clauses.{CertifiesFollow, ChecksFollow, CompleteFollows, ExplainsFollow, FaultsFollow, FollowsFollow, LoadsFollow, ReplaysFollow, ResumesFollow, TellsFollow, UnreadFollows, UsageFollows};
ghost use Rattle.replay_loop.specs.Ports.{Ports};
ghost use Rattle.replay_loop.specs.Statuses.{NumbersTell};

use byte_lines::whole_lines;
use certificate_laws::certificates_are_right;

/// What a run of the program comes to, clause by clause: each follows from `RunsAs`, whatever is
/// seen of a source and a sink. It does nothing.
pub fn run_clauses<S, K>()
    ghost ports: { Ports S K }
    ensures usage { UsageFollows ports }
    ensures unread { UnreadFollows ports }
    ensures replays { ReplaysFollow ports }
    ensures loads { LoadsFollow ports }
    ensures tells { TellsFollow ports }
    ensures explains { ExplainsFollow ports }
    ensures follows { FollowsFollow ports }
    ensures certifies { CertifiesFollow ports }
    ensures resumes { ResumesFollow ports }
    ensures checks { ChecksFollow ports }
    ensures faults { FaultsFollow ports }
    ensures complete { CompleteFollows ports }
    ensures numbers { NumbersTell }
{
    // (laws: how bytes are cut into lines)
    whole_lines();
    // (laws: how an explanation ends, a followed stream, and a resumed one)
    explain_loop::laws();
    follow_loop::laws();
    resume_laws::laws();
    // (laws: the text of a run that is done, and that its certificates are right)
    replay_loop::laws();
    certificates_are_right();
}
