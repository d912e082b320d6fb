ghost use Rattle.explain_loop.specs.Laws.{DoneExplainIsWhole, ExplainIsComplete, StoppedExplainIsWhole, TextIsExplained};

use byte_lines::whole_lines;
use explain_print::of_explain_model::of_record_notes::notes_are_of_records;

/// What holds of every explanation: its text, and when it comes to its end. It does nothing.
pub fn laws()
    ensures whole { DoneExplainIsWhole }
    ensures stopped { StoppedExplainIsWhole }
    ensures text { TextIsExplained }
    ensures complete { ExplainIsComplete }
{
    // (law: how bytes are cut into lines)
    whole_lines();
    // (law: what is noted changes no record)
    notes_are_of_records();
}
