use byte_lines::SinkFault;
use replay_loop::RunState;
use report::LineTaker;
use std::alloc::Global;
use tx_records::Record;

/// A state of a run that can say every rule that a record would break over it.
pub trait ExplainedState: RunState {
    ghost use Rattle.std.specs.Prelude.{◌≡◌, map, true};
    ghost use Rattle.explain_print.specs.of_explain_model.Broken.{broken_by};
    ghost use Rattle.explain_print.specs.of_explain_model.Explained.{rule_words};
    ghost use Rattle.report.specs.Taking.{HasPut};
    ghost use Rattle.tx_records.specs.RecordLimits.{is_within_limits};

    /// Hands over a line for each rule that the record breaks, in order. It changes nothing.
    fn put_broken<T: LineTaker>(
        &self,
        alloc: Global,
        record: &Record,
        to: &mut T,
        text: &mut Vec<u8>,
        line: u64,
    ) -> Result<(), SinkFault>
        requires { is_within_limits «record».now ≡ true }
        ensures { HasPut T.with_line T.IsPart line (T.taken to.old)
            (map rule_words (broken_by (Self.world self.now) «record».now)) (T.taken to.new)
            (T.faults to.old) (T.faults to.new) result };
}
