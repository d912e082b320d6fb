use bare_lines::of_report::LineTaker;
use byte_lines::{Sink, SinkFault};
use line_runs::gather;

/// Takes the lines of a record, and gathers them for the sink.
#[derive(Drop)]
pub struct Through<'a, K: Sink> {
    pub batch: &'a mut Vec<u8>,
    pub sink: &'a mut K,
}

impl<K: Sink> LineTaker for Through<'_, K> {
    ghost use Rattle.gathered_lines.specs.Through.{IsLinePart, Waiting, with_line};

    ghost Taken = { Waiting };

    ghost taken = { λ t. record {
      gathered = record { taken = K.taken t.sink.now; batch = t.batch.now.items };
      batch_name = t.batch.ghost_name;
      sink_name = t.sink.ghost_name;
    } };

    ghost with_line = { with_line };

    ghost IsPart = { IsLinePart };

    ghost faults = { λ t. K.faults t.sink.now };

    fn take(&mut self, line: &[u8]) -> Result<(), SinkFault> {
        gather(self.batch, self.sink, line)
    }
}
