//! Sinks take lines; what is written to one.
ghost use Rattle.std.specs.Prelude.{◌≡◌, ℕ, take, Err, OnErr, OnOk};
ghost use Rattle.std.specs.Io.KnownBytes.{append_known};
ghost use Rattle.byte_lines.specs.Faults.{CountsFaults};
ghost use Rattle.text_model.specs.EpochLines.{epoch_lines};
ghost use Rattle.text_model.specs.Runs.{text_of_lines};

use crate::boundaries::put_epoch;
use crate::lines::LineTaker;
use byte_lines::{Sink, SinkFault, put_all};
use text_model::of_tx_records::{EpochReport, Pots};

impl<K: Sink> LineTaker for K {
    ghost use Rattle.std.specs.Prelude.{ℕ, List, Option};
    ghost use Rattle.std.specs.Io.KnownBytes.{append_known};
    ghost use Rattle.report.specs.Sinks.{IsCut};

    ghost Taken = { Option (List ℕ) };

    ghost taken = { K.taken };

    ghost with_line = { append_known };

    ghost IsPart = { IsCut };

    ghost faults = { K.faults };

    fn take(&mut self, line: &[u8]) -> Result<(), SinkFault> {
        put_all(self, line)
    }
}

/// Writes the lines of a boundary to a sink, one after another, through the buffer. (Own)
pub fn write_epoch<K: Sink>(
    sink: &mut K,
    text: &mut Vec<u8>,
    line: u64,
    report: &EpochReport,
    pots: &Pots,
) -> Result<(), SinkFault>
    ensures ok { OnOk result (K.taken sink.new ≡
        append_known (K.taken sink.old) (text_of_lines line (epoch_lines report.now pots.now))) }
    ensures err { OnErr result ((k : ℕ) × (K.taken sink.new ≡
        append_known (K.taken sink.old) (take k (text_of_lines line (epoch_lines report.now pots.now))))) }
    ensures counts { CountsFaults (result ≡ Err SinkFault.WriteFault) (K.faults sink.old) (K.faults sink.new) }
{
    put_epoch(sink, text, line, report, pots)
}
