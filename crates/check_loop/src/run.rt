//! All texts of a source.
ghost use Rattle.std.specs.Prelude.{◌≡◌, ℕ, Err, List, Some};
ghost use Rattle.byte_lines.specs.Faults.{CountsFaults};
ghost use Rattle.check_loop.specs.Checked.{IsChecked};

use crate::answers::put_answer;
use crate::checker::TextChecker;
use crate::fault::CheckFault;
use crate::next::answer_next;
use byte_lines::{Lines, Sink, Source, whole_lines};
use std::alloc::Global;
use tx_records::limits::{LINE_LIMIT, STREAM_LIMIT};

/// Reads texts, each up to a line `end`, and writes `K yes` or `K no` for the K-th, before a
/// further line is asked for. What follows the last `end` is one more text.
pub fn answer_texts<C: TextChecker, S: Source, K: Sink>(
    alloc: Global,
    source: &mut S,
    sink: &mut K,
) -> Result<(), CheckFault>
    ensures checks { (bytes : List ℕ) → S.left source.old ≡ Some bytes →
        IsChecked C.IsRight bytes (S.left source.new) (K.taken sink.old) (K.taken sink.new) result }
    ensures reads { CountsFaults (result ≡ Err CheckFault.ReadFault) (S.faults source.old) (S.faults source.new) }
    ensures writes { CountsFaults (result ≡ Err CheckFault.WriteFault) (K.faults sink.old) (K.faults sink.new) }
{
    // (laws: how bytes are cut into lines)
    whole_lines();
    let mut lines = Lines::new(alloc, LINE_LIMIT, STREAM_LIMIT);
    let mut text = Vec::new(alloc);
    for number in 1..u64::MAX {
        let next = answer_next::<C, S>(alloc, &mut lines, source, &mut text)?;
        let Some(answer) = next else {
            return Ok(());
        };
        put_answer(sink, &mut text, number, answer)?;
    }
    // (no stream within its limit has so many texts)
    Err(CheckFault::NoMemory)
}
