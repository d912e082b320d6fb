//! An answer, as it is written.
ghost use Rattle.std.specs.Prelude.{◌≡◌, [], ◌∷◌, Err, OnErr, OnOk};
ghost use Rattle.std.specs.Io.KnownBytes.{append_known};
ghost use Rattle.byte_lines.specs.Faults.{CountsFaults};
ghost use Rattle.certificate_model.specs.Checked.{answer_text};
ghost use Rattle.check_loop.specs.Checked.{IsPartTaken};
ghost use Rattle.text_model.specs.Words.{line_of};

use byte_lines::{Sink, SinkFault, put_all};
use no_memory::NoMemory;
use report::{Word, push_line};

// Replaces the buffer by the line of the answer to the text of this number.
fn answer_line(text: &mut Vec<u8>, number: u64, answer: bool) -> Result<(), NoMemory>
    ensures { OnOk result (text.new.items ≡ line_of number (answer_text answer ∷ [])) }
{
    text.clear();
    if answer {
        push_line(text, number, &[Word::Text("yes")])
    } else {
        push_line(text, number, &[Word::Text("no")])
    }
}

// Writes the answer to the text of this number, through the buffer.
pub(crate) fn put_answer<K: Sink>(
    sink: &mut K,
    text: &mut Vec<u8>,
    number: u64,
    answer: bool,
) -> Result<(), SinkFault>
    ensures ok { OnOk result (K.taken sink.new ≡ append_known (K.taken sink.old) (line_of number (answer_text answer ∷ []))) }
    ensures err { OnErr result (IsPartTaken (K.taken sink.old) (line_of number (answer_text answer ∷ [])) (K.taken sink.new)) }
    ensures counts { CountsFaults (result ≡ Err SinkFault.WriteFault) (K.faults sink.old) (K.faults sink.new) }
{
    answer_line(text, number, answer)?;
    put_all(sink, text)
}
