ghost use Rattle.std.specs.Prelude.{◌≡◌, IfOk, IfSome, option_map, true};
ghost use Rattle.std.specs.Option.{option_copied};
ghost use Rattle.explain_print.specs.of_explain_model.of_record_notes.Lines.{noted_of_line};
ghost use Rattle.explain_print.specs.of_explain_model.of_record_notes.Seen.{noted_seen};
ghost use Rattle.explain_print.specs.of_explain_model.of_record_notes.of_record_stream.Records.{is_within};

use explain_print::of_explain_model::of_record_notes::{Noted, Scratch, read_noted};
use no_memory::NoMemory;
use std::alloc::Global;

/// The reading of a line, and what more there is to say of it; none if the line is blank.
pub(crate) fn read(
    alloc: Global,
    scratch: &mut Scratch,
    line: Option<&[u8]>,
) -> Result<Option<Noted>, NoMemory>
    ensures says { IfOk result (λ said. option_map noted_seen said ≡ noted_of_line (option_copied line.entry)) }
    ensures within { IfOk result (λ said. IfSome said (λ noted. is_within noted.reading ≡ true)) }
{
    match line {
        Some(bytes) => read_noted(alloc, scratch, bytes),
        None => Ok(Some(Noted::too_long(alloc))),
    }
}
