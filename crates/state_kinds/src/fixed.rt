//! Lines that say one thing alone.

use book_kinds::of_state_lines::push_none_pending_line;
use line_kinds::LineKind;
use no_memory::NoMemory;
use report::{Word, push_line};

/// The line that ends a text. (Own)
pub struct EndLines;

impl LineKind for EndLines {
    type Item = ();

    ghost use Rattle.std.specs.Prelude.{Some, true};
    ghost use Rattle.state_kinds.specs.States.{end_line};

    ghost words = { λ x. end_line };

    ghost form = { λ x. true };

    ghost reading = { λ ws. Some tt };

    fn laws() {}

    fn read(_texts: &[&str]) -> Option<()> {
        Some(())
    }

    fn push(_end: &(), out: &mut Vec<u8>) -> Result<(), NoMemory> {
        push_line(out, 0, &[Word::Text("end")])
    }
}

/// The line that says that no update is pending. (Own)
pub struct NonePendingLines;

impl LineKind for NonePendingLines {
    type Item = ();

    ghost use Rattle.std.specs.Prelude.{Some, true};
    ghost use Rattle.text_model.specs.StateLines.{none_pending_words};

    ghost words = { λ x. none_pending_words };

    ghost form = { λ x. true };

    ghost reading = { λ ws. Some tt };

    fn laws() {}

    fn read(_texts: &[&str]) -> Option<()> {
        Some(())
    }

    fn push(_none: &(), out: &mut Vec<u8>) -> Result<(), NoMemory> {
        push_none_pending_line(out, 0)
    }
}
