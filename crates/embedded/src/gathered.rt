//! Lines, gathered as a text in memory.
ghost use Rattle.std.specs.Prelude.{◌≡◌, IfOk, Some, true};
ghost use Rattle.checkpoint_model.specs.Checkpoint.{checkpoint_text};
ghost use Rattle.embedded.specs.Shown.{outlook_text};
ghost use Rattle.embedded.specs.Verdicts.{explanation_text};
ghost use Rattle.record_notes.specs.Seen.{noted_seen};
ghost use Rattle.record_stream.specs.Records.{is_within};

use crate::state::SessionState;
use byte_lines::{MemorySink, SinkFault, put_all};
use explain_loop::put_explained;
use no_memory::NoMemory;
use record_notes::Noted;
use report::LineTaker;
use std::alloc::Global;

/// Takes lines, and appends each to a text.
#[derive(Drop)]
struct Gathered {
    text: MemorySink,
}

impl LineTaker for Gathered {
    ghost use Rattle.std.specs.Prelude.{◌++◌, ℕ, List, ⊤};

    ghost Taken = { List ℕ };

    ghost taken = { λ g. g.text };

    ghost with_line = { λ text line. text ++ line };

    ghost IsPart = { λ text line text'. ⊤ };

    ghost faults = { λ _. 0 };

    fn take(&mut self, line: &[u8]) -> Result<(), SinkFault> {
        put_all(&mut self.text, line)
    }
}

/// The checkpoint of a state behind the line of this number.
pub(crate) fn checkpoint_of<R: SessionState>(
    alloc: Global,
    state: &R,
    line: u64,
) -> Result<MemorySink, NoMemory>
    ensures { IfOk result (λ text. text ≡ checkpoint_text (R.world state.now) line) }
{
    let mut to = Gathered {
        text: MemorySink::new(alloc),
    };
    let mut buffer = Vec::new(alloc);
    match state.show_checkpoint(line, &mut to, &mut buffer) {
        Ok(()) => Ok(to.text),
        Err(_) => Err(NoMemory),
    }
}

/// A line for each rule that what was read of the line of this number breaks over a state, and for
/// each note of it.
pub(crate) fn explanation_of<R: SessionState>(
    alloc: Global,
    state: &R,
    number: u64,
    noted: &Noted,
) -> Result<MemorySink, NoMemory>
    requires within { is_within noted.now.reading ≡ true }
    ensures { IfOk result (λ text. text ≡ explanation_text (R.world state.now) number (Some (noted_seen noted.now))) }
{
    let mut to = Gathered {
        text: MemorySink::new(alloc),
    };
    let mut buffer = Vec::new(alloc);
    match put_explained(alloc, state, noted, &mut to, &mut buffer, number) {
        Ok(()) => Ok(to.text),
        Err(_) => Err(NoMemory),
    }
}

/// The outlook of a state, which it uses up.
pub(crate) fn outlook_of<R: SessionState>(alloc: Global, state: R) -> Result<MemorySink, NoMemory>
    ensures { IfOk result (λ text. text ≡ outlook_text (R.world state)) }
{
    let mut to = Gathered {
        text: MemorySink::new(alloc),
    };
    let mut buffer = Vec::new(alloc);
    match state.put_outlook(alloc, &mut to, &mut buffer) {
        Ok(()) => Ok(to.text),
        Err(_) => Err(NoMemory),
    }
}
