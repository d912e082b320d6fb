ghost use Rattle.std.specs.Prelude.{◌≡◌, None};
ghost use Rattle.embedded.specs.Resumed.{Resumes};
ghost use Rattle.embedded.specs.Shown.{EndsInOutlook, ShowsCheckpoint};
ghost use Rattle.embedded.specs.Standing.{Opens, Records};
ghost use Rattle.embedded.specs.Verdicts.{Explains, Judges};

use crate::ending::Ending;
use crate::explaining::explained;
use crate::fault::CheckpointFault;
use crate::gathered::{checkpoint_of, outlook_of};
use crate::keeping::{after, begin, judged};
use crate::resumed::resumed;
use crate::state::SessionState;
use byte_lines::MemorySink;
use hash_seed::HashSeed;
use record_stream::of_record_read::Scratch;
use replay_loop::AnswerFault;
use std::alloc::Global;
use std::marker::Model;

/// A ledger that a caller holds, with the number of its last line and the text of its last answer.
/// It is closed once memory ran out.
#[derive(Drop)]
pub struct Session<R: SessionState + Drop> {
    alloc: Global,
    seed: HashSeed,
    state: Option<R>,
    line: u64,
    text: MemorySink,
    // what reading a line needs, kept from line to line
    scratch: Scratch,
}

impl<R: SessionState + Drop> Model for Session<R> {
    ghost use Rattle.std.specs.Prelude.{option_map};
    ghost use Rattle.embedded.specs.Standing.{Standing};

    ghost Value = { Standing };

    ghost view = { λ a. record { world = option_map R.RunState.world a.state; line = a.line; text = a.text } };
}

impl<R: SessionState + Drop> Session<R> {
    /// Begins with the line of a genesis, without its line feed. It has this number; the text is
    /// that of the genesis in a run. `BadGenesis`: the line begins no ledger. The seed is of the
    /// ledger's hash tables; no clause depends on it.
    pub fn open(
        alloc: Global,
        seed: HashSeed,
        number: u64,
        line: &[u8],
    ) -> Result<Session<R>, AnswerFault>
        ensures { Opens number line.now result }
    {
        let mut scratch = Scratch::new(alloc);
        let (state, text) = begin(alloc, seed, &mut scratch, number, line)?;
        Ok(Session {
            alloc,
            seed,
            state: Some(state),
            line: number,
            text,
            scratch,
        })
    }

    /// Begins with the text of a checkpoint, with the number of the line behind which that was made
    /// and without a text. `Bad`: it is the checkpoint of no ledger. The seed is as for `open`.
    pub fn resume(alloc: Global, seed: HashSeed, text: &[u8]) -> Result<Session<R>, CheckpointFault>
        ensures { Resumes text.now result }
    {
        match resumed(alloc, seed, text) {
            Ok((state, line)) => Ok(Session {
                alloc,
                seed,
                state: Some(state),
                line,
                text: MemorySink::new(alloc),
                scratch: Scratch::new(alloc),
            }),
            Err(fault) => Err(fault),
        }
    }

    /// Records the next line, without its line feed: the ledger and the text after it are those of
    /// a run. A blank line gives no text. `NoMemory` closes the ledger.
    pub fn record(&mut self, line: &[u8]) -> Ending
        ensures { Records self.old line.now self.new result }
    {
        let Some(number) = self.line.checked_add(1) else {
            return Ending::Full;
        };
        let Some(before) = self.state.take() else {
            return Ending::Closed;
        };
        match after(
            self.alloc,
            self.seed,
            &mut self.scratch,
            before,
            number,
            line,
        ) {
            Ok((state, text)) => {
                self.state = Some(state);
                self.line = number;
                self.text = text;
                Ending::Done
            }
            Err(_) => Ending::NoMemory,
        }
    }

    /// Judges the next line and records nothing, as a wallet does before it sends: the text is the
    /// line of the reply that it would get. A blank line gives none. `NoMemory` changes nothing.
    pub fn judge(&mut self, line: &[u8]) -> Ending
        ensures { Judges self.old line.now self.new result }
    {
        let Some(number) = self.line.checked_add(1) else {
            return Ending::Full;
        };
        let Some(state) = &self.state else {
            return Ending::Closed;
        };
        match judged(self.alloc, &mut self.scratch, state, number, line) {
            Ok(text) => {
                self.text = text;
                Ending::Done
            }
            Err(_) => Ending::NoMemory,
        }
    }

    /// Says all that is wrong with the next line and records nothing: the text has a line for each
    /// rule that it breaks, the first that of its reply, then for each value of a malformed line
    /// that is not of its shape, with its path, and each name that nobody reads; it is empty where
    /// there is none. `NoMemory` changes nothing.
    pub fn explain(&mut self, line: &[u8]) -> Ending
        ensures { Explains self.old line.now self.new result }
    {
        let Some(number) = self.line.checked_add(1) else {
            return Ending::Full;
        };
        let Some(state) = &self.state else {
            return Ending::Closed;
        };
        match explained(self.alloc, &mut self.scratch, state, number, line) {
            Ok(text) => {
                self.text = text;
                Ending::Done
            }
            Err(_) => Ending::NoMemory,
        }
    }

    /// Makes the checkpoint of the ledger, as the command does after so many lines.
    /// `NoMemory` changes nothing.
    pub fn checkpoint(&mut self) -> Ending
        ensures { ShowsCheckpoint self.old self.new result }
    {
        let Some(state) = &self.state else {
            return Ending::Closed;
        };
        match checkpoint_of(self.alloc, state, self.line) {
            Ok(text) => {
                self.text = text;
                Ending::Done
            }
            Err(_) => Ending::NoMemory,
        }
    }

    /// Crosses the next two boundaries, as the command `outlook` does, and so uses the ledger up:
    /// it is closed, and the text stays.
    pub fn outlook(&mut self) -> Ending
        ensures { EndsInOutlook self.old self.new result }
    {
        let Some(state) = self.state.take() else {
            return Ending::Closed;
        };
        match outlook_of(self.alloc, state) {
            Ok(text) => {
                self.text = text;
                Ending::Done
            }
            Err(_) => Ending::NoMemory,
        }
    }

    /// The text of the last answer.
    pub fn text(&self) -> &[u8]
        ensures { result.now ≡ self.now.text }
    {
        self.text.as_slice()
    }
}
