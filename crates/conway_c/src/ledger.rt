//! The ledger of a handle, and what a call does to it.
ghost use Rattle.std.specs.Prelude.{◌≡◌, Err, IfErr, IfOk, Ok, Some, option_map};
ghost use Rattle.conway_c.specs.Calls.{HasDone, HasRecorded, TellsBy, fault_status, resume_status, status_of};
ghost use Rattle.embedded.specs.Resumed.{Resumes};
ghost use Rattle.embedded.specs.Shown.{EndsInOutlook, ShowsCheckpoint};
ghost use Rattle.embedded.specs.Standing.{Opens, Records};
ghost use Rattle.embedded.specs.Verdicts.{Explains, Judges};

use crate::alone::Alone;
use crate::answer::{
    Answer, BAD_CHECKPOINT, BAD_GENESIS, DONE, IS_BLANK, IS_CLOSED, IS_FULL, NO_MEMORY,
};
use embedded::{CheckpointFault, Ending, Session};
use hash_seed::HashSeed;
use replay_loop::{AnswerFault, GenesisCause};
use std::alloc::Global;
use std::marker::Model;

/// A ledger with the text of its last answer.
#[derive(Drop)]
pub struct Ledger {
    session: Session<Alone>,
}

impl Model for Ledger {
    ghost use Rattle.embedded.specs.Standing.{Standing};

    ghost Value = { Standing };

    ghost view = { λ a. a.session };
}

impl Ledger {
    /// The text of the last answer.
    pub(crate) fn text(&self) -> &[u8]
        ensures { result.now ≡ self.now.text }
    {
        self.session.text()
    }

    /// Records the next line.
    fn record(&mut self, line: &[u8]) -> Ending
        ensures { Records self.old line.now self.new result }
    {
        self.session.record(line)
    }

    /// Judges the next line.
    fn judge(&mut self, line: &[u8]) -> Ending
        ensures { Judges self.old line.now self.new result }
    {
        self.session.judge(line)
    }

    /// Says all that is wrong with the next line, and each name that nobody reads.
    fn explain(&mut self, line: &[u8]) -> Ending
        ensures { Explains self.old line.now self.new result }
    {
        self.session.explain(line)
    }

    /// Makes its checkpoint.
    fn checkpoint(&mut self) -> Ending
        ensures { ShowsCheckpoint self.old self.new result }
    {
        self.session.checkpoint()
    }

    /// Makes its outlook, which closes it.
    fn outlook(&mut self) -> Ending
        ensures { EndsInOutlook self.old self.new result }
    {
        self.session.outlook()
    }
}

/// The status of a call that ended so.
fn status_of(ending: Ending) -> u32
    ensures { result ≡ status_of ending }
{
    match ending {
        Ending::Done => DONE,
        Ending::NoMemory => NO_MEMORY,
        Ending::Closed => IS_CLOSED,
        Ending::Full => IS_FULL,
    }
}

/// The status where a genesis begins no ledger.
pub(crate) fn fault_status(fault: AnswerFault) -> u32
    ensures { result ≡ fault_status fault }
{
    match fault {
        AnswerFault::BadGenesis(GenesisCause::Missing) => IS_BLANK,
        AnswerFault::BadGenesis(_) => BAD_GENESIS,
        AnswerFault::NoMemory => NO_MEMORY,
    }
}

/// The ledger of the genesis on the line of this number.
pub(crate) fn opened(
    alloc: Global,
    seed: HashSeed,
    number: u64,
    genesis: &[u8],
) -> Result<Box<Ledger>, AnswerFault>
    ensures ok { IfOk result (λ b. Opens number genesis.now (Ok b.value)) }
    ensures err { IfErr result (λ fault. Opens number genesis.now (Err fault)) }
{
    let session = Session::open(alloc, seed, number, genesis)?;
    match Box::new(alloc, Ledger { session }) {
        Ok(ledger) => Ok(ledger),
        Err(_) => Err(AnswerFault::NoMemory),
    }
}

/// The status where a text begins no ledger.
pub(crate) fn resume_status(fault: CheckpointFault) -> u32
    ensures { result ≡ resume_status fault }
{
    match fault {
        CheckpointFault::Bad => BAD_CHECKPOINT,
        CheckpointFault::NoMemory => NO_MEMORY,
    }
}

/// The ledger of the text of a checkpoint.
pub(crate) fn resumed(
    alloc: Global,
    seed: HashSeed,
    text: &[u8],
) -> Result<Box<Ledger>, CheckpointFault>
    ensures ok { IfOk result (λ b. Resumes text.now (Ok b.value)) }
    ensures err { IfErr result (λ fault. Resumes text.now (Err fault)) }
{
    let session = Session::resume(alloc, seed, text)?;
    match Box::new(alloc, Ledger { session }) {
        Ok(ledger) => Ok(ledger),
        Err(_) => Err(CheckpointFault::NoMemory),
    }
}

/// The answer of a call that ended so, with the text of the ledger if it is done.
fn answer_of(ledger: &Ledger, ending: Ending, room: &mut [u8]) -> Answer
    ensures status { result.status ≡ status_of ending }
    ensures tells { TellsBy ending (Some ledger.now) room.old room.new result }
{
    match ending {
        Ending::Done => Answer::with_text(DONE, ledger.text(), room),
        Ending::NoMemory | Ending::Closed | Ending::Full => {
            Answer::without_text(status_of(ending))
        }
    }
}

/// The ledger with the verdict on a line, and the answer.
pub(crate) fn judged(ledger: Box<Ledger>, line: &[u8], room: &mut [u8]) -> (Box<Ledger>, Answer)
    ensures { HasDone (λ s s' e. Judges s line.now s' e) (Some ledger.value) (Some result.0.value) room.old room.new result.1 }
{
    let mut ledger = ledger;
    let ending = ledger.judge(line);
    let answer = answer_of(&ledger, ending, room);
    (ledger, answer)
}

/// The ledger with the explanation of a line, and the answer.
pub(crate) fn explained(ledger: Box<Ledger>, line: &[u8], room: &mut [u8]) -> (Box<Ledger>, Answer)
    ensures { HasDone (λ s s' e. Explains s line.now s' e) (Some ledger.value) (Some result.0.value) room.old room.new result.1 }
{
    let mut ledger = ledger;
    let ending = ledger.explain(line);
    let answer = answer_of(&ledger, ending, room);
    (ledger, answer)
}

/// The ledger with its checkpoint, and the answer.
pub(crate) fn shown(ledger: Box<Ledger>, room: &mut [u8]) -> (Box<Ledger>, Answer)
    ensures { HasDone ShowsCheckpoint (Some ledger.value) (Some result.0.value) room.old room.new result.1 }
{
    let mut ledger = ledger;
    let ending = ledger.checkpoint();
    let answer = answer_of(&ledger, ending, room);
    (ledger, answer)
}

/// The ledger after its outlook, and the answer.
pub(crate) fn used_up(ledger: Box<Ledger>, room: &mut [u8]) -> (Box<Ledger>, Answer)
    ensures { HasDone EndsInOutlook (Some ledger.value) (Some result.0.value) room.old room.new result.1 }
{
    let mut ledger = ledger;
    let ending = ledger.outlook();
    let answer = answer_of(&ledger, ending, room);
    (ledger, answer)
}

/// The ledger after a line, unless memory ran out, and the answer.
pub(crate) fn recorded(
    ledger: Box<Ledger>,
    line: &[u8],
    room: &mut [u8],
) -> (Option<Box<Ledger>>, Answer)
    ensures { HasRecorded (Some ledger.value) line.now (option_map (λ b. b.value) result.0) room.old room.new result.1 }
{
    let mut ledger = ledger;
    let ending = ledger.record(line);
    match ending {
        Ending::Done => {
            let answer = Answer::with_text(DONE, ledger.text(), room);
            (Some(ledger), answer)
        }
        Ending::NoMemory => {
            drop(ledger);
            (None, Answer::without_text(NO_MEMORY))
        }
        Ending::Closed | Ending::Full => (Some(ledger), Answer::without_text(status_of(ending))),
    }
}
