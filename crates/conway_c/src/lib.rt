//! The ledger for C and for what calls C: a handle, and calls over it.
//! The header that goes with it is examples/c/conway.h.
#![tactic(auto)]

ghost use Rattle.std.specs.Prelude.{◌≡◌, ◌≢◌, None, length};
ghost use Rattle.conway_c.specs.Calls.{HandleOpens, HandleResumes, HasDone, HasRecorded, Tells, TellsNone, text_now};
ghost use Rattle.embedded.specs.Shown.{EndsInOutlook, ShowsCheckpoint};
ghost use Rattle.embedded.specs.Verdicts.{Explains, Judges};

mod alone;
mod answer;
mod handle;
mod ledger;
mod loose;
mod replies;

pub use answer::Answer;
use answer::{DONE, IS_CLOSED};
pub use handle::Conway;
use hash_seed::HashSeed;
use ledger::{
    explained, fault_status, judged, opened, recorded, resume_status, resumed, shown, used_up,
};
use std::alloc::Global;
use std::mem;

/// Opens the ledger of the genesis on the line of this number; what the handle held is closed.
/// Status 0, 3 for a bad genesis, 6 for out of memory, 22 for a blank line. The text is that of the
/// genesis in a run; `wanted` is its length in bytes, and `conway_text` copies it. The seed is two
/// numbers that whoever sends records cannot guess; no clause depends on them.
#[unsafe(no_mangle)]
pub extern "C" fn conway_open(
    alloc: Global,
    genesis: &[u8],
    number: u64,
    seed_first: u64,
    seed_second: u64,
    handle: &mut Conway,
) -> Answer
    ensures opens { HandleOpens number genesis.now handle.new.value result.status }
    ensures text { (result.wanted ≡ length (text_now handle.new.value)) × (result.written ≡ 0) }
{
    let seed = HashSeed::new(seed_first, seed_second);
    match opened(alloc, seed, number, genesis) {
        Ok(book) => {
            let wanted = book.text().len();
            *handle = Conway::of(book);
            Answer {
                status: DONE,
                written: 0,
                wanted,
            }
        }
        Err(fault) => {
            *handle = Conway::closed(alloc);
            Answer::without_text(fault_status(fault))
        }
    }
}

/// Opens the ledger of the text of a checkpoint; what the handle held is closed. Its last line is
/// the one behind which the checkpoint was made, and it has no text yet.
/// Status 0, 6 for out of memory, 8 where the text is the checkpoint of no ledger. The seed is as
/// for `conway_open`.
#[unsafe(no_mangle)]
pub extern "C" fn conway_resume(
    alloc: Global,
    text: &[u8],
    seed_first: u64,
    seed_second: u64,
    handle: &mut Conway,
) -> Answer
    ensures resumes { HandleResumes text.now handle.new.value result.status }
    ensures text { (result.wanted ≡ 0) × (result.written ≡ 0) }
{
    let seed = HashSeed::new(seed_first, seed_second);
    match resumed(alloc, seed, text) {
        Ok(book) => {
            *handle = Conway::of(book);
            Answer::without_text(DONE)
        }
        Err(fault) => {
            *handle = Conway::closed(alloc);
            Answer::without_text(resume_status(fault))
        }
    }
}

/// Records the next line. The text is what `replay` writes for it. Status 0, 6 for out of memory,
/// which closes the handle, 20 for a closed handle, 21 where no number is left for the line.
#[unsafe(no_mangle)]
pub extern "C" fn conway_record(
    alloc: Global,
    handle: &mut Conway,
    line: &[u8],
    room: &mut [u8],
) -> Answer
    ensures { HasRecorded handle.old.value line.now handle.new.value room.old room.new result }
{
    let taken = mem::replace(handle, Conway::closed(alloc));
    let Some(book) = taken.into_box() else {
        return Answer::without_text(IS_CLOSED);
    };
    let (after, answer) = recorded(book, line, room);
    if let Some(book) = after {
        *handle = Conway::of(book);
    }
    answer
}

/// Judges the next line and records nothing. The text is the line of the reply that it would get.
/// Status 0, 6 for out of memory, 20 for a closed handle, 21 where no number is left for the line;
/// where it is not 0 nothing changed.
#[unsafe(no_mangle)]
pub extern "C" fn conway_judge(
    alloc: Global,
    handle: &mut Conway,
    line: &[u8],
    room: &mut [u8],
) -> Answer
    ensures { HasDone (λ s s' e. Judges s line.now s' e) handle.old.value handle.new.value room.old room.new result }
{
    let taken = mem::replace(handle, Conway::closed(alloc));
    let Some(book) = taken.into_box() else {
        return Answer::without_text(IS_CLOSED);
    };
    let (after, answer) = judged(book, line, room);
    *handle = Conway::of(after);
    answer
}

/// Says all that is wrong with the next line and records nothing. The text has a line for each rule
/// that it breaks, the first that of its reply, then for each value of a malformed line that is not
/// of its shape, with its path, and each name that nobody reads; it is empty where there is none.
/// Statuses are those of `conway_judge`; where it is not 0 nothing changed.
#[unsafe(no_mangle)]
pub extern "C" fn conway_explain(
    alloc: Global,
    handle: &mut Conway,
    line: &[u8],
    room: &mut [u8],
) -> Answer
    ensures { HasDone (λ s s' e. Explains s line.now s' e) handle.old.value handle.new.value room.old room.new result }
{
    let taken = mem::replace(handle, Conway::closed(alloc));
    let Some(book) = taken.into_box() else {
        return Answer::without_text(IS_CLOSED);
    };
    let (after, answer) = explained(book, line, room);
    *handle = Conway::of(after);
    answer
}

/// Makes the checkpoint of the ledger. The text is what `checkpoint` writes after so many lines.
/// Status 0, 6 for out of memory, 20 for a closed handle; where it is not 0 nothing changed.
#[unsafe(no_mangle)]
pub extern "C" fn conway_checkpoint(alloc: Global, handle: &mut Conway, room: &mut [u8]) -> Answer
    ensures { HasDone ShowsCheckpoint handle.old.value handle.new.value room.old room.new result }
{
    let taken = mem::replace(handle, Conway::closed(alloc));
    let Some(book) = taken.into_box() else {
        return Answer::without_text(IS_CLOSED);
    };
    let (after, answer) = shown(book, room);
    *handle = Conway::of(after);
    answer
}

/// Makes the outlook of the ledger, which it uses up: later calls answer 20, except `conway_text`.
/// The text is what `outlook` writes. Status 0, 6 for out of memory, 20 for a closed handle.
#[unsafe(no_mangle)]
pub extern "C" fn conway_outlook(alloc: Global, handle: &mut Conway, room: &mut [u8]) -> Answer
    ensures { HasDone EndsInOutlook handle.old.value handle.new.value room.old room.new result }
{
    let taken = mem::replace(handle, Conway::closed(alloc));
    let Some(book) = taken.into_box() else {
        return Answer::without_text(IS_CLOSED);
    };
    let (after, answer) = used_up(book, room);
    *handle = Conway::of(after);
    answer
}

/// Copies the text of the last answer again. Status 0, or 20 for a closed handle.
#[unsafe(no_mangle)]
pub extern "C" fn conway_text(alloc: Global, handle: &mut Conway, room: &mut [u8]) -> Answer
    ensures same { handle.new.value ≡ handle.old.value }
    ensures closed { handle.old.value ≡ None → (result.status ≡ 20) × TellsNone room.old room.new result }
    ensures open { handle.old.value ≢ None → (result.status ≡ 0) × Tells (text_now handle.old.value) room.old room.new result }
{
    let taken = mem::replace(handle, Conway::closed(alloc));
    let Some(book) = taken.into_box() else {
        return Answer::without_text(IS_CLOSED);
    };
    let answer = Answer::with_text(DONE, book.text(), room);
    *handle = Conway::of(book);
    answer
}

/// Closes the handle, and frees what it held. A closed handle stays closed.
#[unsafe(no_mangle)]
pub extern "C" fn conway_close(alloc: Global, handle: &mut Conway)
    ensures { handle.new.value ≡ None }
{
    *handle = Conway::closed(alloc);
}
