//! The lines of what is wrong with what was read first.
ghost use Rattle.std.specs.Prelude.{◌≡◌, ◌∷◌, [], map, true};
ghost use Rattle.explain_model.specs.Explained.{first_lines, no_genesis_words, problem_lines, problem_words};
ghost use Rattle.explain_model.specs.of_genesis_problems.Problems as problems_of;
ghost use Rattle.explain_model.specs.of_record_notes.Seen.{noted_seen};
ghost use Rattle.explain_model.specs.of_record_notes.of_record_stream.Records.{is_within};
ghost use Rattle.report.specs.Taking.{HasPut};
ghost use Rattle.tx_records.specs.GenesisLimits.{is_within_limits};

use crate::lined::put_each;
use crate::notes::put_notes;
use crate::rules::{put_malformed, put_too_long};
use byte_lines::SinkFault;
use explain_model::of_genesis_problems::genesis_problems;
use explain_model::of_record_notes::Noted;
use report::{LineTaker, words_line};
use std::alloc::Global;
use tx_records::{Genesis, Reading, Record};

/// Hands over a line for each problem of a genesis, in order.
fn put_problems<T: LineTaker>(
    alloc: Global,
    to: &mut T,
    text: &mut Vec<u8>,
    line: u64,
    genesis: &Genesis,
) -> Result<(), SinkFault>
    requires { is_within_limits genesis.now ≡ true }
    ensures { HasPut T.with_line T.IsPart line (T.taken to.old)
        (map problem_words (problems_of.genesis_problems genesis.now)) (T.taken to.new)
        (T.faults to.old) (T.faults to.new) result }
{
    let problems = genesis_problems(alloc, genesis)?;
    put_each(to, text, line, problems.as_slice())
}

/// Hands over the line of a record that is no genesis.
fn put_no_genesis<T: LineTaker>(to: &mut T, text: &mut Vec<u8>, line: u64) -> Result<(), SinkFault>
    ensures { HasPut T.with_line T.IsPart line (T.taken to.old) (no_genesis_words ∷ []) (T.taken to.new)
        (T.faults to.old) (T.faults to.new) result }
{
    words_line(text, line, &["genesis", "NoGenesis"])?;
    to.take(text.as_slice())
}

/// Hands over a line for each problem of what was read first; none if it is a genesis that breaks
/// no rule.
fn put_reading<T: LineTaker>(
    alloc: Global,
    to: &mut T,
    text: &mut Vec<u8>,
    line: u64,
    reading: &Reading,
) -> Result<(), SinkFault>
    requires { is_within reading.now ≡ true }
    ensures { HasPut T.with_line T.IsPart line (T.taken to.old) (problem_lines reading.now) (T.taken to.new)
        (T.faults to.old) (T.faults to.new) result }
{
    match reading {
        Reading::Read(Record::Genesis(genesis)) => {
            put_problems(alloc, to, text, line, genesis.get())
        }
        Reading::Read(
            Record::Block { .. } | Record::Rewards(_) | Record::Tx(_) | Record::Print(_),
        ) => put_no_genesis(to, text, line),
        Reading::Malformed { what, place } => put_malformed(to, text, line, *what, *place),
        Reading::TooLong => put_too_long(to, text, line),
    }
}

/// Hands over a line for each problem of what was read first, and then for each note of it. Each
/// line replaces what the buffer held.
pub fn put_first<T: LineTaker>(
    alloc: Global,
    to: &mut T,
    text: &mut Vec<u8>,
    line: u64,
    noted: &Noted,
) -> Result<(), SinkFault>
    requires { is_within noted.now.reading ≡ true }
    ensures { HasPut T.with_line T.IsPart line (T.taken to.old) (first_lines (noted_seen noted.now)) (T.taken to.new)
        (T.faults to.old) (T.faults to.new) result }
{
    put_reading(alloc, to, text, line, &noted.reading)?;
    put_notes(to, text, line, noted.notes.as_slice())
}
