//! The whole text of a boundary, line by line.
ghost use Rattle.std.specs.Prelude.{◌≡◌, [], ◌∷◌, ◌++◌, map, IfOk};
ghost use Rattle.text_model.specs.EpochLines.{epoch_lines, epoch_words, paid_words, removed_words, stake_words, tally_words};
ghost use Rattle.text_model.specs.Words.{line_of};
ghost use Rattle.report.specs.Taking.{HasPut};

use crate::line_list::LineList;
use crate::lines::{LineTaker, put_listed, put_one};
use crate::pots::PotsWord;
use byte_lines::SinkFault;
use no_memory::NoMemory;
use std::alloc::Global;
use text_model::of_tx_records::{EpochReport, Pots};

/// Hands over the epoch that begins, its stakes and its tallies.
fn put_count<T: LineTaker>(
    to: &mut T,
    text: &mut Vec<u8>,
    line: u64,
    report: &EpochReport,
) -> Result<(), SinkFault>
    ensures { HasPut T.with_line T.IsPart line (T.taken to.old)
        (epoch_words report.now ∷ [] ++ map stake_words report.now.stakes ++ map tally_words report.now.tallies)
        (T.taken to.new) (T.faults to.old) (T.faults to.new) result }
{
    put_one(to, text, line, report)?;
    put_listed(to, text, line, &report.stakes)?;
    put_listed(to, text, line, &report.tallies)
}

/// Hands over these, and what was paid and removed.
fn put_enacted<T: LineTaker>(
    to: &mut T,
    text: &mut Vec<u8>,
    line: u64,
    report: &EpochReport,
) -> Result<(), SinkFault>
    ensures { HasPut T.with_line T.IsPart line (T.taken to.old)
        (epoch_words report.now ∷ [] ++ map stake_words report.now.stakes ++ map tally_words report.now.tallies
        ++ map paid_words report.now.paid ++ map removed_words report.now.removed)
        (T.taken to.new) (T.faults to.old) (T.faults to.new) result }
{
    put_count(to, text, line, report)?;
    put_listed(to, text, line, &report.paid)?;
    put_listed(to, text, line, &report.removed)
}

/// Hands over the lines of a boundary, in order: its report, then the pots. (Own)
/// Each line replaces the buffer. After an error a prefix of the lines was taken.
pub fn put_epoch<T: LineTaker>(
    to: &mut T,
    text: &mut Vec<u8>,
    line: u64,
    report: &EpochReport,
    pots: &Pots,
) -> Result<(), SinkFault>
    ensures { HasPut T.with_line T.IsPart line (T.taken to.old) (epoch_lines report.now pots.now) (T.taken to.new)
        (T.faults to.old) (T.faults to.new) result }
{
    put_enacted(to, text, line, report)?;
    put_listed(to, text, line, &report.retired)?;
    put_one(to, text, line, &(PotsWord::Pots, *pots))
}

/// The lines of a boundary in memory, each with its line feed, as they are handed over. (Own)
pub fn epoch_text(
    alloc: Global,
    line: u64,
    report: &EpochReport,
    pots: &Pots,
) -> Result<Vec<Vec<u8>>, NoMemory>
    ensures { IfOk result (λ lines. map (λ l. l.items) lines.items ≡ map (line_of line) (epoch_lines report.now pots.now)) }
{
    let mut list = LineList::new(alloc);
    let mut text = Vec::new(alloc);
    match put_epoch(&mut list, &mut text, line, report, pots) {
        Ok(()) => Ok(list.into_lines()),
        Err(_) => Err(NoMemory),
    }
}
