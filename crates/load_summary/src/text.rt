//! The text of a summary.
ghost use Rattle.std.specs.Prelude.{◌≡◌, ℕ, map, take, Err, IfOk, OnErr, OnOk};
ghost use Rattle.std.specs.Io.KnownBytes.{append_known};
ghost use Rattle.byte_lines.specs.Faults.{CountsFaults};
ghost use Rattle.ledger_model.specs.Supply.{total_of};
ghost use Rattle.load_model.specs.Json.{joined};
ghost use Rattle.load_model.specs.SummaryText.{line_of_words, load_words, record_words, summary_lines, verdict_words};
ghost use Rattle.text_model.specs.Replies.{pots_words};
ghost use Rattle.std.specs.Prelude.{codes};

use crate::lines::write_lines;
use crate::words::{Word, line_of};
use byte_lines::{Sink, SinkFault};
use load_model::LoadSummary;
use no_memory::NoMemory;
use std::alloc::Global;
use tx_records::Pots;

/// What the stream was made from.
fn load_line(alloc: Global, x: &LoadSummary) -> Result<Vec<u8>, NoMemory>
    ensures { IfOk result (λ line. line.items ≡ line_of_words (load_words x.now)) }
{
    line_of(
        alloc,
        &[
            Word::Name("load"),
            Word::Name("seed"),
            Word::Number(x.seed),
            Word::Name("accounts"),
            Word::Number(x.accounts),
            Word::Name("epochs"),
            Word::Number(x.epochs),
        ],
    )
}

/// How many records there were, and what became of them.
fn record_line(alloc: Global, x: &LoadSummary) -> Result<Vec<u8>, NoMemory>
    ensures { IfOk result (λ line. line.items ≡ line_of_words (record_words x.now)) }
{
    line_of(
        alloc,
        &[
            Word::Name("records"),
            Word::Number(x.records),
            Word::Name("accepted"),
            Word::Number(x.accepted),
            Word::Name("refused"),
            Word::Number(x.refused),
            Word::Name("blocks"),
            Word::Number(x.blocks),
        ],
    )
}

/// How many tallies ended with each verdict.
fn verdict_line(alloc: Global, x: &LoadSummary) -> Result<Vec<u8>, NoMemory>
    ensures { IfOk result (λ line. line.items ≡ line_of_words (verdict_words x.now)) }
{
    line_of(
        alloc,
        &[
            Word::Name("ratified"),
            Word::Number(x.ratified),
            Word::Name("expired"),
            Word::Number(x.expired),
            Word::Name("waiting"),
            Word::Number(x.waiting),
        ],
    )
}

/// The sum of the pots, in lovelace.
fn total(pots: &Pots) -> u128
    ensures { result ≡ total_of pots.now }
{
    u128::from(pots.outputs)
        + u128::from(pots.deposits)
        + u128::from(pots.rewards)
        + u128::from(pots.fees)
        + u128::from(pots.donations)
        + u128::from(pots.treasury)
        + u128::from(pots.reserves)
}

/// The pots at the end, and their sum.
fn pots_line(alloc: Global, pots: &Pots) -> Result<Vec<u8>, NoMemory>
    ensures { IfOk result (λ line. line.items ≡ line_of_words (pots_words (codes "pots") pots.now)) }
{
    line_of(
        alloc,
        &[
            Word::Name("pots"),
            Word::Name("outputs"),
            Word::Number(pots.outputs),
            Word::Name("deposits"),
            Word::Number(pots.deposits),
            Word::Name("rewards"),
            Word::Number(pots.rewards),
            Word::Name("fees"),
            Word::Number(pots.fees),
            Word::Name("donations"),
            Word::Number(pots.donations),
            Word::Name("treasury"),
            Word::Number(pots.treasury),
            Word::Name("reserves"),
            Word::Number(pots.reserves),
            Word::Name("supply"),
            Word::Sum(total(pots)),
        ],
    )
}

/// The four lines of a summary, each with its line feed.
pub fn load_text(alloc: Global, x: &LoadSummary) -> Result<Vec<Vec<u8>>, NoMemory>
    ensures { IfOk result (λ lines. map (λ line. line.items) lines.items ≡ summary_lines x.now) }
{
    let mut lines = Vec::new(alloc);
    lines.push(load_line(alloc, x)?)?;
    lines.push(record_line(alloc, x)?)?;
    lines.push(verdict_line(alloc, x)?)?;
    lines.push(pots_line(alloc, &x.pots)?)?;
    Ok(lines)
}

/// Writes the text of a summary by lines. After an error the sink took a prefix of it.
pub fn write_load<K: Sink>(alloc: Global, sink: &mut K, x: &LoadSummary) -> Result<(), SinkFault>
    ensures ok { OnOk result (K.taken sink.new ≡ append_known (K.taken sink.old) (joined (summary_lines x.now))) }
    ensures err { OnErr result ((k : ℕ) ×
        (K.taken sink.new ≡ append_known (K.taken sink.old) (take k (joined (summary_lines x.now))))) }
    ensures counts { CountsFaults (result ≡ Err SinkFault.WriteFault) (K.faults sink.old) (K.faults sink.new) }
{
    let lines = load_text(alloc, x)?;
    write_lines(sink, lines.as_slice())
}
