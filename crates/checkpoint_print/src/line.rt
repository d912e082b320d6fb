//! A line of a checkpoint, of any kind.
ghost use Rattle.std.specs.Prelude.{◌≡◌, ◌++◌, OnOk};
ghost use Rattle.gov_ids.specs.Spelling.{account_text};
ghost use Rattle.report.specs.WordTexts.{word_text};
ghost use Rattle.text_model.specs.Words.{line_of, or_none};
ghost use Rattle.checkpoint_print.specs.LineWords.{first_words, line_words, pool_words};
ghost use Rattle.text_forms.specs.Snapshots.{expiry_words};

use crate::action::push_action_line;
use gov_ids::{Account, ActionId, Credential, TxId};
use no_memory::NoMemory;
use proposal_store::LiveProposal;
use report::{Printed, Word, push_line};
use snapshots::FrozenPool;
use state_lines::StateLine;

/// A line of a checkpoint, as what it is printed from; a frozen one without the word `frozen`.
#[derive(Drop)]
pub(crate) enum CheckpointLine<'a> {
    /// The number of the last line read, the network, the slots of an epoch, the count.
    First(u64, u8, u32, u64),
    /// A used id.
    Used(TxId),
    /// The action of a live proposal.
    Action(&'a LiveProposal),
    /// The frozen treasury, in lovelace.
    Treasury(u64),
    /// A frozen DRep with its expiry.
    Drep(&'a (Credential, u64)),
    /// A pool of mark, with its reward account at the freeze.
    Pool(&'a FrozenPool),
    /// A frozen proposal, except its votes.
    Proposal(ActionId),
    /// A line as a print of a state has it.
    State(StateLine<'a>),
    /// The end.
    End,
}

/// Appends the first line.
fn push_first_line(
    out: &mut Vec<u8>,
    number: u64,
    line: u64,
    network: u8,
    length: u32,
    counted: u64,
) -> Result<(), NoMemory>
    ensures { OnOk result (out.new.items ≡ out.old.items ++ line_of number (first_words line network length counted)) }
{
    push_line(
        out,
        number,
        &[
            Word::Text("checkpoint"),
            Word::Text("1"),
            Word::Text("line"),
            Word::Number(line),
            Word::Text("network"),
            Word::Number(network as u64),
            Word::Text("length"),
            Word::Number(length as u64),
            Word::Text("counted"),
            Word::Number(counted),
        ],
    )
}

/// A reward account, or none.
fn account_word(account: &Option<Account>) -> Word<'_>
    ensures { word_text result ≡ or_none account_text account.now }
{
    match account {
        None => Word::Text("none"),
        Some(account) => Word::Account(account),
    }
}

/// Appends the line of a pool of mark.
fn push_pool_line(out: &mut Vec<u8>, number: u64, pool: &FrozenPool) -> Result<(), NoMemory>
    ensures { OnOk result (out.new.items ≡ out.old.items ++ line_of number (pool_words pool.now)) }
{
    push_line(
        out,
        number,
        &[
            Word::Text("pool"),
            Word::Pool(&pool.pool),
            Word::Text("account"),
            account_word(&pool.account),
        ],
    )
}

/// Appends the line of a frozen DRep.
fn push_drep_line(out: &mut Vec<u8>, number: u64, drep: &(Credential, u64)) -> Result<(), NoMemory>
    ensures { OnOk result (out.new.items ≡ out.old.items ++ line_of number (expiry_words drep.now)) }
{
    push_line(
        out,
        number,
        &[
            Word::Text("drep"),
            Word::Credential(&drep.0),
            Word::Text("expiry"),
            Word::Number(drep.1),
        ],
    )
}

/// Appends a line.
fn push_checkpoint_line(
    out: &mut Vec<u8>,
    number: u64,
    shown: &CheckpointLine<'_>,
) -> Result<(), NoMemory>
    ensures { OnOk result (out.new.items ≡ out.old.items ++ line_of number (line_words shown.now)) }
{
    match shown {
        CheckpointLine::First(line, network, length, counted) => {
            push_first_line(out, number, *line, *network, *length, *counted)
        }
        CheckpointLine::Used(id) => {
            push_line(out, number, &[Word::Text("used"), Word::Hash(&id.0)])
        }
        CheckpointLine::Action(proposal) => push_action_line(out, number, proposal),
        CheckpointLine::Treasury(treasury) => {
            push_line(
                out,
                number,
                &[Word::Text("treasury"), Word::Number(*treasury)],
            )
        }
        CheckpointLine::Drep(drep) => push_drep_line(out, number, drep),
        CheckpointLine::Pool(pool) => push_pool_line(out, number, pool),
        CheckpointLine::Proposal(id) => {
            push_line(out, number, &[Word::Text("proposal"), Word::Action(id)])
        }
        CheckpointLine::State(line) => line.push_line(out, number),
        CheckpointLine::End => push_line(out, number, &[Word::Text("end")]),
    }
}

impl Printed for CheckpointLine<'_> {
    ghost use Rattle.checkpoint_print.specs.LineWords.{line_words};

    ghost words = { line_words };

    fn push_line(&self, out: &mut Vec<u8>, line: u64) -> Result<(), NoMemory> {
        push_checkpoint_line(out, line, self)
    }
}
