//! The used ids, and the actions of the live proposals.
ghost use Rattle.std.specs.Prelude.{◌++◌, map};
ghost use Rattle.checkpoint_model.specs.Checkpoint.{used_words};
ghost use Rattle.report.specs.Taking.{HasPut};
ghost use Rattle.text_forms.specs.Snapshots.{action_words};

use crate::line::CheckpointLine;
use crate::source::{LineSource, put_left};
use byte_lines::SinkFault;
use gov_ids::TxId;
use proposal_store::ProposalStore;
use report::LineTaker;
use state_view::of_ledger_state::LedgerState;
use utxo_set::UtxoSet;

/// The used ids, in order, from an index on.
#[derive(Drop)]
struct UsedIds<'a> {
    ids: Vec<&'a TxId>,
    index: usize,
}

impl<'a> LineSource for UsedIds<'a> {
    ghost use Rattle.std.specs.Prelude.{drop, map};
    ghost use Rattle.std.specs.Map.Iter.{deref};
    ghost use Rattle.checkpoint_model.specs.Checkpoint.{used_words};

    type Line = CheckpointLine<'a>;

    ghost left = { λ s. map used_words (map deref (drop s.index s.ids.items)) };

    fn next_line(&mut self) -> Option<CheckpointLine<'a>> {
        if self.index >= self.ids.len() {
            return None;
        }
        let id = self.ids[self.index];
        self.index += 1;
        Some(CheckpointLine::Used(*id))
    }
}

/// The live proposals from an index on.
#[derive(Drop)]
struct LiveActions<'a> {
    proposals: &'a ProposalStore,
    index: u64,
}

impl<'a> LineSource for LiveActions<'a> {
    ghost use Rattle.std.specs.Prelude.{drop, map};
    ghost use Rattle.text_forms.specs.Snapshots.{action_words};

    type Line = CheckpointLine<'a>;

    ghost left = { λ s. map action_words (drop s.index s.proposals.now) };

    fn next_line(&mut self) -> Option<CheckpointLine<'a>> {
        if self.index >= self.proposals.len() {
            return None;
        }
        let proposal = self.proposals.at(self.index)?;
        self.index += 1;
        Some(CheckpointLine::Action(proposal))
    }
}

/// Hands over the used ids, in order. `NoMemory` comes before the first.
fn put_used<T: LineTaker>(
    to: &mut T,
    text: &mut Vec<u8>,
    outputs: &UtxoSet,
) -> Result<(), SinkFault>
    ensures { HasPut T.with_line T.IsPart 0 (T.taken to.old) (map used_words outputs.now.used) (T.taken to.new)
        (T.faults to.old) (T.faults to.new) result }
{
    let ids = outputs.used_ids()?;
    put_left(to, text, UsedIds { ids, index: 0 })
}

/// Hands over the actions of the live proposals, in order of submission.
fn put_actions<T: LineTaker>(
    to: &mut T,
    text: &mut Vec<u8>,
    proposals: &ProposalStore,
) -> Result<(), SinkFault>
    ensures { HasPut T.with_line T.IsPart 0 (T.taken to.old) (map action_words proposals.now) (T.taken to.new)
        (T.faults to.old) (T.faults to.new) result }
{
    let actions = LiveActions {
        proposals,
        index: 0,
    };
    put_left(to, text, actions)
}

/// Hands over the used ids and the actions of the live proposals.
pub(crate) fn put_live<T: LineTaker>(
    to: &mut T,
    text: &mut Vec<u8>,
    s: &LedgerState,
) -> Result<(), SinkFault>
    ensures { HasPut T.with_line T.IsPart 0 (T.taken to.old)
        (map used_words s.now.ledger.used ++ map action_words s.now.ledger.proposals) (T.taken to.new)
        (T.faults to.old) (T.faults to.new) result }
{
    put_used(to, text, s.stake().outputs())?;
    put_actions(to, text, s.proposals())
}
