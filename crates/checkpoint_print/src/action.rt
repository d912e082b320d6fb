//! The line of a proposal's action.
ghost use Rattle.std.specs.Prelude.{◌≡◌, ◌++◌, OnOk};
ghost use Rattle.text_forms.specs.Snapshots.{action_words};
ghost use Rattle.text_model.specs.Words.{line_of};

use action_lines::push_action;
use no_memory::NoMemory;
use proposal_store::LiveProposal;
use report::{Word, end_line, push_digits, push_parts};

/// Appends the line of a proposal's action.
pub(crate) fn push_action_line(
    out: &mut Vec<u8>,
    number: u64,
    proposal: &LiveProposal,
) -> Result<(), NoMemory>
    ensures { OnOk result (out.new.items ≡ out.old.items ++ line_of number (action_words proposal.now)) }
{
    let id = proposal.id();
    push_digits(out, number)?;
    push_parts(out, &[Word::Text("action"), Word::Action(&id)])?;
    out.push(b' ')?;
    push_action(out, proposal.action())?;
    end_line(out)
}
