//! Whether the lines of actions are within the maximum length of a line.
ghost use Rattle.std.specs.Prelude.{◌≡◌, ◌++◌, IfOk, OnOk, length, map, nat_le};
ghost use Rattle.text_forms.specs.Lines.{are_short_lines, joined};
ghost use Rattle.text_forms.specs.Snapshots.{action_words};
ghost use Rattle.tx_records.specs.declared.limits.TheConstants.{LINE_LIMIT};

use action_lines::push_action;
use gov_actions::Proposal;
use gov_ids::push_action_id;
use no_memory::NoMemory;
use tx_records::limits::LINE_LIMIT;

/// Whether no line of the action of a proposal is too long. The buffer loses what it held.
pub fn are_short(text: &mut Vec<u8>, proposals: &[Proposal]) -> Result<bool, NoMemory>
    ensures { IfOk result (λ short. short ≡ are_short_lines (map action_words proposals.now)) }
{
    for proposal in proposals {
        if !is_short(text, proposal)? {
            return Ok(false);
        }
    }
    Ok(true)
}

/// Whether the line of the action of a proposal is not too long. The buffer loses what it held.
fn is_short(text: &mut Vec<u8>, proposal: &Proposal) -> Result<bool, NoMemory>
    ensures { IfOk result (λ short. short ≡ nat_le (length (joined (action_words proposal.now))) LINE_LIMIT) }
{
    text.clear();
    push_line(text, proposal)?;
    Ok(text.len() <= LINE_LIMIT as usize)
}

/// Appends the line of the action of a proposal, without a line feed.
fn push_line(text: &mut Vec<u8>, proposal: &Proposal) -> Result<(), NoMemory>
    ensures { OnOk result (text.new.items ≡ text.old.items ++ joined (action_words proposal.now)) }
{
    text.extend_from_slice(b"action ")?;
    push_action_id(text, &proposal.id)?;
    text.push(b' ')?;
    push_action(text, &proposal.action)
}
