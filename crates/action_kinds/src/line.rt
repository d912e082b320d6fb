//! The lines of actions.
ghost use Rattle.std.specs.Prelude.{◌≡◌, ◌++◌, OnOk};
ghost use Rattle.gov_actions.specs.declared.action.Proposal.{Proposal};
ghost use Rattle.text_forms.specs.Lines.{joined};
ghost use Rattle.text_forms.specs.Snapshots.{action_words};
ghost use Rattle.action_kinds.specs.Lines.{action_line};

use crate::text::read_item;
use action_lines::push_action;
use gov_actions::Action;
use gov_ids::{ActionId, push_action_id};
use line_kinds::LineReader;
use no_memory::NoMemory;

/// Does nothing. A law: the line of an action is that of its proposal.
pub fn actions_are_of_proposals()
    ensures { (p : Proposal) → action_line (p.id, p.action) ≡ action_words p }
{}

/// Appends the line of an action, without a line feed.
fn push_item(out: &mut Vec<u8>, item: &(ActionId, Action)) -> Result<(), NoMemory>
    ensures { OnOk result (out.new.items ≡ out.old.items ++ joined (action_line item.now)) }
{
    out.extend_from_slice(b"action ")?;
    push_action_id(out, &item.0)?;
    out.push(b' ')?;
    push_action(out, &item.1)
}

/// The lines of actions: the id of the proposal, and the action as compact JSON. (Own)
pub struct ActionLines;

impl LineReader for ActionLines {
    type Item = (ActionId, Action);

    ghost use Rattle.action_kinds.specs.Lines.{action_line, is_action_line};

    ghost words = { action_line };

    ghost form = { is_action_line };

    fn read_line(text: &mut Vec<u8>, line: &[u8]) -> Result<Option<(ActionId, Action)>, NoMemory> {
        let alloc = *text.allocator();
        let Some(item) = read_item(alloc, line)? else {
            return Ok(None);
        };
        text.clear();
        push_item(text, &item)?;
        if text.as_slice() == line {
            Ok(Some(item))
        } else {
            Ok(None)
        }
    }
}
