//! A state that is sound to be resumed, of what lines say.
ghost use Rattle.std.specs.Prelude.{◌≡◌, ◌↔◌, ◌≤◌, ◌^◌, true, IfOk, map};
ghost use Rattle.checkpoint_model.specs.Resumable.{IsResumable};
ghost use Rattle.checkpoint_reader.specs.Gathered.{has_gathered_form};
ghost use Rattle.resumable_lists.specs.Shown.{IsShown};
ghost use Rattle.shown_lists.specs.Only.{IsOnly};
ghost use Rattle.state_lists.specs.Worlds.{world_of_lists};
ghost use Rattle.text_forms.specs.Lines.{are_short_lines};
ghost use Rattle.text_forms.specs.Snapshots.{action_words};
ghost use Rattle.told_lists.specs.Told.{told_by};
ghost use Rattle.state_reader.specs.States.{IsSoundState};

use checkpoint_reader::Gathered;
use further_laws::short_by_form;
use no_memory::NoMemory;
use proposal_rows::are_short;
use resumable_lists::is_resumable;
use state_lists::StateLists;
use std::alloc::Global;
use told_lists::lists_of;

/// The greatest number of the line after which a checkpoint is made.
const LAST_LINE: u64 = 1 << 48;

/// Whether a state can be resumed, behind a line of this number. The buffer loses what it held.
fn is_sound(
    alloc: Global,
    text: &mut Vec<u8>,
    state: &StateLists,
    line: u64,
) -> Result<bool, NoMemory>
    requires { are_short_lines (map action_words state.now.books.proposals) ≡ true → IsShown state.now }
    ensures { IfOk result (λ sound. (sound ≡ true) ↔ (IsResumable (world_of_lists state.now) × (line ≤ 2 ^ 48))) }
{
    // (law: no line of a checkpoint is too long, if no line of an action is)
    short_by_form();
    if line > LAST_LINE {
        return Ok(false);
    }
    let short = are_short(text, state.books.proposals.as_slice())?;
    if !short {
        return Ok(false);
    }
    is_resumable(alloc, state)
}

/// The state that can be resumed, and the line after which its checkpoint was made, if these lines
/// are of one. The buffer loses what it held. `NoMemory` may come at any time.
pub(crate) fn sound_of(
    alloc: Global,
    text: &mut Vec<u8>,
    gathered: Gathered,
) -> Result<Option<(StateLists, u64)>, NoMemory>
    requires { has_gathered_form gathered ≡ true }
    ensures { IfOk result (IsOnly IsSoundState told_by gathered) }
{
    let Some((state, line)) = lists_of(alloc, gathered)? else {
        return Ok(None);
    };
    if is_sound(alloc, text, &state, line)? {
        Ok(Some((state, line)))
    } else {
        Ok(None)
    }
}
