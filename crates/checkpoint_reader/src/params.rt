//! The lines of the parameters, and those of actions.

use action_kinds::ActionLines;
use byte_lines::LineFault;
use checkpoint_lists::of_named_kinds::NamedLines;
use gov_actions::Action;
use gov_ids::ActionId;
use line_giver::LineGiver;
use line_kinds::LineReader;
use line_parts::Part;
use no_memory::NoMemory;
use param_kinds::read_params;
use pparams::Params;
use std::alloc::Global;

/// The lines of all thirty parameters. (Own)
pub struct ParamsPart;

impl Part for ParamsPart {
    type Item = Params;

    ghost use Rattle.text_forms.specs.States.{are_params};
    ghost use Rattle.text_model.specs.ParamLines.{param_lines};
    ghost use Rattle.checkpoint_reader.specs.Gathered.{params_shape};

    ghost words = { param_lines };

    ghost form = { are_params };

    ghost shape = { params_shape };

    fn laws() {}

    fn read_part<G: LineGiver>(
        _alloc: Global,
        giver: &mut G,
        text: &mut Vec<u8>,
    ) -> Result<Option<Params>, LineFault> {
        read_params::<G>(giver, text)
    }
}

/// The lines of actions. (Own)
pub struct ProposedActions;

impl LineReader for ProposedActions {
    type Item = (ActionId, Action);

    ghost use Rattle.action_kinds.specs.Lines.{action_line, is_action_line};

    ghost words = { action_line };

    ghost form = { is_action_line };

    fn read_line(text: &mut Vec<u8>, line: &[u8]) -> Result<Option<(ActionId, Action)>, NoMemory> {
        <ActionLines as LineReader>::read_line(text, line)
    }
}

impl NamedLines for ProposedActions {
    ghost use Rattle.std.specs.Prelude.{codes};

    ghost name = { codes "action " };

    fn named() {}
}
