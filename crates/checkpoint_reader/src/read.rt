//! All lines of a checkpoint.
ghost use Rattle.std.specs.Prelude.{◌≡◌, ℕ, ◌++◌, true, Err, IfOk, IfSome, List, Option, Some};
ghost use Rattle.byte_lines.specs.Faults.{CountsFaults};
ghost use Rattle.checkpoint_reader.specs.Gathered.{gathered_rows, gathered_shown, has_gathered_form};
ghost use Rattle.checkpoint_reader.specs.declared.read.Gathered.{Gathered};
ghost use Rattle.checkpoint_model.specs.Checkpoint.{checkpoint_lines};
ghost use Rattle.line_giver.specs.Giving.{HasPassed, PassesSome, lines_of_giving};
ghost use Rattle.line_parts.specs.Parts.{lines_of};
ghost use Rattle.run_model.specs.World.{World};

use crate::params::{ParamsPart, ProposedActions};
use byte_lines::LineFault;
use checkpoint_lists::of_named_kinds::One;
use checkpoint_lists::{
    AmountLines, Amounts, BookLines, Books, FrozenLines, FrozenRows, Governance, GovernanceLines,
    StakeLines, Stakes, shown_are_of_worlds,
};
use gov_actions::Action;
use gov_ids::ActionId;
use line_giver::LineGiver;
use line_parts::{As, GroupOf, Many, Part, Then};
use listed::Listed;
use pparams::Params;
use std::alloc::Global;

/// What the lines of a checkpoint say, kind by kind. Whether they are the lines of a state is not
/// asked: lists may be out of order, and what two lines say may differ.
#[derive(Drop)]
pub struct Gathered {
    pub governance: Governance,
    pub params: Params,
    pub books: Books,
    pub stakes: Stakes,
    pub amounts: Amounts,
    /// The actions of the live proposals, each with an id.
    pub actions: Listed<(ActionId, Action)>,
    pub frozen: FrozenRows,
}

/// All lines of a checkpoint, in order.
type CheckpointPart = Then<
    Then<GovernanceLines, ParamsPart>,
    Then<
        Then<BookLines, StakeLines>,
        Then<AmountLines, Then<Many<One<ProposedActions>>, FrozenLines>>,
    >,
>;

impl GroupOf<CheckpointPart> for Gathered {
    ghost use Rattle.checkpoint_reader.specs.Gathered.{gathered_items, gathered_rows, has_gathered_form};

    ghost items = { gathered_items };

    ghost rows = { gathered_rows };

    ghost form = { has_gathered_form };

    fn laws() {}

    fn of(all: <CheckpointPart as Part>::Item) -> Self {
        let ((governance, params), ((books, stakes), (amounts, (actions, frozen)))) = all;
        Gathered {
            governance,
            params,
            books,
            stakes,
            amounts,
            actions,
            frozen,
        }
    }
}

/// Reads the lines of a checkpoint up to its `end`, and passes them. `None`: they are no such
/// lines; some of them may be passed. The buffer loses what it held. (Own)
pub fn read_lists<G: LineGiver>(
    alloc: Global,
    giver: &mut G,
    text: &mut Vec<u8>,
) -> Result<Option<Gathered>, LineFault>
    ensures form { IfOk result (λ g. IfSome g (λ x. has_gathered_form x ≡ true)) }
    ensures passes { IfOk result (λ g. IfSome g (λ x. HasPassed (G.passed giver.old) (G.passed giver.new)
        (G.giving giver.old) (G.giving giver.new) (lines_of (gathered_rows x)))) }
    ensures all { IfOk result (λ g. (x : Gathered) (more : List (Option (List ℕ))) → has_gathered_form x ≡ true →
        lines_of_giving (G.giving giver.old) ≡ Some (lines_of (gathered_rows x) ++ more) → g ≡ Some x) }
    ensures world { IfOk result (λ g. (w : World) (line : ℕ) (more : List (Option (List ℕ))) → has_gathered_form (gathered_shown w line) ≡ true →
        lines_of_giving (G.giving giver.old) ≡ Some (lines_of (checkpoint_lines w line) ++ more) → g ≡ Some (gathered_shown w line)) }
    ensures some { PassesSome (G.passed giver.old) (G.passed giver.new) (G.giving giver.old) (G.giving giver.new) }
    ensures over { result ≡ Err LineFault.TooMuch → G.IsOver giver.new }
    ensures counts { CountsFaults (result ≡ Err LineFault.ReadFault) (G.faults giver.old) (G.faults giver.new) }
{
    // (law: the lines of a checkpoint are those of what its World shows)
    shown_are_of_worlds();
    <As<CheckpointPart, Gathered> as Part>::read_part::<G>(alloc, giver, text)
}
