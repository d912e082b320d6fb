//! The proposals of a snapshot.
ghost use Rattle.std.specs.Prelude.{codes, flat_map, IfOk};
ghost use Rattle.std.specs.List.{list_all};
ghost use Rattle.certificate_lists.specs.Shapes.{each_shape};
ghost use Rattle.certificate_lists.specs.Rows.{is_whole_row, whole_rows};
ghost use Rattle.line_giver.specs.Giving.{PassesSome};
ghost use Rattle.line_parts.specs.Parts.{IsRead};

use crate::each::read_each;
use crate::rows::WholeRow;
use book_kinds::VoteLines;
use byte_lines::LineFault;
use checkpoint_lists::of_named_kinds::One;
use checkpoint_reader::ProposedActions;
use line_giver::LineGiver;
use line_parts::{Many, Then};
use listed::Listed;
use state_kinds::ProposalLines;
use std::alloc::Global;

/// A proposal with its votes, then its action.
type WholePart = Then<Then<One<ProposalLines>, Many<One<VoteLines>>>, One<ProposedActions>>;

/// Reads the lines of the proposals that come next, in order, and passes them. `None`: a proposal
/// lacks its action; some of the lines may be passed. The buffer loses what it held.
pub(crate) fn read_proposals<G: LineGiver>(
    alloc: Global,
    giver: &mut G,
    text: &mut Vec<u8>,
) -> Result<Option<Listed<WholeRow>>, LineFault>
    ensures reads { IfOk result (IsRead (each_shape (codes "proposal ")) (list_all is_whole_row) (flat_map whole_rows)
        (G.passed giver.old) (G.passed giver.new) (G.giving giver.old) (G.giving giver.new)) }
    ensures passes { PassesSome (G.passed giver.old) (G.passed giver.new) (G.giving giver.old) (G.giving giver.new) }
{
    read_each::<WholePart, G>(alloc, giver, text, b"proposal ")
}
