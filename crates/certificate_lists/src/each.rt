//! Parts of a kind that come next, told by what their first lines begin with.
ghost use Rattle.std.specs.Prelude.{◌≡◌, ℕ, ◌∷◌, [], flat_map, IfOk, List, Option, Some};
ghost use Rattle.std.specs.List.{list_all};
ghost use Rattle.certificate_lists.specs.Shapes.{begun_shape, each_shape};
ghost use Rattle.line_giver.specs.Giving.{HasPassed, PassesSome, lines_of_giving};
ghost use Rattle.line_parts.specs.Parts.{IsRead};
ghost use Rattle.line_parts.specs.Shapes.{is_next};

use byte_lines::{Line, LineFault};
use line_giver::LineGiver;
use line_parts::Part;
use listed::Listed;
use std::alloc::Global;

/// Whether the next line begins with this. No line is passed.
fn is_begun<G: LineGiver>(giver: &mut G, name: &[u8]) -> Result<bool, LineFault>
    ensures passes { HasPassed (G.passed giver.old) (G.passed giver.new) (G.giving giver.old) (G.giving giver.new) [] }
    ensures begins { IfOk result (λ b. (lines : List (Option (List ℕ))) →
        lines_of_giving (G.giving giver.new) ≡ Some lines → b ≡ is_next (name.now ∷ []) lines) }
{
    match giver.peek()? {
        Line::Whole => Ok(giver.text().starts_with(name)),
        Line::TooLong | Line::End => Ok(false),
    }
}

/// Reads the parts that come next, in order, and passes their lines: as long as a line begins with
/// the name, one comes. `None`: none does there; some of its lines may be passed. The buffer loses
/// what it held.
pub(crate) fn read_each<P: Part, G: LineGiver>(
    alloc: Global,
    giver: &mut G,
    text: &mut Vec<u8>,
    name: &[u8],
) -> Result<Option<Listed<P::Item>>, LineFault>
    requires { P.shape ≡ begun_shape name.now }
    ensures reads { IfOk result (IsRead (each_shape name.now) (list_all P.form) (flat_map P.words)
        (G.passed giver.old) (G.passed giver.new) (G.giving giver.old) (G.giving giver.new)) }
    ensures passes { PassesSome (G.passed giver.old) (G.passed giver.new) (G.giving giver.old) (G.giving giver.new) }
{
    // (laws: how each part begins)
    P::laws();
    let mut items = Listed::new(alloc);
    for _ in 0..u64::MAX {
        if !is_begun(giver, name)? {
            return Ok(Some(items));
        }
        match P::read_part(alloc, giver, text)? {
            Some(item) => items.push(item)?,
            None => return Ok(None),
        }
    }
    // (no list has so many items)
    Err(LineFault::NoMemory)
}
