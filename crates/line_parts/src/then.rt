use crate::part::Part;
use byte_lines::LineFault;
use line_giver::LineGiver;
use std::alloc::Global;
use std::marker::PhantomData;

/// One part, then another one.
pub struct Then<A: Part, B: Part> {
    parts: PhantomData<(A, B)>,
}

impl<A: Part, B: Part> Part for Then<A, B> {
    type Item = (A::Item, B::Item);

    ghost use Rattle.line_parts.specs.Parts.{both_have, words_of_both};
    ghost use Rattle.line_parts.specs.Shapes.{then_shape};

    ghost words = { words_of_both A.words B.words };

    ghost form = { both_have A.form B.form };

    ghost shape = { then_shape A.shape B.shape };

    fn laws() {
        A::laws();
        B::laws();
    }

    fn read_part<G: LineGiver>(
        alloc: Global,
        giver: &mut G,
        text: &mut Vec<u8>,
    ) -> Result<Option<(A::Item, B::Item)>, LineFault> {
        // (laws: how the second part begins)
        B::laws();
        let Some(first) = A::read_part(alloc, giver, text)? else {
            return Ok(None);
        };
        let Some(second) = B::read_part(alloc, giver, text)? else {
            return Ok(None);
        };
        Ok(Some((first, second)))
    }
}
