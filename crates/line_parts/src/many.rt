ghost use Rattle.std.specs.Prelude.{◌≡◌, ◌++◌, ◌∷◌, [], OnOk};

use crate::part::Part;
use byte_lines::LineFault;
use line_giver::LineGiver;
use listed::Listed;
use no_memory::NoMemory;
use std::alloc::Global;
use std::marker::PhantomData;

/// Any number of parts of a kind.
pub struct Many<P: Part> {
    kind: PhantomData<P>,
}

/// Adds an item.
fn keep<T: Drop>(items: &mut Listed<T>, item: T) -> Result<(), NoMemory>
    ensures { OnOk result (items.new ≡ items.old ++ item ∷ []) }
{
    items.push(item)?;
    Ok(())
}

impl<P: Part> Part for Many<P> {
    type Item = Listed<P::Item>;

    ghost use Rattle.std.specs.Prelude.{flat_map};
    ghost use Rattle.std.specs.List.{list_all};
    ghost use Rattle.line_parts.specs.Shapes.{many_shape};

    ghost words = { flat_map P.words };

    ghost form = { list_all P.form };

    ghost shape = { many_shape P.shape };

    fn laws() {
        P::laws();
    }

    fn read_part<G: LineGiver>(
        alloc: Global,
        giver: &mut G,
        text: &mut Vec<u8>,
    ) -> Result<Option<Listed<P::Item>>, LineFault> {
        // (laws: how each part begins)
        P::laws();
        let mut items = Listed::new(alloc);
        for _ in 0..u64::MAX {
            match P::read_part(alloc, giver, text)? {
                Some(item) => keep(&mut items, item)?,
                None => return Ok(Some(items)),
            }
        }
        // (no list has so many items)
        Err(LineFault::NoMemory)
    }
}
