use byte_lines::{Line, LineFault};
use line_giver::LineGiver;
use line_kinds::LineReader;
use line_parts::Part;
use std::alloc::Global;
use std::marker::PhantomData;

/// Lines that all begin with the same text.
pub trait NamedLines: LineReader {
    ghost use Rattle.std.specs.Prelude.{◌≡◌, ℕ, true, List};
    ghost use Rattle.text_forms.specs.Lines.{joined};
    ghost use Rattle.line_parts.specs.Shapes.{begins_with};

    // with what each of them begins
    ghost name: { List ℕ };

    /// Does nothing. Its clause is a law: the line of an item begins with the name.
    fn named()
        ensures { (x : Self.Item) → begins_with name (joined (Self.words x)) ≡ true };
}

/// One line of a kind.
pub struct One<R: NamedLines> {
    kind: PhantomData<R>,
}

impl<R: NamedLines> Part for One<R> {
    type Item = R::Item;

    ghost use Rattle.std.specs.Prelude.{[], ◌∷◌};
    ghost use Rattle.line_parts.specs.Shapes.{one_shape};

    ghost words = { λ x. R.words x ∷ [] };

    ghost form = { R.form };

    ghost shape = { one_shape R.name };

    fn laws() {
        R::named();
    }

    fn read_part<G: LineGiver>(
        _alloc: Global,
        giver: &mut G,
        text: &mut Vec<u8>,
    ) -> Result<Option<R::Item>, LineFault> {
        let Line::Whole = giver.peek()? else {
            return Ok(None);
        };
        match R::read_line(text, giver.text())? {
            Some(item) => {
                giver.pass();
                Ok(Some(item))
            }
            None => Ok(None),
        }
    }
}
