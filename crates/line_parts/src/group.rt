use crate::part::Part;
use byte_lines::LineFault;
use line_giver::LineGiver;
use std::alloc::Global;
use std::marker::PhantomData;

/// What a part says, with a name for each of its items.
pub trait GroupOf<P: Part>: Drop {
    ghost use Rattle.std.specs.Prelude.{◌≡◌, ℕ, Bool, List};

    // the items of the part
    ghost items: { Self → P.Item };

    // the words of their lines
    ghost rows: { Self → List (List (List ℕ)) };

    // which groups have lines
    ghost form: { Self → Bool };

    /// Does nothing. Its clauses are laws: a group is its items, with their lines and their form.
    fn laws()
        ensures one { (x y : Self) → items x ≡ items y → x ≡ y }
        ensures rows { (x : Self) → P.words (items x) ≡ rows x }
        ensures form { (x : Self) → P.form (items x) ≡ form x };

    /// The group of these items.
    fn of(all: P::Item) -> Self
        ensures { items result ≡ all };
}

/// A part that is read as a group.
pub struct As<P: Part, T: GroupOf<P>> {
    part: PhantomData<(P, T)>,
}

impl<P: Part, T: GroupOf<P>> Part for As<P, T> {
    type Item = T;

    ghost words = { T.rows };

    ghost form = { T.form };

    ghost shape = { P.shape };

    fn laws() {
        P::laws();
        T::laws();
    }

    fn read_part<G: LineGiver>(
        alloc: Global,
        giver: &mut G,
        text: &mut Vec<u8>,
    ) -> Result<Option<T>, LineFault> {
        // (laws: a group is its items)
        T::laws();
        match P::read_part(alloc, giver, text)? {
            Some(items) => Ok(Some(T::of(items))),
            None => Ok(None),
        }
    }
}
