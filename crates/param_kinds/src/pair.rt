//! Some lines, and then others.
use crate::run::LinesReader;
use byte_lines::LineFault;
use line_giver::LineGiver;

impl<A: LinesReader, B: LinesReader> LinesReader for (A, B) {
    type Item = (A::Item, B::Item);

    ghost use Rattle.std.specs.Prelude.{◌++◌, ◌&&◌};

    ghost lines = { λ x. A.lines x.0 ++ B.lines x.1 };

    ghost form = { λ x. A.form x.0 && B.form x.1 };

    fn laws() {
        A::laws();
        B::laws();
    }

    fn read<G: LineGiver>(
        giver: &mut G,
        text: &mut Vec<u8>,
    ) -> Result<Option<(A::Item, B::Item)>, LineFault> {
        // (laws: the first item has as many lines as any)
        A::laws();
        let Some(first) = A::read::<G>(giver, text)? else {
            return Ok(None);
        };
        let Some(second) = B::read::<G>(giver, text)? else {
            return Ok(None);
        };
        Ok(Some((first, second)))
    }
}
