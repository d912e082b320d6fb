//! Lines behind the word frozen.
use crate::kind::LineKind;
use crate::line::read_line;
use crate::reader::LineReader;
use no_memory::NoMemory;
use std::marker::PhantomData;

/// The lines of a kind, each behind the word `frozen`. (Own)
pub struct Frozen<K: LineKind> {
    kind: PhantomData<K>,
}

impl<K: LineKind> LineReader for Frozen<K> {
    type Item = K::Item;

    ghost use Rattle.std.specs.Prelude.{◌∷◌, codes};

    ghost words = { λ x. codes "frozen" ∷ K.words x };

    ghost form = { K.form };

    fn read_line(text: &mut Vec<u8>, line: &[u8]) -> Result<Option<K::Item>, NoMemory> {
        // (laws: a line of the kind has a word)
        K::laws();
        if line.starts_with(b"frozen ") {
            read_line::<K>(text, &line[7..])
        } else {
            Ok(None)
        }
    }
}
