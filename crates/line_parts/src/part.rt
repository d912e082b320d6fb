use byte_lines::LineFault;
use line_giver::LineGiver;
use std::alloc::Global;

/// A part of a text: the lines that are printed from an item.
pub trait Part {
    /// What the lines say.
    type Item: Drop;

    ghost use Rattle.std.specs.Prelude.{◌≡◌, ℕ, Bool, true, Err, IfOk, List};
    ghost use Rattle.byte_lines.specs.Faults.{CountsFaults};
    ghost use Rattle.line_giver.specs.Giving.{PassesSome};
    ghost use Rattle.line_parts.specs.Parts.{IsRead, lines_of};
    ghost use Rattle.line_parts.specs.Shapes.{Shape, has_start};

    // the words of its lines
    ghost words: { Self.Item → List (List (List ℕ)) };

    // which items have lines
    ghost form: { Self.Item → Bool };

    // with what its lines begin, and which lines may follow
    ghost shape: { Shape };

    /// Does nothing. Its clause is a law: the lines of an item begin as the shape says.
    fn laws()
        ensures { (x : Self.Item) → form x ≡ true → has_start shape (lines_of (words x)) ≡ true };

    /// Reads the lines of an item and passes them. `None`: the lines that come next are those of no
    /// item; some of them may be passed, and also before an error. The buffer loses what it held.
    fn read_part<G: LineGiver>(
        alloc: Global,
        giver: &mut G,
        text: &mut Vec<u8>,
    ) -> Result<Option<Self::Item>, LineFault>
        ensures reads { shape.fits ≡ true → IfOk result (IsRead shape form words
            (G.passed giver.old) (G.passed giver.new) (G.giving giver.old) (G.giving giver.new)) }
        ensures passes { PassesSome (G.passed giver.old) (G.passed giver.new) (G.giving giver.old) (G.giving giver.new) }
        ensures over { result ≡ Err LineFault.TooMuch → G.IsOver giver.new }
        ensures counts { CountsFaults (result ≡ Err LineFault.ReadFault) (G.faults giver.old) (G.faults giver.new) };
}
