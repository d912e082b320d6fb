//! Several lines that are read as one item.
use byte_lines::LineFault;
use line_giver::LineGiver;

/// Reads some lines as one item: each item of a form has its lines, as many as each other, and
/// nothing else reads as it.
pub trait LinesReader {
    /// What the lines say.
    type Item: Drop;

    ghost use Rattle.std.specs.Prelude.{◌≡◌, ℕ, Bool, Err, IfOk, List, length};
    ghost use Rattle.byte_lines.specs.Faults.{CountsFaults};
    ghost use Rattle.line_giver.specs.Giving.{PassesSome};
    ghost use Rattle.param_kinds.specs.Runs.{ReadsLines};

    // the words of its lines, in order
    ghost lines: { Self.Item → List (List (List ℕ)) };

    // which items have lines
    ghost form: { Self.Item → Bool };

    /// Does nothing. Its clause is a law: items have equally many lines.
    fn laws()
        ensures { (x y : Self.Item) → length (lines x) ≡ length (lines y) };

    /// Reads the lines that come next, and passes them. The buffer loses what it held.
    /// Where they are not the lines of an item, those before the first other one are passed.
    fn read<G: LineGiver>(
        giver: &mut G,
        text: &mut Vec<u8>,
    ) -> Result<Option<Self::Item>, LineFault>
        ensures reads { IfOk result (ReadsLines form lines
            (G.passed giver.old) (G.passed giver.new) (G.giving giver.old) (G.giving giver.new)) }
        ensures passes { PassesSome (G.passed giver.old) (G.passed giver.new) (G.giving giver.old) (G.giving giver.new) }
        ensures over { result ≡ Err LineFault.TooMuch → G.IsOver giver.new }
        ensures counts { CountsFaults (result ≡ Err LineFault.ReadFault) (G.faults giver.old) (G.faults giver.new) };
}
