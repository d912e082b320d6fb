use byte_lines::LineFault;
use line_giver::LineGiver;
use std::alloc::Global;

/// Who says whether a text is right.
pub trait TextChecker {
    ghost use Rattle.std.specs.Prelude.{◌≡◌, ◌↔◌, ℕ, IfOk, List, Option, Some, true};
    ghost use Rattle.line_giver.specs.Giving.{PassesSome, lines_of_giving};

    // the lines of a right text
    ghost IsRight: { List (Option (List ℕ)) → Type 0 };

    /// Whether the lines that are left, all of them, are a right text. It may pass some of them,
    /// also before an error. The buffer loses what it held.
    fn is_right<G: LineGiver>(
        alloc: Global,
        giver: &mut G,
        text: &mut Vec<u8>,
    ) -> Result<bool, LineFault>
        ensures right { IfOk result (λ answer. (lines : List (Option (List ℕ))) →
            lines_of_giving (G.giving giver.old) ≡ Some lines → (answer ≡ true) ↔ IsRight lines) }
        ensures passes { PassesSome (G.passed giver.old) (G.passed giver.new) (G.giving giver.old) (G.giving giver.new) };
}
