use byte_lines::{Line, LineFault};

/// Who gives lines: the next one is looked at before it is passed.
pub trait LineGiver {
    ghost use Rattle.std.specs.Prelude.{◌≡◌, ◌↔◌, ℕ, ◌<◌, ◌++◌, Err, IfOk, List, [], OnErr, Option, length};
    ghost use Rattle.byte_lines.specs.Faults.{CountsFaults};
    ghost use Rattle.line_giver.specs.Giving.{Giving, HasPassed, Sees};

    // what it gives the lines of
    ghost Stream: { Type 0 };

    // it passed these lines of the stream
    ghost passed: { Self → Stream → List (Option (List ℕ)) → Type 0 };

    // what it has
    ghost giving: { Self → Giving };

    // its stream is longer than its limit
    ghost IsOver: { Self → Type 0 };

    // how many reads failed; it never falls
    ghost faults: { Self → ℕ };

    /// Looks at the next line, and returns the same until it is passed. An error passes no line.
    fn peek(&mut self) -> Result<Line, LineFault>
        ensures passes { HasPassed (passed self.old) (passed self.new) (giving self.old) (giving self.new) [] }
        ensures sees { IfOk result (Sees (giving self.new)) }
        ensures unseen { OnErr result ((giving self.new).seen ≡ []) }
        ensures over { (result ≡ Err LineFault.TooMuch) ↔ IsOver self.new }
        ensures counts { CountsFaults (result ≡ Err LineFault.ReadFault) (faults self.old) (faults self.new) };

    /// The line that was seen, without its line feed, if it is whole.
    fn text(&self) -> &[u8]
        ensures { result.now ≡ (giving self.now).text };

    /// Passes the line that was seen.
    fn pass(&mut self)
        requires { 0 < length (giving self.old).seen }
        ensures passes { HasPassed (passed self.old) (passed self.new) (giving self.old) (giving self.new)
            (giving self.old).seen }
        ensures none { (giving self.new).seen ≡ [] }
        ensures faults { faults self.new ≡ faults self.old };
}
