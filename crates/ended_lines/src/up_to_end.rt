ghost use Rattle.std.specs.Prelude.{◌≡◌, bytes_eq, codes};
ghost use Rattle.ended_lines.specs.UpTo.{stand_after, stand_at};

use byte_lines::{Line, LineFault};
use line_giver::LineGiver;

/// Where the lines up to the first `end` are.
#[derive(Clone, Copy)]
pub enum Stand {
    /// No `end` was seen.
    Open,
    /// The line that was seen last is the `end`.
    AtEnd,
    /// The `end` was passed.
    Ended,
    /// The stream is longer than its limit.
    Over,
    /// There was another error.
    Failed,
}

/// The lines of a giver up to and with the first `end`. After an error no line is given.
pub struct UpToEnd<'a, G: LineGiver> {
    pub giver: &'a mut G,
    pub stand: Stand,
}

/// Whether a line is `end` alone.
pub fn is_end(text: &[u8]) -> bool
    ensures { result ≡ bytes_eq text.now (codes "end") }
{
    text == b"end".as_slice()
}

/// Where the lines are at a line that is seen.
fn stand_at(line: Line, text: &[u8]) -> Stand
    ensures { result ≡ stand_at line text.now }
{
    match line {
        Line::Whole => {
            if is_end(text) {
                Stand::AtEnd
            } else {
                Stand::Open
            }
        }
        Line::TooLong | Line::End => Stand::Open,
    }
}

/// Where they are once it is passed.
fn stand_after(stand: Stand) -> Stand
    ensures { result ≡ stand_after stand }
{
    match stand {
        Stand::AtEnd => Stand::Ended,
        other => other,
    }
}

impl<'a, G: LineGiver> LineGiver for UpToEnd<'a, G> {
    ghost use Rattle.std.specs.Prelude.{ℕ};
    ghost use Rattle.ended_lines.specs.UpTo.{HasPassedUpTo, UpToOf, giving_up_to};
    ghost use Rattle.ended_lines.specs.declared.up_to_end.Stand.TheVariants.{Over};

    ghost Stream = { ℕ × UpToOf G.Stream };

    ghost passed = { λ g s before. (g.giver.ghost_name ≡ s.0)
        × HasPassedUpTo (G.passed g.giver.now) (G.IsOver g.giver.now) g.stand (G.giving g.giver.now) (G.faults g.giver.now) s.1 before };

    ghost giving = { λ g. giving_up_to g.stand (G.giving g.giver.now) };

    ghost IsOver = { λ g. g.stand ≡ Over };

    ghost faults = { λ g. G.faults g.giver.now };

    fn peek(&mut self) -> Result<Line, LineFault> {
        match self.stand {
            Stand::Ended => return Ok(Line::End),
            Stand::Over => return Err(LineFault::TooMuch),
            Stand::Failed => return Err(LineFault::NoMemory),
            Stand::Open | Stand::AtEnd => {}
        }
        match self.giver.peek() {
            Ok(line) => {
                self.stand = stand_at(line, self.giver.text());
                Ok(line)
            }
            Err(LineFault::TooMuch) => {
                self.stand = Stand::Over;
                Err(LineFault::TooMuch)
            }
            Err(fault) => {
                self.stand = Stand::Failed;
                Err(fault)
            }
        }
    }

    fn text(&self) -> &[u8] {
        self.giver.text()
    }

    fn pass(&mut self) {
        self.giver.pass();
        self.stand = stand_after(self.stand);
    }
}
