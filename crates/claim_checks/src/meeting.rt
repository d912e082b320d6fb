//! A taker of lines that are the next ones of a giver.
ghost use Rattle.std.specs.Prelude.{◌≡◌, false, None, Ok, true};
ghost use Rattle.claim_checks.specs.Lines.{is_line_of, left_after};
ghost use Rattle.line_giver.specs.Giving.{PassesSome, lines_of_giving};

use byte_lines::{Line, LineFault, SinkFault};
use line_giver::LineGiver;
use report::LineTaker;
use std::marker::{Brand, Model, PhantomData};

/// How lines compare with those of a giver.
#[derive(Clone, Copy)]
pub(crate) enum Stand {
    /// Each was the next one that was given.
    Same,
    /// The last one was not.
    Differs,
    /// There was no next line, for this cause.
    Failed(LineFault),
}

/// The loan of a giver as it was at the start, for the proof alone.
pub(crate) trait Start<G> {
    ghost use Rattle.std.specs.Prelude.{Option};
    ghost use Rattle.claim_checks.specs.Meeting.{Loan};

    ghost start: { Option (Loan G) };
}

impl<G> Start<G> for Brand {
    ghost use Rattle.std.specs.Prelude.{None};

    ghost start = { None };
}

/// Takes lines that are the next ones of a giver, and passes them there. At any other line it
/// answers with a fault, and says in `stand` why.
pub(crate) struct Meeting<'a, G: LineGiver, W: Start<G>> {
    pub(crate) giver: &'a mut G,
    pub(crate) stand: Stand,
    pub(crate) start: PhantomData<W>,
}

impl<'a, G: LineGiver, W: Start<G>> Model for Meeting<'a, G, W> {
    ghost use Rattle.claim_checks.specs.Meeting.{IsSince, Met};
    ghost use Rattle.line_giver.specs.Giving.{lines_of_giving};

    ghost Value = { Met };

    ghost view = { λ m. record { left = lines_of_giving (G.giving m.giver.now); stand = m.stand } };

    ghost invariant = { λ m. IsSince G.passed G.giving W.start (record { name = m.giver.ghost_name; giver = m.giver.now }) };
}

/// Whether a line, with its line feed, is that of a text.
fn is_line_of(line: &[u8], text: &[u8]) -> bool
    ensures { result ≡ is_line_of line.now text.now }
{
    match line.split_last() {
        Some((last, before)) => *last == b'\n' && before == text,
        None => false,
    }
}

/// Passes the next line of a giver if it is this one, and returns whether it is.
fn pass_line<G: LineGiver>(giver: &mut G, line: &[u8]) -> Result<bool, LineFault>
    ensures same { result ≡ Ok true → lines_of_giving (G.giving giver.new) ≡ left_after (lines_of_giving (G.giving giver.old)) line.now }
    ensures differs { result ≡ Ok false → left_after (lines_of_giving (G.giving giver.old)) line.now ≡ None }
    ensures passes { PassesSome (G.passed giver.old) (G.passed giver.new) (G.giving giver.old) (G.giving giver.new) }
{
    match giver.peek()? {
        Line::Whole => {
            let is_same = is_line_of(line, giver.text());
            if is_same {
                giver.pass();
            }
            Ok(is_same)
        }
        Line::TooLong | Line::End => Ok(false),
    }
}

impl<'a, G: LineGiver, W: Start<G>> LineTaker for Meeting<'a, G, W> {
    ghost use Rattle.std.specs.Prelude.{◌-◌, ◌^◌};
    ghost use Rattle.claim_checks.specs.Meeting.{IsUnmet, Met, with_met};

    ghost Taken = { Met };

    ghost taken = { λ m. m };

    ghost with_line = { with_met };

    ghost IsPart = { IsUnmet };

    // the greatest count: no count tells more
    ghost faults = { λ m. 2 ^ 64 - 1 };

    fn take(&mut self, line: &[u8]) -> Result<(), SinkFault> {
        match pass_line(self.giver, line) {
            Ok(true) => return Ok(()),
            Ok(false) => self.stand = Stand::Differs,
            Err(fault) => self.stand = Stand::Failed(fault),
        }
        Err(SinkFault::WriteFault)
    }
}
