ghost use Rattle.std.specs.Prelude.{◌≡◌, ◌≢◌, ◌∷◌, Err, IfErr, [], Ok, OnOk, Some};
ghost use Rattle.byte_lines.specs.Faults.{CountsFaults};
ghost use Rattle.byte_lines.specs.declared.lines.LineFault.TheVariants.{NoMemory};
ghost use Rattle.line_giver.specs.Giving.{PassesSome};
ghost use Rattle.ended_lines.specs.Ended.{PassesNoEnd, PassesText};
ghost use Rattle.ended_lines.specs.Steps.{PassesOne};

use crate::up_to_end::is_end;
use byte_lines::{Line, LineFault};
use line_giver::LineGiver;

/// The line that was passed.
enum Passed {
    /// It is not `end`.
    Other,
    /// It is `end`.
    Last,
    /// No line was left.
    Nothing,
}

/// Passes the line that was seen, which is whole.
fn pass_whole<G: LineGiver>(giver: &mut G) -> Passed
    requires { (G.giving giver.old).seen ≡ Some (G.giving giver.old).text ∷ [] }
    ensures one { PassesOne (G.passed giver.old) (G.passed giver.new) (G.giving giver.old) (G.giving giver.new) (Ok result) }
    ensures faults { G.faults giver.new ≡ G.faults giver.old }
{
    let is_last = is_end(giver.text());
    giver.pass();
    if is_last { Passed::Last } else { Passed::Other }
}

/// Passes one line. An error passes none.
fn pass_one<G: LineGiver>(giver: &mut G) -> Result<Passed, LineFault>
    ensures one { PassesOne (G.passed giver.old) (G.passed giver.new) (G.giving giver.old) (G.giving giver.new) result }
    ensures over { result ≡ Err LineFault.TooMuch → G.IsOver giver.new }
    ensures counts { CountsFaults (result ≡ Err LineFault.ReadFault) (G.faults giver.old) (G.faults giver.new) }
{
    match giver.peek()? {
        Line::Whole => Ok(pass_whole(giver)),
        Line::TooLong => {
            giver.pass();
            Ok(Passed::Other)
        }
        Line::End => Ok(Passed::Nothing),
    }
}

/// Passes the lines up to and with the first `end`, or all lines. Nothing is kept of them.
pub fn pass_to_end<G: LineGiver>(giver: &mut G) -> Result<(), LineFault>
    ensures text { OnOk result (PassesText (G.passed giver.old) (G.passed giver.new) (G.giving giver.old) (G.giving giver.new)) }
    ensures unended { IfErr result (λ fault. fault ≢ NoMemory →
        PassesNoEnd (G.passed giver.old) (G.passed giver.new) (G.giving giver.old) (G.giving giver.new)) }
    ensures passes { PassesSome (G.passed giver.old) (G.passed giver.new) (G.giving giver.old) (G.giving giver.new) }
    ensures over { result ≡ Err LineFault.TooMuch → G.IsOver giver.new }
    ensures counts { CountsFaults (result ≡ Err LineFault.ReadFault) (G.faults giver.old) (G.faults giver.new) }
{
    for _ in 0..u64::MAX {
        match pass_one(giver)? {
            Passed::Other => {}
            Passed::Last | Passed::Nothing => return Ok(()),
        }
    }
    // (no stream has so many lines)
    Err(LineFault::NoMemory)
}
