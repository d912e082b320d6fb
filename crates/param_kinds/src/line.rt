//! The line of one parameter.
ghost use Rattle.std.specs.Prelude.{◌≡◌, ◌≤◌, ◌∷◌, [], Err, IfOk, length};
ghost use Rattle.byte_lines.specs.Faults.{CountsFaults};
ghost use Rattle.line_giver.specs.Giving.{HasPassed, IsThrough, PassesSome, lines_of_giving};
ghost use Rattle.line_kinds.specs.Kinds.{ReadsLine};
ghost use Rattle.text_model.specs.ParamLines.{param};
ghost use Rattle.param_kinds.specs.Runs.{IsSeen, ReadsLines};

use crate::front::value_part;
use byte_lines::{Line, LineFault};
use line_giver::LineGiver;
use line_kinds::{LineKind, read_line};
use no_memory::NoMemory;

/// Reads the line of a parameter of this name, whose value has the words of the kind.
fn read_named<K: LineKind>(
    text: &mut Vec<u8>,
    line: &[u8],
    name: &str,
) -> Result<Option<K::Item>, NoMemory>
    ensures { IfOk result (ReadsLine K.form (λ x. param name.now (K.words x)) line.now) }
{
    // (laws: a value has a word)
    K::laws();
    match value_part(line, name) {
        Some(value) => read_line::<K>(text, value),
        None => Ok(None),
    }
}

/// What the next line reads as, if it is a line of that parameter.
fn read_next<K: LineKind, G: LineGiver>(
    giver: &mut G,
    text: &mut Vec<u8>,
    name: &str,
) -> Result<Option<K::Item>, LineFault>
    ensures passes { HasPassed (G.passed giver.old) (G.passed giver.new) (G.giving giver.old) (G.giving giver.new) [] }
    ensures sees { IfOk result (IsSeen K.form (λ x. param name.now (K.words x)) (G.giving giver.new)) }
    ensures end { IfOk result (λ x. (G.giving giver.new).seen ≡ [] → IsThrough (lines_of_giving (G.giving giver.new))) }
    ensures one { IfOk result (λ x. length (G.giving giver.new).seen ≤ 1) }
    ensures over { result ≡ Err LineFault.TooMuch → G.IsOver giver.new }
    ensures counts { CountsFaults (result ≡ Err LineFault.ReadFault) (G.faults giver.old) (G.faults giver.new) }
{
    match giver.peek()? {
        Line::Whole => Ok(read_named::<K>(text, giver.text(), name)?),
        Line::TooLong | Line::End => Ok(None),
    }
}

/// Reads the line of a parameter, and passes it, if it comes next. The buffer loses what it held.
/// An error passes no line.
pub(crate) fn read_param<K: LineKind, G: LineGiver>(
    giver: &mut G,
    text: &mut Vec<u8>,
    name: &str,
) -> Result<Option<K::Item>, LineFault>
    ensures reads { IfOk result (ReadsLines K.form (λ x. param name.now (K.words x) ∷ [])
        (G.passed giver.old) (G.passed giver.new) (G.giving giver.old) (G.giving giver.new)) }
    ensures passes { PassesSome (G.passed giver.old) (G.passed giver.new) (G.giving giver.old) (G.giving giver.new) }
    ensures over { result ≡ Err LineFault.TooMuch → G.IsOver giver.new }
    ensures counts { CountsFaults (result ≡ Err LineFault.ReadFault) (G.faults giver.old) (G.faults giver.new) }
{
    match read_next::<K, G>(giver, text, name)? {
        Some(item) => {
            giver.pass();
            Ok(Some(item))
        }
        None => Ok(None),
    }
}
