//! The lines of a kind that come next.
ghost use Rattle.std.specs.Prelude.{◌≡◌, ◌++◌, ◌∷◌, [], true, Err, IfOk, None, OnOk, option_to_list};
ghost use Rattle.std.specs.List.{list_all};
ghost use Rattle.byte_lines.specs.Faults.{CountsFaults};
ghost use Rattle.line_giver.specs.Giving.{HasPassed};
ghost use Rattle.line_kinds.specs.Kinds.{SeesItem, StopsAt, lines_of_items};

use crate::reader::LineReader;
use byte_lines::{Line, LineFault};
use line_giver::LineGiver;
use no_memory::NoMemory;
use std::alloc::Global;

/// What the next line reads as, if it is a line of the kind.
fn read_next<R: LineReader, G: LineGiver>(
    giver: &mut G,
    text: &mut Vec<u8>,
) -> Result<Option<R::Item>, LineFault>
    ensures passes { HasPassed (G.passed giver.old) (G.passed giver.new) (G.giving giver.old) (G.giving giver.new) [] }
    ensures sees { IfOk result (SeesItem R.form R.words (G.giving giver.new)) }
    ensures over { result ≡ Err LineFault.TooMuch → G.IsOver giver.new }
    ensures counts { CountsFaults (result ≡ Err LineFault.ReadFault) (G.faults giver.old) (G.faults giver.new) }
{
    match giver.peek()? {
        Line::Whole => Ok(R::read_line(text, giver.text())?),
        Line::TooLong | Line::End => Ok(None),
    }
}

/// Reads the next line, and passes it, if it is a line of the kind. The buffer loses what it held.
/// An error passes no line.
pub fn read_one<R: LineReader, G: LineGiver>(
    giver: &mut G,
    text: &mut Vec<u8>,
) -> Result<Option<R::Item>, LineFault>
    ensures form { IfOk result (λ x. list_all R.form (option_to_list x) ≡ true) }
    ensures passes { IfOk result (λ x. HasPassed (G.passed giver.old) (G.passed giver.new)
        (G.giving giver.old) (G.giving giver.new)
        (lines_of_items R.form R.words (option_to_list x))) }
    ensures stops { IfOk result (λ x. x ≡ None → StopsAt R.form R.words (G.giving giver.new)) }
    ensures over { result ≡ Err LineFault.TooMuch → G.IsOver giver.new }
    ensures counts { CountsFaults (result ≡ Err LineFault.ReadFault) (G.faults giver.old) (G.faults giver.new) }
{
    match read_next::<R, G>(giver, text)? {
        Some(item) => {
            giver.pass();
            Ok(Some(item))
        }
        None => Ok(None),
    }
}

/// Adds an item.
fn keep<T: Drop>(items: &mut Vec<T>, item: T) -> Result<(), NoMemory>
    ensures { OnOk result (items.new.items ≡ items.old.items ++ item ∷ []) }
{
    items.push(item)?;
    Ok(())
}

/// Reads the lines of the kind that come next, in order, and passes them.
/// The buffer loses what it held. After an error the lines that were read are passed.
pub fn read_each<R: LineReader, G: LineGiver>(
    alloc: Global,
    giver: &mut G,
    text: &mut Vec<u8>,
) -> Result<Vec<R::Item>, LineFault>
    ensures form { IfOk result (λ xs. list_all R.form xs.items ≡ true) }
    ensures passes { IfOk result (λ xs. HasPassed (G.passed giver.old) (G.passed giver.new)
        (G.giving giver.old) (G.giving giver.new)
        (lines_of_items R.form R.words xs.items)) }
    ensures stops { IfOk result (λ xs. StopsAt R.form R.words (G.giving giver.new)) }
    ensures over { result ≡ Err LineFault.TooMuch → G.IsOver giver.new }
    ensures counts { CountsFaults (result ≡ Err LineFault.ReadFault) (G.faults giver.old) (G.faults giver.new) }
{
    let mut items = Vec::new(alloc);
    for _ in 0..u64::MAX {
        match read_one::<R, G>(giver, text)? {
            Some(item) => keep(&mut items, item)?,
            None => return Ok(items),
        }
    }
    // (no list has so many items)
    Err(LineFault::NoMemory)
}
