ghost use Rattle.std.specs.Prelude.{◌≡◌, ◌++◌, [], ◌∷◌, codes, decimal, length, map, IfOk};
ghost use Rattle.gov_ids.specs.Spelling.{action_id_text};
ghost use Rattle.report.specs.Taking.{HasPut};
ghost use Rattle.shortfall_model.specs.ShortLines.{count_words, short_lines, without_last_words};
ghost use Rattle.text_model.specs.Words.{line_of};

use crate::adding::{put_added, put_words};
use byte_lines::SinkFault;
use coin_frac::{NoMemory, Unit};
use gov_ids::{ActionId, Credential};
use report::{LineList, LineTaker, Word};
use shortfall_model::Short;
use std::alloc::Global;

/// Hands over the lines of what a proposal lacks: first that, then each chosen DRep. (Own)
/// Each replaces what the buffer held. After an error a prefix of the lines was taken.
pub fn put_short<T: LineTaker>(
    to: &mut T,
    text: &mut Vec<u8>,
    line: u64,
    id: &ActionId,
    short: &Short,
) -> Result<(), SinkFault>
    ensures { HasPut T.with_line T.IsPart line (T.taken to.old) (short_lines id.now short.now) (T.taken to.new)
        (T.faults to.old) (T.faults to.new) result }
{
    match short {
        Short::Never => put_never(to, text, line, id),
        Short::None { yes, total, need } => put_none(to, text, line, id, (*yes, *total), *need),
        Short::Least {
            chosen,
            yes,
            total,
            need,
            short,
        } => {
            let count = (*yes, *total);
            put_chosen(to, text, line, id, chosen.as_slice(), count, *need, *short)
        }
    }
}

/// The lines of what a proposal lacks, in memory, each with its line feed. (Own)
pub fn short_text(
    alloc: Global,
    line: u64,
    id: &ActionId,
    short: &Short,
) -> Result<Vec<Vec<u8>>, NoMemory>
    ensures { IfOk result (λ lines. map (λ l. l.items) lines.items ≡ map (line_of line) (short_lines id.now short.now)) }
{
    let mut list = LineList::new(alloc);
    let mut text = Vec::new(alloc);
    match put_short(&mut list, &mut text, line, id, short) {
        Ok(()) => Ok(list.into_lines()),
        Err(_) => Err(NoMemory),
    }
}

// No vote of DReps ratifies it.
fn put_never<T: LineTaker>(
    to: &mut T,
    text: &mut Vec<u8>,
    line: u64,
    id: &ActionId,
) -> Result<(), SinkFault>
    ensures { HasPut T.with_line T.IsPart line (T.taken to.old)
        ((codes "shortfall" ∷ action_id_text id.now ∷ codes "never" ∷ []) ∷ [])
        (T.taken to.new) (T.faults to.old) (T.faults to.new) result }
{
    let words = [
        Word::Text("shortfall"),
        Word::Action(id),
        Word::Text("never"),
    ];
    put_words(to, text, line, &words)
}

// The Yes of all silent DReps does not suffice.
fn put_none<T: LineTaker>(
    to: &mut T,
    text: &mut Vec<u8>,
    line: u64,
    id: &ActionId,
    count: (u64, u64),
    need: Unit,
) -> Result<(), SinkFault>
    ensures { HasPut T.with_line T.IsPart line (T.taken to.old)
        ((codes "shortfall" ∷ action_id_text id.now ∷ codes "none" ∷ count_words count.0 count.1 need) ∷ [])
        (T.taken to.new) (T.faults to.old) (T.faults to.new) result }
{
    let words = [
        Word::Text("shortfall"),
        Word::Action(id),
        Word::Text("none"),
        Word::Text("yes"),
        Word::Number(count.0),
        Word::Text("of"),
        Word::Number(count.1),
        Word::Text("need"),
        Word::Fraction(need.num(), need.den()),
    ];
    put_words(to, text, line, &words)
}

// The Yes of these DReps does.
fn put_chosen<T: LineTaker>(
    to: &mut T,
    text: &mut Vec<u8>,
    line: u64,
    id: &ActionId,
    chosen: &[(Credential, u64)],
    count: (u64, u64),
    need: Unit,
    short: u64,
) -> Result<(), SinkFault>
    ensures { HasPut T.with_line T.IsPart line (T.taken to.old)
        (short_lines id.now (Short.Least chosen.now count.0 count.1 need short))
        (T.taken to.new) (T.faults to.old) (T.faults to.new) result }
{
    if chosen.is_empty() {
        put_least(to, text, line, id, count, need)
    } else {
        put_least_of(to, text, line, id, chosen.len(), count, need, short)?;
        put_added(to, text, line, chosen)
    }
}

// None is chosen: the count reaches.
fn put_least<T: LineTaker>(
    to: &mut T,
    text: &mut Vec<u8>,
    line: u64,
    id: &ActionId,
    count: (u64, u64),
    need: Unit,
) -> Result<(), SinkFault>
    ensures { HasPut T.with_line T.IsPart line (T.taken to.old)
        ((codes "shortfall" ∷ action_id_text id.now ∷ codes "least" ∷ decimal 0 ∷ count_words count.0 count.1 need) ∷ [])
        (T.taken to.new) (T.faults to.old) (T.faults to.new) result }
{
    let words = [
        Word::Text("shortfall"),
        Word::Action(id),
        Word::Text("least"),
        Word::Number(0),
        Word::Text("yes"),
        Word::Number(count.0),
        Word::Text("of"),
        Word::Number(count.1),
        Word::Text("need"),
        Word::Fraction(need.num(), need.den()),
    ];
    put_words(to, text, line, &words)
}

// So many are chosen, and this is what Yes comes to without the last of them.
fn put_least_of<T: LineTaker>(
    to: &mut T,
    text: &mut Vec<u8>,
    line: u64,
    id: &ActionId,
    dreps: usize,
    count: (u64, u64),
    need: Unit,
    short: u64,
) -> Result<(), SinkFault>
    ensures { HasPut T.with_line T.IsPart line (T.taken to.old)
        ((codes "shortfall" ∷ action_id_text id.now ∷ codes "least" ∷ decimal dreps ∷ []
        ++ count_words count.0 count.1 need ++ codes "short" ∷ decimal short ∷ []) ∷ [])
        (T.taken to.new) (T.faults to.old) (T.faults to.new) result }
{
    let words = [
        Word::Text("shortfall"),
        Word::Action(id),
        Word::Text("least"),
        Word::Number(dreps as u64),
        Word::Text("yes"),
        Word::Number(count.0),
        Word::Text("of"),
        Word::Number(count.1),
        Word::Text("need"),
        Word::Fraction(need.num(), need.den()),
        Word::Text("short"),
        Word::Number(short),
    ];
    put_words(to, text, line, &words)
}
