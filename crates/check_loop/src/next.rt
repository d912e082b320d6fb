//! The answer to the text that comes next.
ghost use Rattle.std.specs.Prelude.{◌≡◌};
ghost use Rattle.check_loop.specs.Next.{HasNext};
ghost use Rattle.ended_source.specs.Ended.{IsCalm};
ghost use Rattle.ended_source.specs.declared.place.Place.TheVariants.{Open};

use crate::checker::TextChecker;
use byte_lines::{Line, LineFault, Lines, Source};
use ended_source::{EndedLines, Place, fault_of, pass_all};
use std::alloc::Global;

// The answer to a text, all of which is passed; none if no line is left.
fn answer_ended<C: TextChecker, S: Source>(
    alloc: Global,
    ended: &mut EndedLines<S>,
    text: &mut Vec<u8>,
) -> Result<Option<bool>, LineFault>
    requires begins { ended.old.place ≡ Open }
    requires calm { IsCalm ended.old.lines.now }
    ensures next { HasNext C.IsRight ended.old.lines.now ended.new.lines.now (S.left ended.old.source.now) (S.left ended.new.source.now)
        (S.faults ended.old.source.now) (S.faults ended.new.source.now) result }
    ensures same_reader { ended.new.lines.ghost_name ≡ ended.old.lines.ghost_name }
    ensures same_source { ended.new.source.ghost_name ≡ ended.old.source.ghost_name }
{
    let line = ended.look()?;
    if line == Line::End {
        return Ok(None);
    }
    let Ok(answer) = C::is_right(alloc, ended, text) else {
        return Err(fault_of(ended.place));
    };
    pass_all(ended)?;
    Ok(Some(answer))
}

// The answer to the text that comes next, which is passed; none if no line is left.
pub(crate) fn answer_next<C: TextChecker, S: Source>(
    alloc: Global,
    lines: &mut Lines,
    source: &mut S,
    text: &mut Vec<u8>,
) -> Result<Option<bool>, LineFault>
    requires { IsCalm lines.old }
    ensures { HasNext C.IsRight lines.old lines.new (S.left source.old) (S.left source.new) (S.faults source.old) (S.faults source.new) result }
{
    let mut ended = EndedLines {
        lines,
        source,
        place: Place::Open,
    };
    answer_ended::<C, S>(alloc, &mut ended, text)
}
