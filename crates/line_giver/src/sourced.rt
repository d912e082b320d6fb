ghost use Rattle.std.specs.Prelude.{◌≡◌};

use crate::giver::LineGiver;
use byte_lines::{Line, LineFault, Lines, Source};

/// The lines of a source, read by a reader of lines.
#[derive(Drop)]
pub struct SourcedLines<'a, 'b, S: Source> {
    pub lines: &'a mut Lines,
    pub source: &'b mut S,
    /// The line that was seen and not passed; `End` if there is none.
    pub seen: Line,
}

impl<'a, 'b, S: Source> LineGiver for SourcedLines<'a, 'b, S> {
    ghost use Rattle.line_giver.specs.Sourced.{HasPassedOf, IsOverOf, Lent, giving_of};

    ghost Stream = { Lent };

    ghost passed = { λ g s before.
        HasPassedOf s g.lines.ghost_name g.source.ghost_name g.lines.now g.seen (S.left g.source.now) before };

    ghost giving = { λ g. giving_of g.lines.now g.seen (S.left g.source.now) };

    ghost IsOver = { λ g. IsOverOf g.lines.now g.seen };

    ghost faults = { λ g. S.faults g.source.now };

    fn peek(&mut self) -> Result<Line, LineFault> {
        match self.seen {
            Line::Whole => return Ok(Line::Whole),
            Line::TooLong => return Ok(Line::TooLong),
            Line::End => {}
        }
        let line = self.lines.next(self.source)?;
        self.seen = line;
        Ok(line)
    }

    fn text(&self) -> &[u8] {
        self.lines.text()
    }

    fn pass(&mut self) {
        self.seen = Line::End;
    }
}
