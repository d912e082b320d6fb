ghost use Rattle.std.specs.Prelude.{◌≡◌};

use crate::giver::LineGiver;
use byte_lines::{Line, LineFault};

/// The lines of a slice, each without its line feed. None of them is too long.
#[derive(Drop)]
pub struct ListedLines<'a> {
    pub lines: &'a [Vec<u8>],
    /// The first of them was seen.
    pub is_seen: bool,
}

impl<'a> LineGiver for ListedLines<'a> {
    ghost use Rattle.std.specs.Prelude.{ℕ, ◌++◌, List};
    ghost use Rattle.line_giver.specs.OfList.{giving_in, texts_of, whole_lines};

    ghost Stream = { List (List ℕ) };

    ghost passed = { λ g s before. whole_lines s ≡ before ++ whole_lines (texts_of g.lines.now) };

    ghost giving = { λ g. giving_in (texts_of g.lines.now) g.is_seen };

    ghost IsOver = { λ g. ⊥ };

    ghost faults = { λ g. 0 };

    fn peek(&mut self) -> Result<Line, LineFault> {
        if self.lines.is_empty() {
            return Ok(Line::End);
        }
        self.is_seen = true;
        Ok(Line::Whole)
    }

    fn text(&self) -> &[u8] {
        match self.lines.first() {
            Some(line) => line.as_slice(),
            None => &[],
        }
    }

    fn pass(&mut self) {
        self.lines = &self.lines[1..];
        self.is_seen = false;
    }
}
