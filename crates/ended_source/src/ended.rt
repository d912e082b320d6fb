ghost use Rattle.std.specs.Prelude.{◌≡◌};
ghost use Rattle.ended_source.specs.Ended.{place_after, place_of};

use crate::place::Place;
use byte_lines::{Line, LineFault, Lines, Source};
use line_giver::LineGiver;

/// Gives the lines of a source up to the first that is `end`, and then no more. After a fault it
/// returns that fault again, and does not ask the source.
#[derive(Drop)]
pub struct EndedLines<'a, 'b, S: Source> {
    pub lines: &'a mut Lines,
    pub source: &'b mut S,
    pub place: Place,
}

// The place where a line is seen, or the end.
fn place_of(line: Line) -> Place
    ensures { result ≡ place_of line }
{
    match line {
        Line::Whole => Place::Whole,
        Line::TooLong => Place::TooLong,
        Line::End => Place::Ended,
    }
}

// The place after a whole line was passed.
fn place_after(line: &[u8]) -> Place
    ensures { result ≡ place_after line.now }
{
    if line == b"end".as_slice() {
        Place::Through
    } else {
        Place::Open
    }
}

impl<'a, 'b, S: Source> EndedLines<'a, 'b, S> {
    ghost use Rattle.std.specs.Prelude.{◌↔◌, [], Err, IfOk, OnErr};
    ghost use Rattle.byte_lines.specs.Faults.{CountsFaults};
    ghost use Rattle.line_giver.specs.Giving.{HasPassed, Sees};
    ghost use Rattle.ended_source.specs.Ended.{Standing, Tells, faults_at, giving_at, passed_at};

    /// Looks at the next line, as `peek` does. The place then says what was returned.
    pub fn look(&mut self) -> Result<Line, LineFault>
        ensures passes { let old : Standing = record {
          reader = self.old.lines.ghost_name;
          source = self.old.source.ghost_name;
          lines = self.old.lines.now;
          place = self.old.place;
          left = S.left self.old.source.now;
          failed = S.faults self.old.source.now;
        } in
            let new : Standing = record {
              reader = self.new.lines.ghost_name;
              source = self.new.source.ghost_name;
              lines = self.new.lines.now;
              place = self.new.place;
              left = S.left self.new.source.now;
              failed = S.faults self.new.source.now;
            } in
            HasPassed (passed_at old) (passed_at new) (giving_at old) (giving_at new) [] }
        ensures sees { IfOk result (Sees (giving_at (record {
          reader = self.new.lines.ghost_name;
          source = self.new.source.ghost_name;
          lines = self.new.lines.now;
          place = self.new.place;
          left = S.left self.new.source.now;
          failed = S.faults self.new.source.now;
        }))) }
        ensures counts { CountsFaults (result ≡ Err LineFault.ReadFault) (faults_at self.old.place) (faults_at self.new.place) }
        ensures told { Tells self.new.place result }
    {
        match self.place {
            Place::Open => {}
            Place::Whole => return Ok(Line::Whole),
            Place::TooLong => return Ok(Line::TooLong),
            Place::Through | Place::Ended => return Ok(Line::End),
            Place::Failed(fault) => return Err(fault),
        }
        match self.lines.next(self.source) {
            Ok(line) => {
                self.place = place_of(line);
                Ok(line)
            }
            Err(fault) => {
                self.place = Place::Failed(fault);
                Err(fault)
            }
        }
    }
}

impl<'a, 'b, S: Source> LineGiver for EndedLines<'a, 'b, S> {
    ghost use Rattle.ended_source.specs.Ended.{EndedText, IsOverAt, faults_at, giving_at, passed_at};

    ghost Stream = { EndedText };

    ghost passed = { λ g. passed_at (record {
      reader = g.lines.ghost_name;
      source = g.source.ghost_name;
      lines = g.lines.now;
      place = g.place;
      left = S.left g.source.now;
      failed = S.faults g.source.now;
    }) };

    ghost giving = { λ g. giving_at (record {
      reader = g.lines.ghost_name;
      source = g.source.ghost_name;
      lines = g.lines.now;
      place = g.place;
      left = S.left g.source.now;
      failed = S.faults g.source.now;
    }) };

    ghost IsOver = { λ g. IsOverAt g.place };

    ghost faults = { λ g. faults_at g.place };

    fn peek(&mut self) -> Result<Line, LineFault> {
        self.look()
    }

    fn text(&self) -> &[u8] {
        self.lines.text()
    }

    fn pass(&mut self) {
        match self.place {
            Place::Whole => self.place = place_after(self.lines.text()),
            Place::TooLong => self.place = Place::Open,
            Place::Open | Place::Through | Place::Ended | Place::Failed(_) => {}
        }
    }
}
