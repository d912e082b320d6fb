//! The reader of lines.
ghost use Rattle.std.specs.Prelude.{◌≡◌, ℕ, ◌≤◌, ◌++◌, List, [], Option, Some, length, false, true, IsTrue};
ghost use Rattle.std.specs.Io.KnownBytes.{IsAtEnd};
ghost use Rattle.byte_lines.specs.Answers.{Advances, HasTaken, IsAnswer, IsBounded, IsStopped, Passes, line_given};
ghost use Rattle.byte_lines.specs.Faults.{CountsFaults};
ghost use Rattle.byte_lines.specs.Pieces.{has_feed, lines_of};
ghost use Rattle.byte_lines.specs.Progress.{HasRead};
ghost use Rattle.byte_lines.specs.Reader.{lines_left, part_max};
ghost use Rattle.byte_lines.specs.Turns.{IsReading, ReadsOn, LooksAhead, Ends, TakesMore};

use super::ahead::Ahead;
use super::begun::Begun;
use super::source::{ReadFault, Source};
use memchr::memchr;
use no_memory::NoMemory;
use std::alloc::{AllocError, Global};
use std::marker::Model;
use thiserror::Error;

/// The answer of `next`.
#[derive(Clone, Copy, Debug, PartialEq, Eq)]
pub enum Line {
    /// A line without its line feed, in `text`.
    Whole,
    /// A line of more than `line_max` bytes. It was skipped.
    TooLong,
    /// The end of the source, with no line left. Each later call returns it again.
    End,
}

/// Why there is no line.
#[derive(Clone, Copy, Debug, PartialEq, Eq, Error)]
pub enum LineFault {
    /// A read failed. The bytes read are kept, and a later call reads on.
    #[error("a read failed")]
    ReadFault,
    /// The source has more than `stream_max` bytes. Each later call returns this again.
    #[error("the stream is longer than its limit")]
    TooMuch,
    /// Out of memory. Each later call returns this again.
    #[error("out of memory")]
    NoMemory,
}

impl From<ReadFault> for LineFault {
    ghost use Rattle.byte_lines.specs.declared.lines.LineFault.TheVariants.{ReadFault};

    ghost from_gives = { λ _ fault. fault ≡ ReadFault };

    fn from(_fault: ReadFault) -> LineFault {
        LineFault::ReadFault
    }
}

impl From<NoMemory> for LineFault {
    ghost use Rattle.byte_lines.specs.declared.lines.LineFault.TheVariants.{NoMemory};

    ghost from_gives = { λ _ fault. fault ≡ NoMemory };

    fn from(_error: NoMemory) -> LineFault {
        LineFault::NoMemory
    }
}

impl From<AllocError> for LineFault {
    ghost use Rattle.byte_lines.specs.declared.lines.LineFault.TheVariants.{NoMemory};

    ghost from_gives = { λ _ fault. fault ≡ NoMemory };

    fn from(_error: AllocError) -> LineFault {
        LineFault::NoMemory
    }
}

/// The state of a reader.
#[derive(Clone, Copy)]
enum State {
    Reading,
    Ended,
    TooMuch,
    NoMemory,
}

/// Reads the lines of a source, whatever parts the source gives. Lines are numbered from 1.
/// A line ends at a line feed. A last line without one ends at the end, if it is not empty.
#[derive(Drop)]
pub struct Lines {
    line_max: u32,
    stream_max: u64,
    taken: u64,
    begun: Begun,
    ahead: Ahead,
    text: Vec<u8>,
    number: u64,
    state: State,
}

impl Model for Lines {
    ghost use Rattle.std.specs.Prelude.{◌+◌};
    ghost use Rattle.byte_lines.specs.Reader.{Reader};
    ghost use Rattle.byte_lines.specs.States.{is_ended, is_failed, bytes_over, AreSoundFields};

    ghost Value = { Reader };

    ghost view = { λ a. record {
      line_max = a.line_max;
      stream_max = a.stream_max;
      taken = a.taken + bytes_over a.state;
      begun = a.begun.line;
      ahead = a.ahead.bytes;
      held = a.begun.held + a.ahead.held;
      text = a.text.items;
      number = a.number;
      ended = is_ended a.state;
      failed = is_failed a.state;
    } };

    ghost invariant = { λ a. AreSoundFields a.state a.line_max a.stream_max a.taken a.number a.begun a.ahead a.text.items };
}

impl Lines {
    /// A reader before its first line. It takes no memory until the first `next`.
    pub fn new(alloc: Global, line_max: u32, stream_max: u64) -> Lines
        ensures reader { result ≡ record {
          line_max = line_max;
          stream_max = stream_max;
          taken = 0;
          begun = Some [];
          ahead = [];
          held = 0;
          text = [];
          number = 0;
          ended = false;
          failed = false;
        } }
        ensures reads { (bytes : List ℕ) → HasRead bytes result (Some bytes) [] }
        ensures lines { (bytes : List ℕ) → lines_left result bytes ≡ lines_of line_max bytes }
    {
        Lines {
            line_max,
            stream_max,
            taken: 0,
            begun: Begun::new(alloc),
            ahead: Ahead::new(alloc),
            text: Vec::new(alloc),
            number: 0,
            state: State::Reading,
        }
    }

    /// Reads the next line. An error leaves `text` and `number` unchanged.
    pub fn next<S: Source>(&mut self, source: &mut S) -> Result<Line, LineFault>
        // for every stream: with this line, the lines given are those of the bytes read
        ensures reads { (bytes : List ℕ) (given : List (Option (List ℕ))) →
            HasRead bytes self.old (S.left source.old) given →
            HasRead bytes self.new (S.left source.new) (given ++ line_given result self.new) }
        ensures took { HasTaken self.old self.new (S.left source.old) (S.left source.new)
            (line_given result self.new) }
        ensures advances { Advances self.old self.new result }
        ensures bounded { IsBounded self.new }
        ensures answer { IsAnswer self.old self.new result }
        ensures counts { CountsFaults (result ≡ Err LineFault.ReadFault) (S.faults source.old) (S.faults source.new) }
        // a reader that has stopped, or has a whole line in its buffer, does not call the source
        ensures stopped { IsStopped self.old → (self.new ≡ self.old) × (source.new ≡ source.old) }
        ensures asks { has_feed self.old.ahead ≡ true → source.new ≡ source.old }
        // and returns that line
        ensures passes { has_feed self.old.ahead ≡ true → Passes self.old self.new result }
    {
        match self.state {
            State::Reading => {}
            State::Ended => return Ok(Line::End),
            State::TooMuch => return Err(LineFault::TooMuch),
            State::NoMemory => return Err(LineFault::NoMemory),
        }
        let answer = self.read_line(source);
        if let Err(LineFault::NoMemory) = answer {
            self.state = State::NoMemory;
        }
        answer
    }

    /// The line of the last `Whole`, without its line feed; empty before the first.
    pub fn text(&self) -> &[u8]
        ensures line { result.now ≡ self.now.text }
        ensures fits { length result.now ≤ self.now.line_max }
    {
        &self.text
    }

    /// The bytes that were read and not examined yet.
    pub fn ahead(&self) -> &[u8]
        ensures { result.now ≡ self.now.ahead }
    {
        self.ahead.as_slice()
    }

    /// The number, from 1, of the line of the last `Whole` or `TooLong`; 0 before the first.
    pub fn number(&self) -> u64
        ensures { result ≡ self.now.number }
    {
        self.number
    }

    fn read_line<S: Source>(&mut self, source: &mut S) -> Result<Line, LineFault>
        requires { IsReading self.old }
        ensures reads { ReadsOn self.old self.new (S.left source.old) (S.left source.new) result }
        ensures took { HasTaken self.old self.new (S.left source.old) (S.left source.new)
            (line_given result self.new) }
        ensures counts { CountsFaults (result ≡ Err LineFault.ReadFault) (S.faults source.old) (S.faults source.new) }
        ensures asks { has_feed self.old.ahead ≡ true → source.new ≡ source.old }
        ensures passes { has_feed self.old.ahead ≡ true → Passes self.old self.new result }
    {
        loop {
            if let Some(line) = self.line_ahead()? {
                return Ok(line);
            }
            if self.take_more(source)? == 0 {
                return Ok(self.last_line());
            }
        }
    }

    /// The line that ends in the buffer. Without one, the whole buffer joins the current line.
    fn line_ahead(&mut self) -> Result<Option<Line>, NoMemory>
        requires { IsReading self.old }
        ensures looks { LooksAhead self.old self.new result }
        ensures part { length self.old.ahead ≤ part_max }
    {
        let ahead = self.ahead.as_slice();
        match memchr(b'\n', ahead) {
            Some(at) => {
                self.begun.extend(self.line_max as usize, &ahead[..at])?;
                self.ahead.pass(at + 1);
                self.number += 1;
                Ok(Some(self.begun.finish(&mut self.text)))
            }
            None => {
                let count = ahead.len();
                self.begun.extend(self.line_max as usize, ahead)?;
                self.ahead.pass(count);
                Ok(None)
            }
        }
    }

    /// The line that the end of the source ends.
    fn last_line(&mut self) -> Line
        requires reading { IsReading self.old }
        requires looked { self.old.ahead ≡ [] }
        ensures { Ends self.old self.new result }
    {
        self.state = State::Ended;
        if self.begun.is_empty() {
            return Line::End;
        }
        self.number += 1;
        self.begun.finish(&mut self.text)
    }

    /// Reads once, into an empty buffer. Returns how many bytes came, 0 at the end.
    fn take_more<S: Source>(&mut self, source: &mut S) -> Result<usize, LineFault>
        requires reading { IsReading self.old }
        requires looked { self.old.ahead ≡ [] }
        ensures takes { TakesMore self.old self.new (S.left source.old) (S.left source.new) result }
        ensures counts { CountsFaults (result ≡ Err LineFault.ReadFault) (S.faults source.old) (S.faults source.new) }
    {
        let room = self.stream_max - self.taken;
        if room == 0 {
            return self.look_beyond(source);
        }
        let count = self.ahead.refill(source, room as usize)?;
        self.taken += count as u64;
        Ok(count)
    }

    /// Checks for a byte beyond the limit.
    fn look_beyond<S: Source>(&mut self, source: &mut S) -> Result<usize, LineFault>
        requires reading { IsReading self.old }
        requires looked { self.old.ahead ≡ [] }
        requires full { self.old.stream_max ≤ self.old.taken }
        ensures takes { TakesMore self.old self.new (S.left source.old) (S.left source.new) result }
        ensures counts { CountsFaults (result ≡ Err LineFault.ReadFault) (S.faults source.old) (S.faults source.new) }
    {
        let count = self.ahead.refill(source, 1)?;
        if count == 0 {
            return Ok(0);
        }
        self.ahead.pass(count);
        self.state = State::TooMuch;
        Err(LineFault::TooMuch)
    }
}
