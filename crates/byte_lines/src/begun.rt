//! The line that is being read.
ghost use Rattle.std.specs.Prelude.{◌≡◌, ℕ, ◌≤◌, [], ◌↔◌, IsTrue, length, OnOk, OnErr};
ghost use Rattle.byte_lines.specs.Reader.{FitsIn, with_run};
ghost use Rattle.byte_lines.specs.Buffers.{Finishes};

use super::lines::Line;
use no_memory::NoMemory;
use std::alloc::Global;
use std::marker::Model;
use std::mem;

/// The bytes of the current line, or that it is too long already.
#[derive(Drop)]
pub struct Begun {
    line: Vec<u8>,
    is_too_long: bool,
}

impl Model for Begun {
    ghost use Rattle.std.specs.Prelude.{Some, None, length, if◌then◌else◌};
    ghost use Rattle.byte_lines.specs.Buffers.{LineBegun};

    ghost Value = { LineBegun };

    ghost view = { λ a. record {
      line = (if a.is_too_long then None else Some a.line.items);
      held = length a.line.items;
    } };
}

impl Begun {
    pub fn new(alloc: Global) -> Begun
        ensures { result ≡ record { line = Some []; held = 0 } }
    {
        Begun {
            line: Vec::new(alloc),
            is_too_long: false,
        }
    }

    pub fn is_empty(&self) -> bool
        ensures { IsTrue result ↔ (self.now.line ≡ Some []) }
    {
        !self.is_too_long && self.line.is_empty()
    }

    /// Adds bytes to the line. A line that grows beyond `max` bytes is dropped.
    pub fn extend(&mut self, max: usize, run: &[u8]) -> Result<(), NoMemory>
        requires { self.old.held ≤ max }
        ensures ok { OnOk result (self.new.line ≡ with_run max self.old.line run.now) }
        ensures err { OnErr result (self.new ≡ self.old) }
        ensures holds { self.new.held ≤ max }
        ensures fits { FitsIn max self.new.line }
    {
        if self.is_too_long {
            return Ok(());
        }
        if self.line.len() + run.len() > max {
            self.is_too_long = true;
            return Ok(());
        }
        self.line.extend_from_slice(run)?;
        Ok(())
    }

    /// Ends the line and begins another. `text` becomes the line unless it is too long.
    pub fn finish(&mut self, text: &mut Vec<u8>) -> Line
        ensures begun { self.new ≡ record { line = Some []; held = 0 } }
        ensures line { Finishes self.old.line text.old.items text.new.items result }
        ensures fits { (max : ℕ) → self.old.held ≤ max → length text.old.items ≤ max → length text.new.items ≤ max }
    {
        if self.is_too_long {
            self.is_too_long = false;
            self.line.clear();
            return Line::TooLong;
        }
        mem::swap(&mut self.line, text);
        self.line.clear();
        Line::Whole
    }
}
