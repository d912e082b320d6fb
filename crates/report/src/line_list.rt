ghost use Rattle.std.specs.Prelude.{◌≡◌, [], map};

use crate::lines::LineTaker;
use byte_lines::SinkFault;
use std::alloc::Global;
use std::marker::Model;

/// Lines that are kept in memory.
#[derive(Drop)]
pub struct LineList {
    alloc: Global,
    lines: Vec<Vec<u8>>,
}

impl Model for LineList {
    ghost use Rattle.std.specs.Prelude.{ℕ, List, map};

    ghost Value = { List (List ℕ) };

    ghost view = { λ a. map (λ line. line.items) a.lines.items };
}

impl LineList {
    /// No line yet. It takes no memory.
    pub fn new(alloc: Global) -> Self
        ensures { result ≡ [] }
    {
        LineList {
            alloc,
            lines: Vec::new(alloc),
        }
    }

    /// The lines, each with its line feed.
    pub fn into_lines(self) -> Vec<Vec<u8>>
        ensures { map (λ line. line.items) result.items ≡ self }
    {
        self.lines
    }
}

impl LineTaker for LineList {
    ghost use Rattle.std.specs.Prelude.{◌≡◌, ℕ, List, [], ◌∷◌, ◌++◌};

    ghost Taken = { List (List ℕ) };

    ghost taken = { λ list. list };

    ghost with_line = { λ lines line. lines ++ line ∷ [] };

    ghost IsPart = { λ lines line lines'. lines' ≡ lines };

    ghost faults = { λ _. 0 };

    fn take(&mut self, line: &[u8]) -> Result<(), SinkFault> {
        let mut copy = Vec::new(self.alloc);
        copy.extend_from_slice(line)?;
        match self.lines.push(copy) {
            Ok(()) => Ok(()),
            Err(_) => Err(SinkFault::NoMemory),
        }
    }
}
