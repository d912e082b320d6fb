ghost use Rattle.std.specs.Prelude.{◌≡◌, [], map};
ghost use Rattle.checkpoint_print.specs.Kept.{without_feed};

use byte_lines::SinkFault;
use report::LineTaker;
use std::alloc::Global;
use std::marker::Model;

/// Lines that are kept in memory, each without its line feed.
#[derive(Drop)]
pub(crate) struct KeptLines {
    alloc: Global,
    lines: Vec<Vec<u8>>,
}

impl Model for KeptLines {
    ghost use Rattle.std.specs.Prelude.{ℕ, List, map};

    ghost Value = { List (List ℕ) };

    ghost view = { λ a. map (λ line. line.items) a.lines.items };
}

impl KeptLines {
    /// No line yet. It takes no memory.
    pub(crate) fn new(alloc: Global) -> Self
        ensures { result ≡ [] }
    {
        KeptLines {
            alloc,
            lines: Vec::new(alloc),
        }
    }

    /// The lines.
    pub(crate) fn into_lines(self) -> Vec<Vec<u8>>
        ensures { map (λ line. line.items) result.items ≡ self }
    {
        self.lines
    }
}

/// A line without its last byte.
fn without_feed(line: &[u8]) -> &[u8]
    ensures { result.now ≡ without_feed line.now }
{
    match line.split_last() {
        Some((_feed, rest)) => rest,
        None => line,
    }
}

impl LineTaker for KeptLines {
    ghost use Rattle.std.specs.Prelude.{◌≡◌, ℕ, List, [], ◌∷◌, ◌++◌};
    ghost use Rattle.checkpoint_print.specs.Kept.{without_feed};

    ghost Taken = { List (List ℕ) };

    ghost taken = { λ list. list };

    ghost with_line = { λ lines line. lines ++ without_feed line ∷ [] };

    ghost IsPart = { λ lines line lines'. lines' ≡ lines };

    ghost faults = { λ _. 0 };

    fn take(&mut self, line: &[u8]) -> Result<(), SinkFault> {
        let mut copy = Vec::new(self.alloc);
        copy.extend_from_slice(without_feed(line))?;
        match self.lines.push(copy) {
            Ok(()) => Ok(()),
            Err(_) => Err(SinkFault::NoMemory),
        }
    }
}
