//! The current line.
ghost use Rattle.std.specs.Prelude.{◌≡◌, ◌+◌, ◌≤◌, [], ◌++◌, IfOk, length};
ghost use Rattle.gen_load.specs.declared.line.TheConstants.{LINE_MAX};

use no_memory::NoMemory;
use std::alloc::Global;
use std::marker::Model;

/// A bound on the length of a line of the stream, in bytes, with its line feed.
pub(crate) const LINE_MAX: usize = 262_144;

/// The line being written, with room for the longest.
#[derive(Drop)]
pub(crate) struct LineBuffer {
    bytes: Vec<u8>,
}

impl Model for LineBuffer {
    ghost use Rattle.std.specs.Prelude.{ℕ, ◌≤◌, List, vec_capacity};
    ghost use Rattle.gen_load.specs.declared.line.TheConstants.{LINE_MAX};

    ghost Value = { List ℕ };

    ghost view = { λ a. a.bytes.items };

    ghost invariant = { λ a. LINE_MAX ≤ vec_capacity a.bytes };
}

impl LineBuffer {
    /// An empty line. It takes the memory of the longest one.
    pub(crate) fn new(alloc: Global) -> Result<LineBuffer, NoMemory>
        ensures { IfOk result (λ line. line ≡ []) }
    {
        let bytes = Vec::with_capacity(alloc, LINE_MAX)?;
        Ok(LineBuffer { bytes })
    }

    pub(crate) fn as_slice(&self) -> &[u8]
        ensures { result.now ≡ self.now }
    {
        &self.bytes
    }

    pub(crate) fn clear(&mut self)
        ensures { self.new ≡ [] }
    {
        self.bytes.clear();
    }

    /// Adds bytes. It takes no memory.
    pub(crate) fn push(&mut self, text: &[u8])
        requires room { length self.old + length text.now ≤ LINE_MAX }
        ensures text { self.new ≡ self.old ++ text.now }
        ensures longer { length self.new ≡ length self.old + length text.now }
    {
        // there is room, so this cannot fail
        let _pushed = self.bytes.extend_from_slice(text);
    }
}
