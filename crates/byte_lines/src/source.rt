//! Where bytes come from.
ghost use Rattle.std.specs.Prelude.{ℕ, ◌<◌, List, Option, length};
ghost use Rattle.byte_lines.specs.Sources.{IsRead};

use thiserror::Error;

/// A read failed, and the source's count of faults rose.
#[derive(Clone, Copy, Debug, PartialEq, Eq, Error)]
#[error("a read failed")]
pub struct ReadFault;

/// A source of bytes.
pub trait Source {
    // the bytes left, if the source reports them: for its whole life, or never
    ghost left: { Self → Option (List ℕ) };

    // how many reads failed; it never falls
    ghost faults: { Self → ℕ };

    /// Reads into the first bytes of `into` and returns how many: 0 only at the end.
    fn read(&mut self, into: &mut [u8]) -> Result<usize, ReadFault>
        requires { 0 < length into.old }
        ensures { IsRead (left self.old) (left self.new) (faults self.old) (faults self.new) into.new result };
}
