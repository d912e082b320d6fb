//! `NoMemory`: memory ran out.
#![tactic(auto)]

use std::alloc::{AllocError, AllocFailed};

/// Memory ran out. No clause says when it may come.
#[derive(Clone, Copy, Debug, PartialEq, Eq)]
pub struct NoMemory;

impl From<AllocError> for NoMemory {
    ghost use Rattle.std.specs.Prelude.{◌≡◌};
    ghost use Rattle.no_memory.specs.Memory.{no_memory};

    ghost from_gives = { λ _ e. e ≡ no_memory };

    fn from(_error: AllocError) -> NoMemory {
        NoMemory
    }
}

impl<T: Drop> From<AllocFailed<T>> for NoMemory {
    ghost use Rattle.std.specs.Prelude.{◌≡◌};
    ghost use Rattle.no_memory.specs.Memory.{no_memory};

    ghost from_gives = { λ _ e. e ≡ no_memory };

    fn from(_error: AllocFailed<T>) -> NoMemory {
        NoMemory
    }
}
