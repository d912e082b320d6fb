use no_memory::NoMemory;
use thiserror::Error;

/// Why lines gave no state.
#[derive(Clone, Copy, Debug, PartialEq, Eq, Error)]
pub enum CheckpointFault {
    /// They are the checkpoint of no state.
    #[error("these lines are no checkpoint")]
    Bad,
    /// Memory ran out.
    #[error("out of memory")]
    NoMemory,
}

impl From<NoMemory> for CheckpointFault {
    ghost use Rattle.std.specs.Prelude.{◌≡◌};
    ghost use Rattle.embedded.specs.Faults.{fault_of_memory};

    ghost from_gives = { λ _ f. f ≡ fault_of_memory };

    fn from(_fault: NoMemory) -> CheckpointFault {
        CheckpointFault::NoMemory
    }
}
