use crate::outcome::Outcome;
use crate::status::{GenesisCause, Status};
use line_runs::RunFault;
use no_memory::NoMemory;
use std::alloc::AllocError;

/// Why what was read has no answer.
#[derive(Clone, Copy)]
pub enum AnswerFault {
    /// It came first, and is no genesis to begin with.
    BadGenesis(GenesisCause),
    /// Memory ran out.
    NoMemory,
}

/// The state after what was read and its outcome, or why there is no answer.
pub type Answered<R> = Result<(R, Outcome), AnswerFault>;

impl From<NoMemory> for AnswerFault {
    ghost use Rattle.std.specs.Prelude.{◌≡◌};
    ghost use Rattle.replay_loop.specs.declared.fault.AnswerFault.TheVariants as faults;

    ghost from_gives = { λ _ f. f ≡ faults.NoMemory };

    fn from(_error: NoMemory) -> AnswerFault {
        AnswerFault::NoMemory
    }
}

impl From<AllocError> for AnswerFault {
    ghost use Rattle.std.specs.Prelude.{◌≡◌};
    ghost use Rattle.replay_loop.specs.declared.fault.AnswerFault.TheVariants as faults;

    ghost from_gives = { λ _ f. f ≡ faults.NoMemory };

    fn from(_error: AllocError) -> AnswerFault {
        AnswerFault::NoMemory
    }
}

impl From<AnswerFault> for RunFault<GenesisCause> {
    ghost use Rattle.std.specs.Prelude.{◌≡◌};
    ghost use Rattle.replay_loop.specs.Statuses.{fault_of_answer};

    ghost from_gives = { λ fault f. f ≡ fault_of_answer fault };

    fn from(fault: AnswerFault) -> RunFault<GenesisCause> {
        match fault {
            AnswerFault::BadGenesis(cause) => RunFault::Stop(cause),
            AnswerFault::NoMemory => RunFault::NoMemory,
        }
    }
}

impl From<RunFault<GenesisCause>> for Status {
    ghost use Rattle.std.specs.Prelude.{◌≡◌};
    ghost use Rattle.replay_loop.specs.Statuses.{status_of_fault};

    ghost from_gives = { λ fault status. status ≡ status_of_fault fault };

    fn from(fault: RunFault<GenesisCause>) -> Status {
        match fault {
            RunFault::Stop(cause) => Status::BadGenesis(cause),
            RunFault::ReadFault => Status::ReadFault,
            RunFault::WriteFault => Status::WriteFault,
            RunFault::NoMemory => Status::NoMemory,
            RunFault::TooMuch => Status::TooMuch,
        }
    }
}
