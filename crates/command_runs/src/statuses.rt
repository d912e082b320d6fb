ghost use Rattle.std.specs.Prelude.{◌≡◌};
ghost use Rattle.command_runs.specs.Endings.{status_of_check, status_of_resume};

use check_loop::CheckFault;
use line_runs::RunFault;
use replay_loop::Status;
use resume_loop::NoCheckpoint;

/// The status of a `resume` that ended so.
pub fn status_of_resume(ended: Result<(), RunFault<NoCheckpoint>>) -> Status
    ensures { result ≡ status_of_resume ended }
{
    match ended {
        Ok(()) => Status::Done,
        Err(RunFault::Stop(NoCheckpoint)) => Status::BadCheckpoint,
        Err(RunFault::ReadFault) => Status::ReadFault,
        Err(RunFault::WriteFault) => Status::WriteFault,
        Err(RunFault::NoMemory) => Status::NoMemory,
        Err(RunFault::TooMuch) => Status::TooMuch,
    }
}

/// The status of a `check` that ended so.
pub fn status_of_check(ended: Result<(), CheckFault>) -> Status
    ensures { result ≡ status_of_check ended }
{
    match ended {
        Ok(()) => Status::Done,
        Err(CheckFault::ReadFault) => Status::ReadFault,
        Err(CheckFault::WriteFault) => Status::WriteFault,
        Err(CheckFault::NoMemory) => Status::NoMemory,
        Err(CheckFault::TooMuch) => Status::TooMuch,
    }
}
