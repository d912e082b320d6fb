ghost use Rattle.std.specs.Prelude.{◌≡◌, Err};
ghost use Rattle.byte_lines.specs.Faults.{CountsFaults};
ghost use Rattle.replay_loop.specs.Answers.{AnswersEach};
ghost use Rattle.replay_loop.specs.Loads.{IsLoaded};
ghost use Rattle.replay_loop.specs.Statuses.{status_by};
ghost use Rattle.load_options.specs.Command.{IsWithin};

use crate::counting::Counting;
use crate::fault::Answered;
use crate::run_state::RunState;
use crate::status::GenesisCause;
use crate::tell::tell_records;
use byte_lines::{Sink, whole_lines};
use gen_load::GenSource;
use line_runs::RunFault;
use load_laws::made_streams;
use load_options::LoadCommand;
use load_summary::{LoadCounts, summary_is_counted};
use std::alloc::Global;
use tx_records::Reading;

/// Replays the stream that is made for the command, and writes the summary of it. It reads nothing.
pub fn load<R: RunState + Drop, K: Sink, F: Fn(u32, Option<R>, Reading) -> Answered<R>>(
    alloc: Global,
    answer: &F,
    command: LoadCommand,
    sink: &mut K,
) -> Result<(), RunFault<GenesisCause>>
    requires within { IsWithin command }
    requires answers { AnswersEach R.world (F.pre answer.now) (F.post answer.now) }
    ensures loads { IsLoaded (status_by result) command (K.taken sink.old) (K.taken sink.new) }
    ensures writes { CountsFaults (result ≡ Err RunFault.WriteFault) (K.faults sink.old) (K.faults sink.new) }
{
    made_streams();
    summary_is_counted();
    // laws: how bytes are cut into lines
    whole_lines();
    let mut source = GenSource::new(alloc, command.seed, command.accounts, command.epochs)?;
    let teller = Counting {
        alloc,
        command,
        counts: LoadCounts::new(),
    };
    tell_records(alloc, answer, command.workers, teller, &mut source, sink)
}
