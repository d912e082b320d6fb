ghost use Rattle.std.specs.Prelude.{◌≡◌, ◌≤◌, ℕ, List, Err, Some};
ghost use Rattle.byte_lines.specs.Faults.{CountsFaults};
ghost use Rattle.line_runs.specs.Runs.{IsRunOf};
ghost use Rattle.replay_loop.specs.Answers.{AnswersEach};
ghost use Rattle.replay_loop.specs.Plays.{run_of};
ghost use Rattle.replay_loop.specs.Tells.{telling_of};

use crate::fault::Answered;
use crate::run_state::{CertifiedState, LastState};
use crate::status::GenesisCause;
use crate::tell::tell_records;
use crate::told_last::{self, AtEnd};
use crate::{told_certificates, told_texts};
use byte_lines::{Sink, Source};
use line_runs::RunFault;
use std::alloc::Global;
use tx_records::Reading;

/// What a command tells of the records that it reads.
#[derive(Clone, Copy, Debug, PartialEq, Eq)]
pub enum Told {
    /// The text of each record, before the source is asked for more.
    Texts,
    /// At the end, what each frozen proposal lacks.
    Shortfalls,
    /// At the end, the tallies of the next two boundaries.
    Outlooks,
    /// At the end, the whole state.
    Checkpoints,
    /// A certificate of the epoch, before each boundary.
    Certificates,
}

/// Reads a stream from its genesis to its end, with a function that answers its records, and writes
/// what the command tells of them. No clause depends on the number of workers.
pub fn tell_told<
    R: LastState + CertifiedState + Drop,
    S: Source,
    K: Sink,
    F: Fn(u32, Option<R>, Reading) -> Answered<R>,
>(
    alloc: Global,
    answer: &F,
    workers: u32,
    told: Told,
    source: &mut S,
    sink: &mut K,
) -> Result<(), RunFault<GenesisCause>>
    requires some { 1 ≤ workers }
    requires few { workers ≤ 64 }
    requires answers { AnswersEach R.world (F.pre answer.now) (F.post answer.now) }
    ensures runs { (bytes : List ℕ) → S.left source.old ≡ Some bytes →
        IsRunOf (run_of (telling_of told) tt) bytes (S.left source.new) (K.taken sink.old) (K.taken sink.new) result }
    ensures reads { CountsFaults (result ≡ Err RunFault.ReadFault) (S.faults source.old) (S.faults source.new) }
    ensures writes { CountsFaults (result ≡ Err RunFault.WriteFault) (K.faults sink.old) (K.faults sink.new) }
{
    match told {
        Told::Texts => {
            let teller = told_texts::TextTeller::new(alloc);
            tell_records(alloc, answer, workers, teller, source, sink)
        }
        Told::Shortfalls => {
            let teller = AtEnd::<told_last::Shortfalls>::new(alloc);
            tell_records(alloc, answer, workers, teller, source, sink)
        }
        Told::Outlooks => {
            let teller = AtEnd::<told_last::Outlooks>::new(alloc);
            tell_records(alloc, answer, workers, teller, source, sink)
        }
        Told::Checkpoints => {
            let teller = AtEnd::<told_last::Checkpoints>::new(alloc);
            tell_records(alloc, answer, workers, teller, source, sink)
        }
        Told::Certificates => {
            let teller = told_certificates::Certificates::new(alloc);
            tell_records(alloc, answer, workers, teller, source, sink)
        }
    }
}
