ghost use Rattle.bare_lines.specs.Bare.{bare, bare_part};
ghost use Rattle.certificate_model.specs.Certificate.{certificate_lines};
ghost use Rattle.report.specs.Taking.{HasPut};

use crate::counting::counted_copy;
use crate::lines::put_snapshot;
use byte_lines::SinkFault;
use claims::put_claims;
use ledger_state::LedgerState;
use report::LineTaker;
use std::alloc::Global;

/// Hands over the certificate of a ledger's epoch, without numbers. (Own) The ledger's own count
/// stays where it is: a copy of its sums is ended, in this thread. After an error a prefix of the
/// lines was taken.
pub fn put_certificate<T: LineTaker>(
    alloc: Global,
    to: &mut T,
    text: &mut Vec<u8>,
    s: &LedgerState,
) -> Result<(), SinkFault>
    ensures { HasPut (bare T.with_line) (bare_part T.IsPart) 0 (T.taken to.old) (certificate_lines s.now.frozen) (T.taken to.new)
        (T.faults to.old) (T.faults to.new) result }
{
    let counted = counted_copy(alloc, s)?;
    put_snapshot(to, text, s)?;
    put_claims(alloc, to, text, s.frozen(), &counted)
}
