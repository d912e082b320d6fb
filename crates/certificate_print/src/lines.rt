ghost use Rattle.std.specs.Prelude.{◌≡◌, ◌++◌, [], ◌∷◌, IfOk, map};
ghost use Rattle.bare_lines.specs.Bare.{bare, bare_part};
ghost use Rattle.certificate_model.specs.Certificate.{snapshot_lines};
ghost use Rattle.report.specs.Taking.{HasPut};
ghost use Rattle.text_forms.specs.Lines.{joined};

use bare_lines::Bare;
use byte_lines::SinkFault;
use frozen_print::put_frozen;
use ledger_state::LedgerState;
use no_memory::NoMemory;
use report::{LineList, LineTaker};
use std::alloc::Global;

/// Hands over the lines of what is frozen of a ledger's epoch, without numbers. (Own)
/// Each replaces what the buffer held. After an error a prefix of the lines was taken.
pub fn put_snapshot<T: LineTaker>(
    to: &mut T,
    text: &mut Vec<u8>,
    s: &LedgerState,
) -> Result<(), SinkFault>
    ensures { HasPut (bare T.with_line) (bare_part T.IsPart) 0 (T.taken to.old) (snapshot_lines s.now.frozen) (T.taken to.new)
        (T.faults to.old) (T.faults to.new) result }
{
    let live = s.live();
    let accounts = live.stake().book();
    let mark = s.snapshots().mark.as_slice();
    let mut bare = Bare { to };
    put_frozen(&mut bare, text, 0, s.frozen(), mark, accounts)
}

/// The lines of what is frozen of a ledger's epoch, left in memory, each with its line feed. (Own)
pub fn snapshot(alloc: Global, s: &LedgerState) -> Result<Vec<Vec<u8>>, NoMemory>
    ensures { IfOk result (λ lines. map (λ l. l.items) lines.items ≡
        map (λ words. joined words ++ 10 ∷ []) (snapshot_lines s.now.frozen)) }
{
    let mut list = LineList::new(alloc);
    let mut text = Vec::new(alloc);
    match put_snapshot(&mut list, &mut text, s) {
        Ok(()) => Ok(list.into_lines()),
        Err(_) => Err(NoMemory),
    }
}
