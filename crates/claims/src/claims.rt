//! All results of a certificate.
ghost use Rattle.std.specs.Prelude.{[], ◌∷◌, codes};
ghost use Rattle.bare_lines.specs.Bare.{bare, bare_part};
ghost use Rattle.certificate_model.specs.Certificate.{claim_lines};
ghost use Rattle.report.specs.Taking.{HasPut};
ghost use Rattle.report.specs.WordTexts.{word_text};
ghost use Rattle.tally.specs.Counted.{CanBeCounted, ForSnapshot};

use crate::blocks::put_blocks;
use crate::stakes::put_stakes;
use bare_lines::Bare;
use byte_lines::SinkFault;
use drep_pulser::Counted;
use report::{LineTaker, Word, push_line};
use snapshots::Frozen;
use std::alloc::Global;

// Hands over the line that ends a certificate.
fn put_end<T: LineTaker>(to: &mut T, text: &mut Vec<u8>, line: u64) -> Result<(), SinkFault>
    ensures { HasPut T.with_line T.IsPart line (T.taken to.old) ((codes "end" ∷ []) ∷ []) (T.taken to.new)
        (T.faults to.old) (T.faults to.new) result }
{
    text.clear();
    push_line(text, line, &[Word::Text("end")])?;
    to.take(text.as_slice())
}

// Hands over the results, each line with this number.
fn put_numbered<T: LineTaker>(
    alloc: Global,
    to: &mut T,
    text: &mut Vec<u8>,
    line: u64,
    f: &Frozen,
    c: &Counted,
) -> Result<(), SinkFault>
    requires { CanBeCounted f.now c.now }
    ensures { ForSnapshot f.now c.now (λ s. HasPut T.with_line T.IsPart line (T.taken to.old) (claim_lines s) (T.taken to.new)
        (T.faults to.old) (T.faults to.new) result) }
{
    put_stakes(to, text, line, f.dreps.as_slice(), c)?;
    put_blocks(alloc, to, text, line, f, c)?;
    put_end(to, text, line)
}

/// Hands over the results of a certificate, without numbers: DReps' stakes in lovelace, then the
/// parts and the verdict of each frozen proposal in order of priority, then `end`. (Own)
/// It drops each proposal's tally before the next. After an error a prefix of the lines was taken.
pub fn put_claims<T: LineTaker>(
    alloc: Global,
    to: &mut T,
    text: &mut Vec<u8>,
    f: &Frozen,
    c: &Counted,
) -> Result<(), SinkFault>
    requires { CanBeCounted f.now c.now }
    ensures { ForSnapshot f.now c.now (λ s. HasPut (bare T.with_line) (bare_part T.IsPart) 0 (T.taken to.old) (claim_lines s)
        (T.taken to.new) (T.faults to.old) (T.faults to.new) result) }
{
    let mut bare = Bare { to };
    put_numbered(alloc, &mut bare, text, 0, f, c)
}
