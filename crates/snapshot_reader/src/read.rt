//! The snapshot of a certificate, by its lines.
ghost use Rattle.std.specs.Prelude.{◌≡◌, ℕ, ◌++◌, false, option_map, true, IfOk, IfSome, List, Option, Some};
ghost use Rattle.certificate_lists.specs.Rows.{has_snapshot_form, rows_shown, snapshot_stops};
ghost use Rattle.certificate_model.specs.Certificate.{snapshot_lines};
ghost use Rattle.gov_model.specs.Snapshot.{Snapshot};
ghost use Rattle.line_giver.specs.Giving.{HasPassed, PassesSome, lines_of_giving};
ghost use Rattle.line_parts.specs.Parts.{lines_of};
ghost use Rattle.line_parts.specs.Shapes.{is_next};
ghost use Rattle.shown_lists.specs.Only.{IsOnly};
ghost use Rattle.snapshot_counts.specs.Fitting.{IsFitting, snapshot_in};
ghost use Rattle.snapshot_reader.specs.Fitting.{IsReadable};
ghost use Rattle.text_forms.specs.Lines.{are_short_lines};

use crate::fits::is_readable;
use crate::told::snapshot_of;
use byte_lines::LineFault;
use certificate_lists::{SnapshotRows, read_rows, shown_are_of_snapshots};
use line_giver::LineGiver;
use no_memory::NoMemory;
use snapshot_counts::PlainSnapshot;
use std::alloc::Global;

/// Reads the lines of the snapshot of a certificate, and passes them. `None`: they are those of no
/// snapshot that fits; some of them may be passed. The buffer loses what it held.
pub fn read_snapshot<G: LineGiver>(
    alloc: Global,
    giver: &mut G,
    text: &mut Vec<u8>,
) -> Result<Option<PlainSnapshot>, LineFault>
    ensures fits { IfOk result (λ r. IfSome r (λ p. IsFitting (snapshot_in p))) }
    ensures short { IfOk result (λ r. IfSome r (λ p. are_short_lines (snapshot_lines (snapshot_in p)) ≡ true)) }
    ensures passes { IfOk result (λ r. IfSome r (λ p. HasPassed (G.passed giver.old) (G.passed giver.new)
        (G.giving giver.old) (G.giving giver.new) (lines_of (snapshot_lines (snapshot_in p))))) }
    ensures all { IfOk result (λ r. (f : Snapshot) (more : List (Option (List ℕ))) → IsFitting f → are_short_lines (snapshot_lines f) ≡ true →
        is_next snapshot_stops more ≡ false → lines_of_giving (G.giving giver.old) ≡ Some (lines_of (snapshot_lines f) ++ more) →
        option_map snapshot_in r ≡ Some f) }
    ensures some { PassesSome (G.passed giver.old) (G.passed giver.new) (G.giving giver.old) (G.giving giver.new) }
{
    // (law: the lines of a snapshot are those of the rows that it shows)
    shown_are_of_snapshots();
    let Some(rows) = read_rows(alloc, giver, text)? else {
        return Ok(None);
    };
    Ok(readable_of(alloc, rows, text)?)
}

/// The snapshot that these rows show, if it fits and no line of it is too long. `NoMemory` may come
/// at any time. The buffer loses what it held.
fn readable_of(
    alloc: Global,
    rows: SnapshotRows,
    text: &mut Vec<u8>,
) -> Result<Option<PlainSnapshot>, NoMemory>
    requires { has_snapshot_form rows ≡ true }
    ensures { IfOk result (λ r. IsOnly IsReadable rows_shown rows (option_map snapshot_in r)) }
{
    let Some(snapshot) = snapshot_of(alloc, rows)? else {
        return Ok(None);
    };
    if is_readable(alloc, &snapshot, text)? {
        Ok(Some(snapshot))
    } else {
        Ok(None)
    }
}
