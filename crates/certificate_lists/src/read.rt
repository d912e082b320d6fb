//! All lines of the snapshot of a certificate.
ghost use Rattle.std.specs.Prelude.{◌≡◌, ℕ, ◌++◌, false, true, IfOk, IfSome, List, Option, Some};
ghost use Rattle.certificate_lists.specs.Items.{front_items};
ghost use Rattle.certificate_lists.specs.Rows.{has_snapshot_form, rows_shown, snapshot_rows, snapshot_stops};
ghost use Rattle.certificate_lists.specs.Shapes.{snapshot_shape};
ghost use Rattle.certificate_lists.specs.declared.rows.SnapshotRows.{SnapshotRows};
ghost use Rattle.certificate_model.specs.Certificate.{snapshot_lines};
ghost use Rattle.gov_model.specs.Snapshot.{Snapshot};
ghost use Rattle.line_giver.specs.Giving.{HasPassed, PassesSome, lines_of_giving};
ghost use Rattle.line_parts.specs.Parts.{IsRead, lines_of};
ghost use Rattle.line_parts.specs.Shapes.{is_next};

use crate::groups::FrontPart;
use crate::proposals::read_proposals;
use crate::rows::{SnapshotRows, WholeRow};
use byte_lines::LineFault;
use line_giver::LineGiver;
use line_parts::Part;
use listed::Listed;
use std::alloc::Global;

/// The rows of these.
fn rows_of(front: <FrontPart as Part>::Item, proposals: Listed<WholeRow>) -> SnapshotRows
    ensures front { front_items result ≡ front }
    ensures proposals { result.proposals ≡ proposals }
{
    let (governed, (params, voters)) = front;
    SnapshotRows {
        governed,
        params,
        voters,
        proposals,
    }
}

/// Reads the lines of a snapshot, and passes them.
fn read_parts<G: LineGiver>(
    alloc: Global,
    giver: &mut G,
    text: &mut Vec<u8>,
) -> Result<Option<SnapshotRows>, LineFault>
    ensures reads { IfOk result (IsRead snapshot_shape has_snapshot_form snapshot_rows
        (G.passed giver.old) (G.passed giver.new) (G.giving giver.old) (G.giving giver.new)) }
    ensures passes { PassesSome (G.passed giver.old) (G.passed giver.new) (G.giving giver.old) (G.giving giver.new) }
{
    let Some(front) = FrontPart::read_part(alloc, giver, text)? else {
        return Ok(None);
    };
    let Some(proposals) = read_proposals(alloc, giver, text)? else {
        return Ok(None);
    };
    Ok(Some(rows_of(front, proposals)))
}

/// Reads the lines of the snapshot of a certificate, and passes them. `None`: they are no such
/// lines; some of them may be passed, and also before an error. The buffer loses what it held.
pub fn read_rows<G: LineGiver>(
    alloc: Global,
    giver: &mut G,
    text: &mut Vec<u8>,
) -> Result<Option<SnapshotRows>, LineFault>
    ensures form { IfOk result (λ r. IfSome r (λ x. has_snapshot_form x ≡ true)) }
    ensures passes { IfOk result (λ r. IfSome r (λ x. HasPassed (G.passed giver.old) (G.passed giver.new)
        (G.giving giver.old) (G.giving giver.new) (lines_of (snapshot_rows x)))) }
    ensures all { IfOk result (λ r. (x : SnapshotRows) (more : List (Option (List ℕ))) → has_snapshot_form x ≡ true →
        is_next snapshot_stops more ≡ false → lines_of_giving (G.giving giver.old) ≡ Some (lines_of (snapshot_rows x) ++ more) → r ≡ Some x) }
    ensures snapshot { IfOk result (λ r. (f : Snapshot) (more : List (Option (List ℕ))) → has_snapshot_form (rows_shown f) ≡ true →
        is_next snapshot_stops more ≡ false → lines_of_giving (G.giving giver.old) ≡ Some (lines_of (snapshot_lines f) ++ more) → r ≡ Some (rows_shown f)) }
    ensures some { PassesSome (G.passed giver.old) (G.passed giver.new) (G.giving giver.old) (G.giving giver.new) }
{
    read_parts(alloc, giver, text)
}
