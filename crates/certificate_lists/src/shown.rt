//! What the lines of the snapshot of a certificate say.
ghost use Rattle.std.specs.Prelude.{◌≡◌};
ghost use Rattle.certificate_lists.specs.Rows.{rows_shown, snapshot_rows};
ghost use Rattle.certificate_model.specs.Certificate.{snapshot_lines};
ghost use Rattle.gov_model.specs.Snapshot.{Snapshot};

/// Does nothing. A law: the lines of a snapshot are those of the rows that it shows.
pub fn shown_are_of_snapshots()
    ensures { (f : Snapshot) → snapshot_rows (rows_shown f) ≡ snapshot_lines f }
{}
