//! The snapshot that rows show.
ghost use Rattle.std.specs.Prelude.{◌≡◌, IfOk, option_map};
ghost use Rattle.certificate_lists.specs.Rows.{rows_shown};
ghost use Rattle.shown_lists.specs.Only.{IsOnly};
ghost use Rattle.snapshot_counts.specs.Fitting.{snapshot_in};
ghost use Rattle.snapshot_reader.specs.Told.{IsListed, snapshot_by, start_by};

use crate::made::{Made, made_of};
use certificate_lists::{GovernedRows, SnapshotRows, VoterRows};
use frozen_lists::Parts;
use gov_actions::of_pparams::Params;
use gov_actions::{Committee, EnactState};
use no_memory::NoMemory;
use snapshot_counts::PlainSnapshot;
use std::alloc::Global;

/// The snapshot that these rows show, if they show one. Whether it fits is not asked. `NoMemory`
/// may come at any time.
pub(crate) fn snapshot_of(
    alloc: Global,
    rows: SnapshotRows,
) -> Result<Option<PlainSnapshot>, NoMemory>
    ensures { IfOk result (λ r. IsOnly IsListed rows_shown rows (option_map snapshot_in r)) }
{
    match made_of(alloc, &rows)? {
        Some(made) => Ok(Some(with_made(rows, made))),
        None => Ok(None),
    }
}

/// The snapshot of rows, with what was made of them.
fn with_made(rows: SnapshotRows, made: Made) -> PlainSnapshot
    ensures { snapshot_in result ≡ snapshot_by rows made }
{
    let Made {
        governing,
        accounts,
        proposals,
    } = made;
    let (committee, hot) = governing;
    let SnapshotRows {
        governed,
        params,
        voters,
        ..
    } = rows;
    let VoterRows {
        dreps,
        mark,
        entries,
        ..
    } = voters;
    let parts = Parts {
        epoch: governed.head.0,
        start: start_of(&governed, params, committee),
        dreps: dreps.into_vec(),
        hot,
        proposals,
    };
    PlainSnapshot {
        parts,
        entries,
        mark,
        accounts,
    }
}

/// The state that can be enacted of rows, with a committee.
fn start_of(rows: &GovernedRows, params: Params, committee: Option<Committee>) -> EnactState
    ensures { result ≡ start_by rows.now params committee }
{
    let (_epoch, version, treasury) = rows.head;
    let (document, script) = rows.constitution;
    EnactState {
        params,
        version,
        committee,
        document,
        script,
        last: rows.last,
        treasury,
    }
}
