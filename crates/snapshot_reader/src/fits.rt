//! Whether a snapshot of plain lists fits.
ghost use Rattle.std.specs.Prelude.{◌≡◌, ◌↔◌, true, IfOk};
ghost use Rattle.std.specs.List.{list_all};
ghost use Rattle.gov_model.specs.Snapshot.{Snapshot};
ghost use Rattle.resume_checks.specs.Forms.{with_lists};
ghost use Rattle.snapshot_counts.specs.Fitting.{snapshot_in};
ghost use Rattle.snapshot_reader.specs.Fitting.{IsReadable, IsTold, has_ordered_votes, is_in_range, has_further_form};
ghost use Rattle.text_forms.specs.Snapshots.{is_snapshot};

use gov_actions::Proposal;
use no_memory::NoMemory;
use proposal_rows::are_short;
use resume_checks::{FrozenLists, are_within, is_held_within, is_map};
use snapshot_counts::PlainSnapshot;
use std::alloc::Global;
use tx_records::limits::{LEAST_MAJOR, SLOT_LIMIT, SUPPLY_LIMIT};

/// Whether the epoch is in its range, and what a snapshot holds and its mark are each at most the
/// greatest supply.
fn is_in_range(snapshot: &PlainSnapshot) -> bool
    ensures { result ≡ is_in_range (snapshot_in snapshot.now) }
{
    let parts = &snapshot.parts;
    parts.epoch < SLOT_LIMIT
        && is_held_within(
            SUPPLY_LIMIT,
            snapshot.entries.as_slice(),
            parts.proposals.as_slice(),
        )
        && are_within(SUPPLY_LIMIT, snapshot.mark.as_slice())
}

/// Whether the votes on each proposal are in order, each voter once.
fn have_ordered_votes(proposals: &[Proposal]) -> bool
    ensures { result ≡ list_all has_ordered_votes proposals.now }
{
    for proposal in proposals {
        if !is_map(proposal.votes.as_slice()) {
            return false;
        }
    }
    true
}

/// Whether the version is one of the Conway era or later, and votes are in order.
fn has_further_form(snapshot: &PlainSnapshot) -> bool
    ensures { result ≡ has_further_form (snapshot_in snapshot.now) }
{
    snapshot.parts.start.version.0 >= LEAST_MAJOR
        && have_ordered_votes(snapshot.parts.proposals.as_slice())
}

/// The lists of a snapshot, as slices.
fn lists_of(snapshot: &PlainSnapshot) -> FrozenLists<'_>
    ensures { (f : Snapshot) → with_lists result f ≡ record f {
      entries = snapshot.now.entries;
      dreps = snapshot.now.parts.dreps.items;
      mark = snapshot.now.mark;
      pool_accounts = snapshot.now.accounts;
      hot = snapshot.now.parts.hot.items;
      proposals = snapshot.now.parts.proposals.items;
    } }
{
    FrozenLists {
        entries: snapshot.entries.as_slice(),
        dreps: snapshot.parts.dreps.as_slice(),
        mark: snapshot.mark.as_slice(),
        pool_accounts: snapshot.accounts.as_slice(),
        hot: snapshot.parts.hot.as_slice(),
        proposals: snapshot.parts.proposals.as_slice(),
    }
}

/// Whether a snapshot has the form of the formats, where its lines have it. `NoMemory` may come at
/// any time.
fn is_snapshot(alloc: Global, snapshot: &PlainSnapshot) -> Result<bool, NoMemory>
    requires { IsTold (snapshot_in snapshot.now) }
    ensures { IfOk result (λ formed. formed ≡ is_snapshot (snapshot_in snapshot.now)) }
{
    if !has_further_form(snapshot) {
        return Ok(false);
    }
    resume_checks::is_snapshot(alloc, &lists_of(snapshot))
}

/// Whether a snapshot fits and no line of it is too long, where its lines have the form. `NoMemory`
/// may come at any time. The buffer loses what it held.
pub(crate) fn is_readable(
    alloc: Global,
    snapshot: &PlainSnapshot,
    text: &mut Vec<u8>,
) -> Result<bool, NoMemory>
    requires { IsTold (snapshot_in snapshot.now) }
    ensures { IfOk result (λ readable. (readable ≡ true) ↔ IsReadable (snapshot_in snapshot.now)) }
{
    if !is_in_range(snapshot) {
        return Ok(false);
    }
    let formed = is_snapshot(alloc, snapshot)?;
    if !formed {
        return Ok(false);
    }
    are_short(text, snapshot.parts.proposals.as_slice())
}
