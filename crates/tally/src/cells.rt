ghost use Rattle.std.specs.Prelude.{◌≡◌, length, map};
ghost use Rattle.std.specs.List.{All};
ghost use Rattle.gov_actions.specs.declared.action.Proposal.{Proposal};
ghost use Rattle.gov_ids.specs.Orders.{voter_cmp};
ghost use Rattle.maps.specs.Maps.{IsMap};
ghost use Rattle.tally.specs.Cells.{cell_of};
ghost use Rattle.tally.specs.Counted.{CanBeCounted, ForSnapshot};

use crate::committee::committee_count;
use crate::dreps::drep_count;
use crate::pools::pool_count;
use crate::silent_dreps::{drep_count_from, silent_dreps};
use crate::silent_pools::{pool_count_from, silent_pools};
use drep_pulser::Counted;
use gov_actions::Proposal;
use snapshots::Frozen;

/// Yes and total of each role on a proposal. (CIP-1694, Ratification; that they are kept is own)
#[derive(Clone, Copy, Debug, Default, PartialEq, Eq)]
pub struct TallyCell {
    /// Of the committee, in members.
    pub committee: (u64, u64),
    /// Of the DReps, in lovelace.
    pub drep: (u64, u64),
    /// Of the pools, in lovelace.
    pub pool: (u64, u64),
}

/// The counts of each role on a frozen proposal. It takes no memory.
/// (CIP-1694, Ratification; RATIFY of the formal specification)
pub fn cell_of(f: &Frozen, c: &Counted, a: &Proposal) -> TallyCell
    requires counted { CanBeCounted f.now c.now }
    requires voters { IsMap voter_cmp a.now.votes }
    ensures { ForSnapshot f.now c.now (λ s. result ≡ cell_of s a.now) }
{
    TallyCell {
        committee: committee_count(f, a),
        drep: drep_count(f, c, a),
        pool: pool_count(f, a),
    }
}

/// Writes the counts of frozen proposals into their cells. It takes no memory.
/// Where DReps and pools are in order, as a boundary freezes them, one sum of the silent ones
/// serves all cells: a proposal then costs a scan of its votes and of the members only.
pub fn fill_cells(f: &Frozen, c: &Counted, proposals: &[Proposal], cells: &mut [TallyCell])
    requires counted { CanBeCounted f.now c.now }
    requires voters { All (λ (a : Proposal). IsMap voter_cmp a.votes) proposals.now }
    requires each { length cells.old ≡ length proposals.now }
    ensures { ForSnapshot f.now c.now (λ s. cells.new ≡ map (cell_of s) proposals.now) }
{
    if cells.is_empty() {
        return;
    }
    let dreps = silent_dreps(f, c);
    let pools = silent_pools(f);
    for i in 0..cells.len() {
        cells[i] = TallyCell {
            committee: committee_count(f, &proposals[i]),
            drep: drep_count_from(f, c, dreps, &proposals[i]),
            pool: pool_count_from(f, pools, &proposals[i]),
        };
    }
}
