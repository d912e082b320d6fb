//! What the results of a certificate are made of.
ghost use Rattle.std.specs.Prelude.{◌≡◌, IfOk};
ghost use Rattle.snapshot_counts.specs.Fitting.{IsFitting, snapshot_in};
ghost use Rattle.tally.specs.Counted.{AreOf, CanBeCounted};

use crate::counts::counted_of;
use crate::laws::fits_can_be_counted;
use crate::plain::PlainSnapshot;
use drep_pulser::Counted;
use frozen_lists::frozen_of;
use no_memory::NoMemory;
use snapshots::Frozen;
use std::alloc::Global;

/// What an epoch froze, except the account entries, and the stakes of its DReps.
#[derive(Drop)]
pub struct Certified {
    pub frozen: Frozen,
    pub counted: Counted,
}

/// What a snapshot that fits froze, with the stakes of its DReps. `NoMemory` may come at any time.
pub fn certified_of(alloc: Global, snapshot: PlainSnapshot) -> Result<Certified, NoMemory>
    requires { IsFitting (snapshot_in snapshot) }
    ensures are { IfOk result (λ x. AreOf (snapshot_in snapshot) x.frozen x.counted) }
    ensures can { IfOk result (λ x. CanBeCounted x.frozen x.counted) }
{
    // (law: what is frozen of a snapshot that fits can be counted)
    fits_can_be_counted();
    let PlainSnapshot {
        parts,
        entries,
        mark,
        accounts,
    } = snapshot;
    let frozen = frozen_of(
        alloc,
        parts,
        entries.as_slice(),
        mark.as_slice(),
        accounts.as_slice(),
    )?;
    let counted = counted_of(
        alloc,
        entries,
        frozen.dreps.as_slice(),
        frozen.proposals.as_slice(),
    )?;
    Ok(Certified { frozen, counted })
}
