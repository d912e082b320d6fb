//! What follows from a snapshot that fits.
ghost use Rattle.snapshot_counts.specs.Laws.{FitsCanBeCounted};

use run_laws::{drep_stakes_are_within, pool_stakes_are_within};

/// What is frozen of a snapshot that fits can be counted: it names everything once, and the sums of
/// its stakes fit in 64 bits. (CIP-1694, Changes to the stake snapshot)
pub fn fits_can_be_counted()
    ensures { FitsCanBeCounted }
{
    drep_stakes_are_within();
    pool_stakes_are_within();
}
