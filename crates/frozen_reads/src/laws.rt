ghost use Rattle.frozen_reads.specs.Laws.{SoundCanBeCounted};

use run_laws::{drep_stakes_are_within, pool_stakes_are_within};

/// What is frozen of a sound ledger can be counted, and so ratified.
/// It names everything once, and sums of stakes fit in 64 bits.
/// (CIP-1694, Changes to the stake snapshot)
pub fn sound_can_be_counted()
    ensures { SoundCanBeCounted }
{
    drep_stakes_are_within();
    pool_stakes_are_within();
}
