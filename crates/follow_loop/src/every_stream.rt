ghost use Rattle.follow_model.specs.Laws.{CountNeverFalls, FollowedIsSound, KeptAreAccepted, RollbackStaysInEpoch};
ghost use Rattle.follow_steps.specs.Laws.{FollowedSupplyStays};
ghost use Rattle.follow_loop.specs.Laws.{DoneFollowIsWhole, FollowIsComplete, LinesAreFollowed, ReadingsLeaveChain, TextIsFollowed};

use byte_lines::whole_lines;
use follow_steps::followed_supply_stays;
use follow_steps::of_further_laws::{
    count_never_falls, followed_is_sound, kept_are_accepted, rollback_stays_in_epoch,
};
use record_read::lines_read_within_limits;

/// What holds of every followed stream: its text, and the ledger after each record. After any bytes
/// the ledger is that of the records that remain, except for the count, which never falls within an
/// epoch; all pots hold the supply of the genesis. It does nothing.
pub fn laws()
    ensures whole { DoneFollowIsWhole }
    ensures text { TextIsFollowed }
    ensures complete { FollowIsComplete }
    ensures chain { ReadingsLeaveChain }
    ensures followed { LinesAreFollowed }
    ensures kept { KeptAreAccepted }
    ensures sound { FollowedIsSound }
    ensures count { CountNeverFalls }
    ensures epoch { RollbackStaysInEpoch }
    ensures supply { FollowedSupplyStays }
{
    // (laws: how bytes are cut into lines)
    whole_lines();
    lines_read_within_limits();
    kept_are_accepted();
    followed_is_sound();
    count_never_falls();
    rollback_stays_in_epoch();
    followed_supply_stays();
}
