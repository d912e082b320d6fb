ghost use Rattle.std.specs.Prelude.{◌≡◌, ◌+◌, ◌≤◌, ◌<◌, ◌^◌, OnOk, length};
ghost use Rattle.govcert.specs.Acted.{acted_all, acted_as};

use crate::drep::act;
use gov_ids::Voter;
use live_ledger::Draft;
use no_memory::NoMemory;
use tx_records::VoteRecord;

/// Each registered DRep that casts one of these votes acts, vote by vote.
pub fn refresh_voters(d: &mut Draft, votes: &[VoteRecord]) -> Result<(), NoMemory>
    requires few { d.old.changes + length votes.now < 2 ^ 32 }
    ensures ledger { OnOk result (d.new.ledger ≡ acted_all votes.now d.old.ledger) }
    ensures moved { OnOk result ((d.new.refunds ≡ d.old.refunds) × (d.new.deposits ≡ d.old.deposits)) }
    ensures start { d.new.start ≡ d.old.start }
    ensures few { d.new.changes ≤ d.old.changes + length votes.now }
{
    for cast in votes {
        act_as(d, cast.voter)?;
    }
    Ok(())
}

/// A voter acts, if it is a registered DRep.
fn act_as(d: &mut Draft, voter: Voter) -> Result<(), NoMemory>
    requires few { d.old.changes < 2 ^ 32 }
    ensures ledger { OnOk result (d.new.ledger ≡ acted_as voter d.old.ledger) }
    ensures moved { OnOk result ((d.new.refunds ≡ d.old.refunds) × (d.new.deposits ≡ d.old.deposits)) }
    ensures start { d.new.start ≡ d.old.start }
    ensures few { d.new.changes ≤ d.old.changes + 1 }
{
    match voter {
        Voter::Drep(cred) => act(d, cred),
        Voter::Committee(_) | Voter::Pool(_) => Ok(()),
    }
}
