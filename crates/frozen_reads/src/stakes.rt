ghost use Rattle.std.specs.Prelude.{◌≡◌, ◌++◌, [], ◌∷◌, IfOk, OnOk};
ghost use Rattle.frozen_reads.specs.Stakes.{registered, stakes_by};
ghost use Rattle.run_model.specs.Report.{stakes_of};
ghost use Rattle.tally.specs.Counted.{ForSnapshot};

use gov_ids::{Credential, Drep};
use no_memory::NoMemory;
use snapshots::Frozen;
use std::alloc::Global;
use tally::of_drep_pulser::Counted;

/// Stakes of the frozen DReps by credential, then of the two predefined ones, in lovelace.
/// DReps without stake are left out.
pub fn stakes_of(alloc: Global, f: &Frozen, c: &Counted) -> Result<Vec<(Drep, u64)>, NoMemory>
    ensures { IfOk result (λ l. ForSnapshot f.now c.now (λ s. l.items ≡ stakes_of s)) }
{
    let mut stakes = registered_stakes(alloc, f.dreps.as_slice(), c)?;
    note(c, Drep::Abstain, &mut stakes)?;
    note(c, Drep::NoConfidence, &mut stakes)?;
    Ok(stakes)
}

// The stakes of the registered DReps.
fn registered_stakes(
    alloc: Global,
    dreps: &[(Credential, u64)],
    c: &Counted,
) -> Result<Vec<(Drep, u64)>, NoMemory>
    ensures { IfOk result (λ l. l.items ≡ stakes_by c.now.sums (registered dreps.now)) }
{
    let mut stakes = Vec::new(alloc);
    for (d, _) in dreps {
        note(c, Drep::Registered(*d), &mut stakes)?;
    }
    Ok(stakes)
}

// Adds the stake of a DRep, if it has any.
fn note(c: &Counted, d: Drep, stakes: &mut Vec<(Drep, u64)>) -> Result<(), NoMemory>
    ensures { OnOk result (stakes.new.items ≡ stakes.old.items ++ stakes_by c.now.sums (d ∷ [])) }
{
    let stake = c.stake(&d);
    if stake > 0 {
        stakes.push((d, stake))?;
    }
    Ok(())
}
