//! What a snapshot must hold so that a count and a pass can run over it.
ghost use Rattle.std.specs.Prelude.{◌≡◌, ◌+◌, ◌^◌, ◌<◌, sum_by, IfOk};
ghost use Rattle.std.specs.List.{All};
ghost use Rattle.gov_actions.specs.declared.action.Proposal.{Proposal};
ghost use Rattle.gov_ids.specs.declared.Drep.TheVariants as drep;
ghost use Rattle.gov_ids.specs.Orders.{credential_cmp, voter_cmp};
ghost use Rattle.gov_model.specs.Laws.{HaveDistinctIds};
ghost use Rattle.gov_model.specs.Sides.{members_of};
ghost use Rattle.maps.specs.Maps.{IsMap};
ghost use Rattle.drep_pulser.specs.Count.{sum_for};
ghost use Rattle.tally.specs.Counted.{CanBeCounted};
ghost use Rattle.tally.specs.Stakes.{drep_stakes, pool_stakes};

use crate::stop::{Result, Stop};
use drep_pulser::Counted;
use gov_ids::{Credential, Drep};
use snapshots::{Frozen, FrozenPool};

// A row is refused if its pools hold more than this.
const MOST: u64 = 1_000_000;

// The sum of two amounts that are not large.
fn added(a: u64, b: u64) -> Result<u64>
    ensures { IfOk result (λ sum. sum ≡ a + b) }
{
    a.checked_add(b).ok_or(Stop)
}

fn stake_of(c: &Counted, d: &(Credential, u64)) -> u64
    ensures { result ≡ sum_for c.now.sums (drep.Registered d.now.0) }
{
    c.stake(&Drep::Registered(d.0))
}

fn stakes_of(c: &Counted, dreps: &[(Credential, u64)]) -> Result<u64>
    ensures { IfOk result (λ sum. sum ≡ sum_by (λ d. sum_for c.now.sums (drep.Registered d.0)) dreps.now) }
{
    let mut sum = 0;
    for d in dreps {
        sum = added(sum, stake_of(c, d))?;
    }
    Ok(sum)
}

fn check_dreps(f: &Frozen, c: &Counted) -> Result<()>
    ensures { IfOk result (λ _. drep_stakes f.now c.now < 2 ^ 64) }
{
    let registered = stakes_of(c, f.dreps.as_slice())?;
    let most = added(registered, c.stake(&Drep::Abstain))?;
    added(most, c.stake(&Drep::NoConfidence))?;
    Ok(())
}

fn stakes_of_pools(pools: &[FrozenPool]) -> Result<u64>
    ensures { IfOk result (λ sum. sum ≡ sum_by (λ p. p.stake) pools.now) }
{
    let mut sum = 0;
    for p in pools {
        sum = added(sum, p.stake)?;
    }
    Ok(sum)
}

fn check_pools(f: &Frozen) -> Result<()>
    ensures { IfOk result (λ _. pool_stakes f.now < 2 ^ 64) }
{
    let sum = stakes_of_pools(f.pools.as_slice())?;
    if sum > MOST {
        return Err(Stop);
    }
    Ok(())
}

pub(crate) fn check(f: &Frozen, c: &Counted) -> Result<()>
    requires distinct { HaveDistinctIds f.now.proposals }
    requires voters { All (λ (a : Proposal). IsMap voter_cmp a.votes) f.now.proposals }
    requires members { IsMap credential_cmp (members_of f.now.start.committee) }
    ensures { IfOk result (λ _. CanBeCounted f.now c.now) }
{
    check_dreps(f, c)?;
    check_pools(f)?;
    Ok(())
}
