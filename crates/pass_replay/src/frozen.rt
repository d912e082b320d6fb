//! The snapshot of a row.
ghost use Rattle.std.specs.Prelude.{IfOk};
ghost use Rattle.std.specs.List.{All};
ghost use Rattle.gov_actions.specs.declared.action.Proposal.{Proposal};
ghost use Rattle.gov_ids.specs.Orders.{credential_cmp, voter_cmp};
ghost use Rattle.gov_model.specs.Laws.{HaveDistinctIds};
ghost use Rattle.gov_model.specs.Sides.{members_of};
ghost use Rattle.maps.specs.Maps.{IsMap};

use crate::numbers::{Numbers, key};
use crate::proposals::proposals;
use crate::starts::start;
use crate::stop::Result;
use gov_actions::{EnactState, HotState, Proposal};
use gov_ids::{Account, Credential, PoolId};
use listed::Listed;
use snapshots::{DefaultVote, Frozen, FrozenPool, HotList};
use std::alloc::Global;

// A cold key, and the byte of its hot key or 0 where it resigned.
fn hot(alloc: Global, n: &mut Numbers) -> Result<Vec<(Credential, HotState)>> {
    let mut all = Vec::new(alloc);
    for _ in 0..n.next() {
        let cold = n.key();
        let state = match n.next_byte() {
            0 => HotState::Resigned,
            byte => HotState::Hot(key(byte)),
        };
        all.push((cold, state))?;
    }
    Ok(all)
}

fn default_vote(n: &mut Numbers) -> DefaultVote {
    match n.next() {
        0 => DefaultVote::No,
        1 => DefaultVote::Abstain,
        _ => DefaultVote::NoConfidence,
    }
}

// An account by the byte of its key, 0 for none.
fn account_of(byte: u8) -> Option<Account> {
    match byte {
        0 => None,
        byte => Some(Account {
            network: 1,
            cred: key(byte),
        }),
    }
}

fn pools(alloc: Global, n: &mut Numbers) -> Result<Vec<FrozenPool>> {
    let mut all = Vec::new(alloc);
    for _ in 0..n.next() {
        all.push(FrozenPool {
            pool: PoolId([n.next_byte(); 28]),
            account: account_of(n.next_byte()),
            stake: n.next(),
            default_vote: default_vote(n),
        })?;
    }
    Ok(all)
}

// The lists of a snapshot.
#[derive(Drop)]
struct Parts {
    hot: Vec<(Credential, HotState)>,
    dreps: Vec<(Credential, u64)>,
    pools: Vec<FrozenPool>,
    proposals: Listed<Proposal>,
}

// Hot keys, DReps with their expiries, pools and proposals.
fn lists(alloc: Global, n: &mut Numbers) -> Result<Parts>
    ensures distinct { IfOk result (λ l. HaveDistinctIds l.proposals) }
    ensures voters { IfOk result (λ l. All (λ (a : Proposal). IsMap voter_cmp a.votes) l.proposals) }
{
    let hot = hot(alloc, n)?;
    let dreps = n.pairs(alloc)?;
    let pools = pools(alloc, n)?;
    let proposals = proposals(alloc, n)?;
    Ok(Parts {
        hot,
        dreps,
        pools,
        proposals,
    })
}

fn of_parts(epoch: u64, start: EnactState, lists: Parts) -> Frozen
    requires distinct { HaveDistinctIds lists.proposals }
    requires voters { All (λ (a : Proposal). IsMap voter_cmp a.votes) lists.proposals }
    requires members { IsMap credential_cmp (members_of start.committee) }
    ensures distinct { HaveDistinctIds result.proposals }
    ensures voters { All (λ (a : Proposal). IsMap voter_cmp a.votes) result.proposals }
    ensures members { IsMap credential_cmp (members_of result.start.committee) }
{
    Frozen {
        epoch,
        start,
        dreps: Listed::from_vec(lists.dreps),
        pools: Listed::from_vec(lists.pools),
        hot: HotList::from_vec(lists.hot),
        proposals: lists.proposals,
    }
}

// The epoch, the state from which the pass starts, and the lists.
pub(crate) fn frozen(alloc: Global, n: &mut Numbers) -> Result<Frozen>
    ensures distinct { IfOk result (λ f. HaveDistinctIds f.proposals) }
    ensures voters { IfOk result (λ f. All (λ (a : Proposal). IsMap voter_cmp a.votes) f.proposals) }
    ensures members { IfOk result (λ f. IsMap credential_cmp (members_of f.start.committee)) }
{
    let epoch = n.next();
    let start = start(alloc, n)?;
    match lists(alloc, n) {
        Ok(lists) => Ok(of_parts(epoch, start, lists)),
        Err(stop) => {
            drop(start);
            Err(stop)
        }
    }
}
