//! The store of live proposals.
ghost use Rattle.std.specs.Prelude.{◌≡◌, ◌^◌, ◌<◌, IfOk};
ghost use Rattle.gov_model.specs.Laws.{HaveDistinctIds};
ghost use Rattle.gov_model.specs.Proposals.{deposits_of};
ghost use Rattle.proposal_store.specs.Store.{AllOrdered};

use coin_frac::NoMemory;
use gov_actions::Proposal;
use hash_seed::HashSeed;
use listed::Listed;
use proposal_store::ProposalStore;
use std::alloc::Global;

/// The store of these proposals, in order of submission. Each has an id of its own, and its votes
/// are in order of voters. `NoMemory` may come at any time.
pub fn proposals_of(
    alloc: Global,
    seed: HashSeed,
    proposals: Listed<Proposal>,
) -> Result<ProposalStore, NoMemory>
    requires ids { HaveDistinctIds proposals }
    requires votes { AllOrdered proposals }
    requires fits { deposits_of proposals < 2 ^ 64 }
    ensures { IfOk result (λ store. store ≡ proposals) }
{
    let mut store = ProposalStore::new(alloc, seed);
    for proposal in proposals.into_vec() {
        store.add(proposal)?;
    }
    Ok(store)
}
