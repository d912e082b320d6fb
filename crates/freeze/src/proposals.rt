ghost use Rattle.std.specs.Prelude.{◌≡◌, IfOk};

use coin_frac::NoMemory;
use gov_actions::Proposal;
use listed::Listed;
use proposal_store::ProposalStore;
use std::alloc::Global;

/// A copy of the live proposals with their votes, in order of submission.
/// (The proposals of EPOCH's snapshot in the formal specification)
pub fn copied_proposals(alloc: Global, store: &ProposalStore) -> Result<Listed<Proposal>, NoMemory>
    ensures { IfOk result (λ l. l ≡ store.now) }
{
    let mut copies = Vec::new(alloc);
    for i in 0..store.len() {
        if let Some(p) = store.at(i) {
            copies.push(p.copied(alloc)?)?;
        }
    }
    Ok(Listed::from_vec(copies))
}
