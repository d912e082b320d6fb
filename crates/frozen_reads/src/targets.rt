ghost use Rattle.std.specs.Prelude.{◌≡◌, IfOk};
ghost use Rattle.frozen_reads.specs.Targets.{targets_among};
ghost use Rattle.gov_actions.specs.Kinds.{in_order_of_priority};
ghost use Rattle.run_model.specs.Boundary.{targets_of};

use gov_actions::{Action, Proposal};
use gov_ids::{Account, ActionId};
use maps::set_of;
use no_memory::NoMemory;
use std::alloc::Global;
use std::collections::BTreeSet;

/// The targets of the enacted proposals in the order of enactment, with amounts in lovelace.
/// Withdrawals are of one priority, so this is the order of submission.
/// (CIP-1694, Enactment; ENACT of the formal specification)
pub fn enacted_targets(
    alloc: Global,
    proposals: &[Proposal],
    ratified: &[ActionId],
) -> Result<Vec<(Account, u64)>, NoMemory>
    ensures { IfOk result (λ l. l.items ≡ targets_among ratified.now (in_order_of_priority proposals.now)) }
{
    let ratified = set_of(alloc, ratified)?;
    targets_among(alloc, proposals, &ratified)
}

// The targets of those among these ids, in order of submission.
fn targets_among(
    alloc: Global,
    proposals: &[Proposal],
    ids: &BTreeSet<ActionId>,
) -> Result<Vec<(Account, u64)>, NoMemory>
    ensures { IfOk result (λ l. l.items ≡ targets_among ids.now.keys proposals.now) }
{
    let mut targets = Vec::new(alloc);
    for p in proposals {
        if ids.contains(&p.id) {
            targets.extend_from_slice(targets_of(&p.action))?;
        }
    }
    Ok(targets)
}

// The targets of an action; only withdrawals have any.
fn targets_of(a: &Action) -> &[(Account, u64)]
    ensures { result.now ≡ targets_of a.now }
{
    match a {
        Action::TreasuryWithdrawals { targets, .. } => targets.as_slice(),
        _ => &[],
    }
}
